//! The byte machine beside evaluation, as laws.
#![tactic(auto)]
