//! The byte machine, as definitions and laws.
#![tactic(auto)]
