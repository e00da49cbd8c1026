//! The code of every form of the language, as definitions.
#![tactic(auto)]
