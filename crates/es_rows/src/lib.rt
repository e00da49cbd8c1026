//! The realm and the functions of its built-in objects, as definitions.
#![tactic(auto)]
