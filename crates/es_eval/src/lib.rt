//! The evaluation of trees and the boot of a module, as definitions.
#![tactic(auto)]
