//! The instructions of compiled modules: their bytes, the records of compiled modules, and the test
//! of code that no compiler of this project wrote.
#![tactic(auto)]

mod bytes;
mod effect;
mod frame;
mod instruction;
mod list;
mod operand;
mod records;
mod renaming;
mod validity;

pub use bytes::CodeBytes;
pub use frame::Frame;
pub use instruction::{Op, decode, encode, length};
pub use list::CodeList;
pub use records::{
    CodeCapture, CodeExport, CodeHoist, CodeImport, FunctionCode, ModuleCode, Modules, Plan, Target,
};
pub use renaming::rename;
pub use validity::valid;

#[cfg(test)]
mod code_tests;
#[cfg(test)]
mod tests;
