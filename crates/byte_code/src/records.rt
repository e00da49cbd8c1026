//! Compiled modules and functions, as containers spell them, and the plan of a run.
#![tactic(auto)]

use crate::bytes::CodeBytes;
use crate::list::CodeList;
use js_value::Units;

/// A cell that a function captures: one of the making function's outer list, or the one in a place
/// of that function.
#[derive(Clone, Copy)]
pub struct CodeCapture {
    pub outer: bool,
    pub at: u16,
}

/// A compiled function. Names are numbered from 1.
#[derive(Drop)]
pub struct FunctionCode {
    pub name: u16,
    /// 0 plain, 1 arrow, 2 method, 3 base, 4 derived, 5 body, 6 default derived.
    pub kind: u8,
    pub parameters: u8,
    /// All places, the parameters among them.
    pub locals: u16,
    /// The greatest height of the operand stack.
    pub operands: u16,
    pub captures: CodeList<CodeCapture>,
    /// For each handler, innermost first, the start and the end of its range and its target, two
    /// bytes each, the highest byte first.
    pub handlers: CodeBytes,
    pub code: CodeBytes,
}

/// An imported binding: the name of the module and the name that it exports.
#[derive(Clone, Copy)]
pub struct CodeImport {
    pub module: u16,
    pub name: u16,
}

/// A function that is made before the body runs: the top-level number of its binding, and the
/// function's number.
#[derive(Clone, Copy)]
pub struct CodeHoist {
    pub at: u16,
    pub function: u16,
}

/// An exported name.
#[derive(Clone, Copy)]
pub enum CodeExport {
    /// A binding of the module's own: its top-level number, or in a preloaded module its cell.
    Local { name: u16, at: u32 },
    /// What the module of that name exports as `asked`.
    From { name: u16, module: u16, asked: u16 },
}

/// A compiled module.
#[derive(Drop)]
pub struct ModuleCode {
    pub name: u16,
    /// 0 code, 2 preloaded.
    pub state: u8,
    /// The names of the modules that it asks for.
    pub requests: CodeList<u16>,
    pub imports: CodeList<CodeImport>,
    pub exports: CodeList<CodeExport>,
    /// For each top-level binding whether it is const.
    pub declared: CodeList<bool>,
    pub hoisted: CodeList<CodeHoist>,
    /// The functions by number, the body first.
    pub functions: CodeList<FunctionCode>,
    /// The texts by which the module's own numbers of names go, or none where these go by the names
    /// of a table of modules.
    pub names: CodeList<Units>,
}

/// A table of modules, numbered from 0, whose numbers of names go by the table's names.
#[derive(Drop)]
pub struct Modules {
    pub names: CodeList<Units>,
    pub modules: CodeList<ModuleCode>,
}

/// What an import resolves to.
#[derive(Clone, Copy)]
pub enum Target {
    /// A function of the host: 0 `print`, 1 `read`.
    Host(u8),
    /// The export at a place among the local exports of a module of the table.
    Export { module: u16, at: u16 },
}

/// The new modules in order of evaluation, and for each of them, in that order, what its imports
/// resolve to, in order.
#[derive(Drop)]
pub struct Plan {
    pub order: CodeList<u16>,
    pub targets: CodeList<Target>,
}
