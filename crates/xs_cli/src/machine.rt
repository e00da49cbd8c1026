//! A machine for the code of thin modules: it decodes the bytes and does the six instructions.

ghost use Rattle.std.specs.Prelude.{◌≡◌, ℕ, List, Option, [], Some};
ghost use Rattle.byte_code.specs.declared.instruction.Op.{Op};
ghost use Rattle.es_ops.specs.Host.{written};
ghost use Rattle.es_ops.specs.State.{TraceEvent};
ghost use Rattle.xs_cli.specs.Code.{spelled, AreInstructions};
ghost use Rattle.xs_cli.specs.Machine.{runs, step, pushed, popped, called, printed, name_at, returned};
ghost use Rattle.xs_cli.specs.Steps.{DoesStep, DoesRun, IsCounted};

pub mod stack;

use crate::code::Program;
use crate::line::print_line;
use crate::texts::name;
use byte_code::{Op, decode};
use js_value::Units;
use stack::{Stack, Value};
use xs_base::{Sink, WriteFault};

/// Where the machine goes after an instruction.
#[derive(Clone, Copy, Debug, PartialEq, Eq)]
pub enum Flow {
    Goes,
    Returns,
}

/// Why a run ends before its code returns. No compiled code gets stuck.
#[derive(Clone, Copy, Debug, PartialEq, Eq)]
pub enum Fault {
    Write,
    Stuck,
}

fn push(stack: &mut Stack, value: Value) -> Result<Flow, Fault>
    ensures step { (old : Option (List ℕ)) → DoesStep (pushed value stack.old) stack.new old old result }
    ensures cause { (count : ℕ) → IsCounted count count result }
{
    if stack.is_full() {
        return Err(Fault::Stuck);
    }
    stack.push(value);
    Ok(Flow::Goes)
}

fn pop(stack: &mut Stack) -> Result<Flow, Fault>
    ensures step { (old : Option (List ℕ)) → DoesStep (popped stack.old) stack.new old old result }
    ensures cause { (count : ℕ) → IsCounted count count result }
{
    match stack.pop() {
        Some(_value) => Ok(Flow::Goes),
        None => Err(Fault::Stuck),
    }
}

fn finish(stack: &mut Stack) -> Result<Flow, Fault>
    ensures step { (old : Option (List ℕ)) → DoesStep (returned stack.old) stack.new old old result }
    ensures cause { (count : ℕ) → IsCounted count count result }
{
    match stack.pop() {
        Some(_value) => Ok(Flow::Returns),
        None => Err(Fault::Stuck),
    }
}

/// Calls `print` with one argument, a text.
fn call<O: Sink>(names: &[Units], stack: &mut Stack, out: &mut O) -> Result<Flow, Fault>
    ensures step { DoesStep (called names.now stack.old) stack.new (O.written out.old) (O.written out.new) result }
    ensures cause { IsCounted (O.faults out.old) (O.faults out.new) result }
{
    let Some(Value::Text(number)) = stack.pop() else {
        return Err(Fault::Stuck);
    };
    let Some(Value::Print) = stack.pop() else {
        return Err(Fault::Stuck);
    };
    let Some(_this) = stack.pop() else {
        return Err(Fault::Stuck);
    };
    print_name(names, number, stack, out)
}

/// Prints a name's text, and puts the call's result.
fn print_name<O: Sink>(
    names: &[Units],
    number: u16,
    stack: &mut Stack,
    out: &mut O,
) -> Result<Flow, Fault>
    ensures step { DoesStep (printed (name_at names.now number) stack.old) stack.new (O.written out.old) (O.written out.new) result }
    ensures cause { IsCounted (O.faults out.old) (O.faults out.new) result }
{
    let Some(text) = name(names, number) else {
        return Err(Fault::Stuck);
    };
    if stack.is_full() {
        return Err(Fault::Stuck);
    }
    match print_line(out, text) {
        Ok(()) => {
            stack.push(Value::Undefined);
            Ok(Flow::Goes)
        }
        Err(WriteFault) => Err(Fault::Write),
    }
}

/// Does one instruction.
fn step<O: Sink>(names: &[Units], stack: &mut Stack, op: Op, out: &mut O) -> Result<Flow, Fault>
    ensures step { DoesStep (step names.now op stack.old) stack.new (O.written out.old) (O.written out.new) result }
    ensures cause { IsCounted (O.faults out.old) (O.faults out.new) result }
{
    match op {
        Op::Undefined => push(stack, Value::Undefined),
        Op::Text(name) => push(stack, Value::Text(name)),
        Op::Pop => pop(stack),
        Op::OuterGet(0) => push(stack, Value::Print),
        Op::Call(1) => call(names, stack, out),
        Op::Return => finish(stack),
        _ => Err(Fault::Stuck),
    }
}

/// Runs a program from an empty stack. What is said of it holds for code that the definition runs to its end;
/// nothing is asked of other code.
pub fn run<O: Sink>(program: &Program, stack: &mut Stack, out: &mut O) -> Result<(), Fault>
    requires { stack.old ≡ [] }
    ensures run { (ops : List Op) → AreInstructions ops → program.now.code ≡ spelled ops → (events : List TraceEvent) → runs program.now.names ops [] ≡ Some events → DoesRun (written events) (O.written out.old) (O.written out.new) result }
    ensures cause { IsCounted (O.faults out.old) (O.faults out.new) result }
{
    let code = program.code.as_slice();
    let names = program.names.as_slice();
    let mut at = 0;
    while let Some((op, bytes)) = decode(code, at) {
        match step(names, stack, op, out)? {
            Flow::Goes => at += bytes,
            Flow::Returns => return Ok(()),
        }
    }
    Err(Fault::Stuck)
}
