//! The code of thin modules: their names, and the instructions of their bodies.

ghost use Rattle.std.specs.Prelude.{◌≡◌, ◌<◌, ◌≤◌, ◌++◌, length, IfOk, OnOk};
ghost use Rattle.xs_cli.specs.Code.{with_name, names_of, body, number, print_text, spelled};

use crate::texts::{Texts, place};
use byte_code::{CodeBytes, Op, encode};
use js_value::Units;
use std::alloc::{AllocError, Global};

/// A compiled module.
#[derive(Drop)]
pub struct Program {
    pub names: Texts,
    pub code: CodeBytes,
}

const MAIN: &[u16] = &[0x6D, 0x61, 0x69, 0x6E];

/// Compiles a module that prints these texts. The names take 2 bytes for each unit of a text that stands in
/// the module, each once; the code takes 10 bytes for each text. (Own rule.)
pub fn compile(alloc: Global, texts: &Texts) -> Result<Program, AllocError>
    requires { length texts.now ≤ 16001 }
    ensures names { IfOk result (λ program. program.names ≡ names_of texts.now) }
    ensures code { IfOk result (λ program. program.code ≡ spelled (body (names_of texts.now) texts.now)) }
{
    let names = names(alloc, texts.as_slice())?;
    let code = code(alloc, names.as_slice(), texts.as_slice())?;
    Ok(Program { names, code })
}

fn names(alloc: Global, texts: &[Units]) -> Result<Texts, AllocError>
    ensures { IfOk result (λ names. names ≡ names_of texts.now) }
{
    let mut names = Texts::new(alloc);
    names.push(Units::from_units(alloc, MAIN)?)?;
    for text in texts {
        add_name(alloc, &mut names, text.as_slice())?;
    }
    Ok(names)
}

/// Adds the text to the names where it is none of them.
fn add_name(alloc: Global, names: &mut Texts, text: &[u16]) -> Result<(), AllocError>
    ensures { OnOk result (names.new ≡ with_name names.old text.now) }
{
    if place(names.as_slice(), text).is_some() {
        return Ok(());
    }
    names.push(Units::from_units(alloc, text)?)?;
    Ok(())
}

/// The number of a text among the names, from 1. Each text that is asked for is one of them.
fn name_number(names: &[Units], text: &[u16]) -> u16
    requires { length names.now < 65535 }
    ensures { result ≡ number names.now text.now }
{
    let place = place(names, text).unwrap_or(names.len());
    (place + 1) as u16
}

fn code(alloc: Global, names: &[Units], texts: &[Units]) -> Result<CodeBytes, AllocError>
    requires { length names.now < 65535 }
    ensures { IfOk result (λ code. code ≡ spelled (body names.now texts.now)) }
{
    let mut code = CodeBytes::new(alloc);
    for text in texts {
        let number = name_number(names, text.as_slice());
        put_call(&mut code, number)?;
    }
    encode(&mut code, Op::Undefined)?;
    encode(&mut code, Op::Return)?;
    Ok(code)
}

/// Puts the call that prints a name's text.
fn put_call(code: &mut CodeBytes, name: u16) -> Result<(), AllocError>
    ensures { OnOk result (code.new ≡ code.old ++ spelled (print_text name)) }
{
    encode(code, Op::Undefined)?;
    encode(code, Op::OuterGet(0))?;
    encode(code, Op::Text(name))?;
    encode(code, Op::Call(1))?;
    encode(code, Op::Pop)?;
    Ok(())
}
