//! Names as they are compared and copied.

ghost use Rattle.std.specs.Prelude.{◌≡◌, IfOk};
ghost use Rattle.es_model.specs.Tokens.{same_text};

use es_model::Identifier;
use js_value::Units;
use std::alloc::{AllocError, Global};

/// Whether units are a text, each of whose characters is a byte.
pub fn is_text(units: &[u16], text: &[u8]) -> bool
    ensures { result ≡ same_text units.now text.now }
{
    match units {
        [] => text.is_empty(),
        [first, more @ ..] => match text {
            [] => false,
            [wanted, rest @ ..] => *first == u16::from(*wanted) && is_text(more, rest),
        },
    }
}

/// A copy of a text.
pub fn copy_of(alloc: Global, text: &Units) -> Result<Units, AllocError>
    ensures { IfOk result (λ copy. copy ≡ text.now) }
{
    Units::from_units(alloc, text.as_slice())
}

/// A copy of a name.
pub fn same_name(alloc: Global, name: &Identifier) -> Result<Identifier, AllocError>
    ensures { IfOk result (λ copy. copy ≡ name.now) }
{
    Ok(Identifier {
        at: name.at,
        name: copy_of(alloc, &name.name)?,
    })
}

/// The text of ASCII characters.
pub fn text_of(alloc: Global, characters: &str) -> Result<Units, AllocError>
    ensures { IfOk result (λ text. text ≡ characters.now) }
{
    let mut text = Units::new(alloc);
    for byte in characters.as_bytes() {
        text.push(u16::from(*byte))?;
    }
    Ok(text)
}
