//! The texts of tokens, which trees have a copy of.

ghost use Rattle.std.specs.Prelude.{◌≡◌, IfOk, slice_get};
ghost use Rattle.es_model.specs.Readings as r;
ghost use Rattle.es_model.specs.Tokens.{keywords};

use es_model::{TokenKind, keyword_text};
use js_value::Units;
use parser_forms::copy_of;
use std::alloc::{AllocError, Global};

/// The text of ASCII characters. The one error is want of memory.
pub fn text_of(alloc: Global, characters: &str) -> Result<Units, AllocError>
    ensures { IfOk result (λ text. text ≡ characters.now) }
{
    let mut text = Units::new(alloc);
    for byte in characters.as_bytes() {
        text.push(u16::from(*byte))?;
    }
    Ok(text)
}

// A token's number is below the number of keywords where it is a keyword's; past the list there is none.
fn keyword_name(alloc: Global, place: u8) -> Result<Option<Units>, AllocError>
    ensures { IfOk result (λ name. name ≡ slice_get keywords place) }
{
    if place < 46 {
        Ok(Some(text_of(alloc, keyword_text(place))?))
    } else {
        Ok(None)
    }
}

/// The text of a token that may stand as the name of a property: a name or a keyword. The one error
/// is want of memory.
pub fn plain_name(alloc: Global, kind: &TokenKind) -> Result<Option<Units>, AllocError>
    ensures { IfOk result (λ name. name ≡ r.plain_name kind.now) }
{
    match kind {
        TokenKind::Name(text) => Ok(Some(copy_of(alloc, text)?)),
        TokenKind::Keyword(place) => keyword_name(alloc, *place),
        _ => Ok(None),
    }
}
