//! Lines of text, written as UTF-8.

ghost use Rattle.std.specs.Prelude.{◌≡◌};
ghost use Rattle.xs_base.specs.Outside.{HasCause, Receives};
ghost use Rattle.xs_cli.specs.Line.{line_bytes, WritesFront};

use js_value::utf8_piece;
use xs_base::{Sink, WriteFault};

/// Writes the text and a line feed, cut into pieces of whole characters, each as long as 64 bytes allow;
/// each piece is one write. A lone surrogate is written as U+FFFD. It takes no memory. (Own rule.)
pub fn print_line<O: Sink>(out: &mut O, text: &[u16]) -> Result<(), WriteFault>
    ensures bytes { Receives (O.written out.old) (O.written out.new) result (line_bytes text.now) }
    ensures cause { HasCause (O.faults out.old) (O.faults out.new) result }
{
    let mut rest = text;
    while let Some(units) = write_front(out, rest)? {
        let (_front, behind) = rest.split_at(units);
        rest = behind;
    }
    Ok(())
}

/// Writes the first piece of a text's line, and answers its units; None where the line is written to its end.
fn write_front<O: Sink>(out: &mut O, text: &[u16]) -> Result<Option<usize>, WriteFault>
    ensures front { WritesFront (O.written out.old) (O.written out.new) text.now result }
    ensures cause { HasCause (O.faults out.old) (O.faults out.new) result }
{
    let mut piece = [0; 64];
    let (bytes, units) = utf8_piece(text, 0, &mut piece);
    if units < text.len() || bytes == piece.len() {
        out.write(&piece[..bytes])?;
        return Ok(Some(units));
    }
    piece[bytes] = b'\n';
    out.write(&piece[..bytes + 1])?;
    Ok(None)
}
