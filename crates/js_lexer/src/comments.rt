//! Comments (ECMA-262, 12.4).

ghost use Rattle.std.specs.Prelude.{◌≡◌, not};
ghost use Rattle.es_model.specs.Tokens.{is_line_break};
ghost use Rattle.js_lexer.specs.Reads.{behind, comment, Finds};

use crate::characters::Characters;
use crate::classes::is_line_break;

/// Takes all up to the next line break.
pub fn take_line(left: &mut Characters)
    ensures { left.new ≡ behind (λ c. not (is_line_break c)) left.old }
{
    while let Some(c) = left.first() {
        if is_line_break(c) {
            return;
        }
        left.next();
    }
}

/// Takes the rest of a block comment, after its first two characters, and says whether it has a line break.
/// None where the text ends first.
pub fn take_block(left: &mut Characters) -> Option<bool>
    ensures { Finds (comment left.old) result left.new }
{
    let mut line = false;
    while let Some(c) = left.next() {
        if c == '*' && left.is_at('/') {
            left.next();
            return Some(line);
        }
        line = line || is_line_break(c);
    }
    None
}
