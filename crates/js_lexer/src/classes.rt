//! Classes of characters.

ghost use Rattle.std.specs.Prelude.{◌≡◌, ◌≤◌};
ghost use Rattle.es_model.specs.Tokens.{is_blank, is_line_break, is_name_start, is_name_part, is_digit, digit_value, base_of, goes_on};

use unicode_ident::{is_xid_continue, is_xid_start};

/// White space (ECMA-262, 12.2).
pub fn is_blank(c: char) -> bool
    ensures { result ≡ is_blank c }
{
    matches!(
        c,
        '\t' | '\u{B}'
            | '\u{C}'
            | ' '
            | '\u{A0}'
            | '\u{FEFF}'
            | '\u{1680}'
            | '\u{2000}'..='\u{200A}' | '\u{202F}' | '\u{205F}' | '\u{3000}'
    )
}

/// Line breaks (ECMA-262, 12.3).
pub fn is_line_break(c: char) -> bool
    ensures { result ≡ is_line_break c }
{
    matches!(c, '\n' | '\r' | '\u{2028}' | '\u{2029}')
}

/// What a name starts with (ECMA-262, 12.7, with XID_Start in the place of ID_Start).
pub fn is_name_start(c: char) -> bool
    ensures { result ≡ is_name_start c }
{
    c == '$' || c == '_' || is_xid_start(c)
}

/// What a name goes on with.
pub fn is_name_part(c: char) -> bool
    ensures { result ≡ is_name_part c }
{
    c == '$' || c == '\u{200C}' || c == '\u{200D}' || is_xid_continue(c)
}

/// A decimal digit.
pub fn is_digit(c: char) -> bool
    ensures { result ≡ is_digit c }
{
    matches!(c, '0'..='9')
}

/// From 0 to 35 for a digit or a letter of either case, else 36.
pub fn digit_value(c: char) -> u32
    ensures value { result ≡ digit_value c }
    ensures bound { result ≤ 36 }
{
    match c {
        '0'..='9' => c as u32 - 48,
        'a'..='z' => c as u32 - 87,
        'A'..='Z' => c as u32 - 55,
        _ => 36,
    }
}

/// The base that a letter names after `0`; 0 where it names none.
pub fn base_of(c: char) -> u32
    ensures value { result ≡ base_of c }
    ensures bound { result ≤ 16 }
{
    match c {
        'x' | 'X' => 16,
        'o' | 'O' => 8,
        'b' | 'B' => 2,
        _ => 0,
    }
}

/// What may not stand directly after a number.
pub fn goes_on(c: char) -> bool
    ensures { result ≡ goes_on c }
{
    c == '.' || is_digit(c) || is_name_part(c)
}
