//! What a token makes of a state, by what is due or was read.

ghost use Rattle.std.specs.Prelude.{IfOk};
ghost use Rattle.js_parser.specs.Held as h;
ghost use Rattle.js_parser.specs.Machine as m;
ghost use Rattle.js_parser.specs.Shows.{Shows};

use crate::begins::begin;
use crate::expression_steps::expression_step;
use crate::frame::{Control, Frame};
use crate::item_steps::item_step;
use crate::member_steps::member_step;
use crate::operands::operand;
use crate::settle::settle;
use crate::statement_steps::statement_step;
use es_model::Token;
use parser_forms::{Piece, Stack};
use std::alloc::AllocError;

/// One token. A state that failed, or in which the module is complete, takes none. The one error is want of
/// memory.
pub fn step(
    stack: &mut Stack<Frame>,
    pieces: &mut Stack<Piece>,
    control: Control,
    token: &Token,
) -> Result<Control, AllocError>
    ensures { IfOk result (λ c. Shows (m.step (h.held control stack.old pieces.old) token.now) c stack.new pieces.new) }
{
    match control {
        Control::Fail => Ok(Control::Fail),
        Control::Operand => operand(stack, pieces, token),
        Control::Read => settle(stack, pieces, token),
        Control::Statement => begin(stack, pieces, token),
        Control::Expression(due) => expression_step(stack, pieces, due, token),
        Control::Member(due) => member_step(stack, pieces, due, token),
        Control::StatementPart(due) => statement_step(stack, pieces, due, token),
        Control::Item(due) => item_step(stack, pieces, due, token),
        Control::Done => Ok(Control::Fail),
    }
}
