ghost use Rattle.std.specs.Prelude.{◌≡◌};
ghost use Rattle.js_parser.specs.declared.fault.ParseFault.TheVariants.{Memory};

use std::alloc::AllocError;

/// Why a list of tokens is no module that is taken.
#[derive(Clone, Copy, Debug, PartialEq, Eq)]
pub enum ParseFault {
    /// No module's tokens begin with the tokens up to the one at this place in the list, from 0,
    /// and with that one.
    Syntax(u32),
    /// The tokens spell a module that is nested deeper than 64 (own rule).
    TooDeep,
    /// Want of memory.
    Memory,
}

impl From<AllocError> for ParseFault {
    ghost from_gives = { λ _ fault. fault ≡ Memory };

    fn from(_error: AllocError) -> ParseFault {
        ParseFault::Memory
    }
}
