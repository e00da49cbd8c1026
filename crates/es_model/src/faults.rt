ghost use Rattle.std.specs.Prelude.{◌≡◌};
ghost use Rattle.es_model.specs.declared.faults.LexFault.TheVariants.{Memory};

use std::alloc::AllocError;

/// Why a text is no list of tokens, with the place of the byte that it names, from 0.
#[derive(Clone, Copy, Debug)]
pub enum LexFault {
    /// The first byte that belongs to no well-formed sequence of UTF-8. It comes before all
    /// others; of these the one that a reader meets first comes.
    NotUtf8(u32),
    /// A character that begins no token.
    BadCharacter(u32),
    /// The quote of a string that a line break or the end cuts off.
    OpenString(u32),
    /// The start of a block comment that the end cuts off.
    OpenComment(u32),
    /// The backquote of the innermost template that the end cuts off.
    OpenTemplate(u32),
    /// The backslash of what is no escape.
    BadEscape(u32),
    /// The first byte of a number literal of a form that the language doesn't have.
    NumberForm(u32),
    /// The first byte of a number literal above 9007199254740991.
    NumberTooLarge(u32),
    /// Want of memory.
    Memory,
}

impl From<AllocError> for LexFault {
    ghost from_gives = { λ _ fault. fault ≡ Memory };

    fn from(_error: AllocError) -> LexFault {
        LexFault::Memory
    }
}

/// The first early rule that a module breaks (ECMA-262, 13 to 16, and the language's own rules),
/// with the place of the byte that it names, from 0: where the later of two things, or the thing
/// itself, begins.
#[derive(Clone, Copy)]
pub enum EarlyFault {
    /// Two bindings of one name in one scope: the later name.
    DuplicateName(u32),
    /// One exported name twice: the later name, or the word `default`.
    DuplicateExport(u32),
    /// An exported name that the module's top doesn't bind: the name.
    ExportUndeclared(u32),
    /// A binding of, or a reference to, a reserved name: the name; or `__proto__: value` in an
    /// object literal: the member.
    ReservedName(u32),
    /// An assignment to, or an update of, a name that isn't bound there: the whole of it.
    GlobalAssigned(u32),
    /// A `break` outside loops and switches.
    StrayBreak(u32),
    /// A `continue` outside loops.
    StrayContinue(u32),
    /// A `return` outside functions.
    StrayReturn(u32),
    /// A `super` form where it has no meaning.
    StraySuper(u32),
    /// A `delete` of a name or a super member: the whole of it.
    DeleteName(u32),
    /// A second constructor, an accessor named `constructor`, or a static member named
    /// `prototype`: the member.
    DuplicateConstructor(u32),
    /// An accessor whose written key is an array index: the member.
    IndexAccessor(u32),
    /// Want of memory.
    Memory,
}
