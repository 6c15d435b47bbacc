//! What bodies can meet, each of which writes a number of its own to a port.

/// The port to which bodies write what they meet.
pub(crate) const MET: u16 = 0x0140;

/// How many forms there are.
pub(crate) const FORMS: usize = 31;

/// Something that a body can meet.
#[derive(Clone, Copy)]
pub(crate) enum Form {
    Then,
    Else,
    While,
    Do,
    For,
    Case,
    FallThrough,
    Break,
    Continue,
    Return,
    ReturnValue,
    Atomic,
    BreakOutOfAtomic,
    ContinueOutOfAtomic,
    ReturnOutOfAtomic,
    Clear,
    NoArgument,
    OneArgument,
    TwoArguments,
    ThreeArguments,
    FourArguments,
    FiveArguments,
    GivesI8,
    GivesU8,
    GivesI16,
    GivesU16,
    GivesI32,
    GivesU32,
    Post,
    Null,
    Deref,
}

/// The names of the forms, in their order.
pub(crate) const NAMES: [&str; FORMS] = [
    "then",
    "else",
    "while",
    "do",
    "for",
    "case",
    "fall through",
    "break",
    "continue",
    "return",
    "return of a value",
    "atomic",
    "break out of atomic",
    "continue out of atomic",
    "return out of atomic",
    "local cleared",
    "call with no argument",
    "call with 1 argument",
    "call with 2 arguments",
    "call with 3 arguments",
    "call with 4 arguments",
    "call with 5 arguments",
    "call that gives int8_t",
    "call that gives uint8_t",
    "call that gives int16_t",
    "call that gives uint16_t",
    "call that gives int32_t",
    "call that gives uint32_t",
    "post",
    "null pointer",
    "pointer read or written",
];
