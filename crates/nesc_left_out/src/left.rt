//! Forms that this profile leaves out.

ghost use Rattle.std.specs.Prelude.{◌≡◌, IfOk, false};
ghost use Rattle.nesc_left_out.specs.Left as spec;

use nesc_operands::operators::{is_spelled, row_of};
use nesc_tree::{Sort, TypeNames, sort_of};
use nm_base::{Kind, Left, Token};

/// What has to be so of a refused token's place.
#[derive(Clone, Copy, PartialEq, Eq, Debug)]
pub enum Place {
    Anywhere,
    /// A type could begin there.
    Type,
    /// A number could stand there.
    Operand,
    /// A statement could begin there, or end.
    Statement,
    /// A star or a name could stand there.
    Declarator,
    /// A field could end there.
    FieldEnd,
    /// The name of what a header declares stands before it.
    HeaderName,
    /// An interface of a specification could begin there.
    Element,
    /// The parameter of a bracket could end there.
    Bracket,
    /// A `long` is among the words of the type before it.
    SecondLong,
}

/// The form that is left out, and the place where it is meant.
pub type Row = Option<(Left, Place)>;

const WORDS: [(&[u8], Row); 17] = [
    (b"goto", Some((Left::Goto, Place::Anywhere))),
    (b"float", Some((Left::Float, Place::Anywhere))),
    (b"double", Some((Left::Float, Place::Anywhere))),
    (b"long", Some((Left::Wide, Place::SecondLong))),
    (b"int64_t", Some((Left::Wide, Place::Type))),
    (b"uint64_t", Some((Left::Wide, Place::Type))),
    (b"union", Some((Left::Union, Place::Anywhere))),
    (b"nx_union", Some((Left::Union, Place::Anywhere))),
    (b"static", Some((Left::Static, Place::Statement))),
    (b"extern", Some((Left::Extern, Place::Anywhere))),
    (b"includes", Some((Left::Includes, Place::Anywhere))),
    (b"asm", Some((Left::Asm, Place::Anywhere))),
    (b"__asm__", Some((Left::Asm, Place::Anywhere))),
    (b"__attribute__", Some((Left::Attribute, Place::Anywhere))),
    (b"nx_struct", Some((Left::Nx, Place::Anywhere))),
    (b"command", Some((Left::Bare, Place::Element))),
    (b"event", Some((Left::Bare, Place::Element))),
];

const SIGNS: [(&[u8], Row); 8] = [
    (b"hwevent", Some((Left::Hwevent, Place::Anywhere))),
    (b"...", Some((Left::Varargs, Place::Anywhere))),
    (b":", Some((Left::Bitfield, Place::FieldEnd))),
    (b"(", Some((Left::Declarator, Place::Declarator))),
    (b";", Some((Left::Variable, Place::HeaderName))),
    (b"=", Some((Left::Variable, Place::HeaderName))),
    (b",", Some((Left::Variable, Place::HeaderName))),
    (b"[", Some((Left::Variable, Place::HeaderName))),
];

// Whether a word begins as those of network types do.
fn is_network(word: &[u8]) -> bool
    ensures { result ≡ spec.is_network word.now }
{
    word.starts_with(b"nx_") || word.starts_with(b"nxle_")
}

// What a word is where it stands in no row.
fn other_word(token: &Token) -> Row
    ensures { result ≡ spec.other_word token.now.text }
{
    if is_network(token.text.as_bytes()) {
        Some((Left::Nx, Place::Type))
    } else {
        None
    }
}

/// The form that the token begins, and the place where it is meant.
#[tactic(auto, unfolding(crate::specs::Left::row))]
pub fn row(token: &Token) -> Row
    ensures { result ≡ spec.row token.now }
{
    match token.kind {
        Kind::Word => row_of(&WORDS, token, other_word(token)),
        Kind::Sign => row_of(&SIGNS, token, None),
        Kind::Text => Some((Left::Text, Place::Operand)),
        Kind::Number => None,
        Kind::Char => None,
    }
}

/// The form that a comma begins in a bracket.
pub fn comma_row(token: &Token) -> Row
    ensures { result ≡ spec.comma_row token.now }
{
    if is_spelled(token, b",") {
        Some((Left::Parameters, Place::Bracket))
    } else {
        None
    }
}

// Whether a word of a type leaves a `long` among its words.
fn long_with(found: bool, sort: Sort, token: &Token) -> bool
    ensures { result ≡ spec.long_with found sort token.now }
{
    match sort {
        Sort::Length => is_spelled(token, b"long"),
        Sort::Qualifier | Sort::Signedness | Sort::Int => found,
        _ => false,
    }
}

/// Whether the tokens end with words of an integer type, `long` among them.
pub fn ends_long(names: &TypeNames, before: &[Token]) -> bool
    ensures { result ≡ spec.ends_long names.now false before.now }
{
    let mut found = false;
    for token in before {
        found = long_with(found, sort_of(names, token), token);
    }
    found
}
