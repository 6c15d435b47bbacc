//! What a token is to the grammar.

ghost use Rattle.std.specs.Prelude.{ℕ, List, ◌∷◌, ◌≡◌, bytes_eq, map};
ghost use Rattle.nesc_tree.specs.Sorts as spec;
ghost use Rattle.nesc_tree.specs.declared.sorts.Sort.TheVariants as s;

use crate::names::TypeNames;
use nm_base::{Kind, Token};

/// What a token is to the grammar; tokens that it never tells apart share a sort.
#[derive(Clone, Copy, PartialEq, Eq, Debug)]
pub enum Sort {
    /// Behind the last token
    End,
    /// A name that is no keyword and no type name in force
    Word,
    /// A name that a typedef or a type parameter in force declares
    TypeName,
    /// A number
    Number,
    /// A character literal
    Char,
    /// A text literal
    Text,
    /// `(`
    LParen,
    /// `)`
    RParen,
    /// `[`
    LBracket,
    /// `]`
    RBracket,
    /// `{`
    LBrace,
    /// `}`
    RBrace,
    /// `;`
    Semi,
    /// `,`
    Comma,
    /// `.`
    Dot,
    /// `->`
    Arrow,
    /// `<-`
    BackArrow,
    /// `@`
    At,
    /// `?`
    Question,
    /// `:`
    Colon,
    /// `=`
    Assign,
    /// An assignment with an operator: `+=` `-=` `*=` `/=` `%=` `&=` `|=` `^=` `<<=` `>>=`
    OpAssign,
    /// `||`
    OrOr,
    /// `&&`
    AndAnd,
    /// `|`
    Bar,
    /// `^`
    Caret,
    /// `&`
    Amp,
    /// `==` `!=`
    Equality,
    /// `<`
    Less,
    /// `>`
    Greater,
    /// `<=` `>=`
    OrEqual,
    /// `<<` `>>`
    Shift,
    /// `+`
    Plus,
    /// `-`
    Minus,
    /// `*`
    Star,
    /// `/` `%`
    Divide,
    /// `~` `!`
    Complement,
    /// `++` `--`
    Step,
    /// `const` `volatile`
    Qualifier,
    /// `void`
    Void,
    /// `signed` `unsigned`
    Signedness,
    /// `char`
    CharType,
    /// `short` `long`
    Length,
    /// `int`
    Int,
    /// `struct`
    Struct,
    /// `enum`
    Enum,
    /// `typedef`
    Typedef,
    /// `sizeof`
    SizeOf,
    /// `NULL`
    Null,
    /// `unique` `uniqueCount`
    Unique,
    /// `port_read`
    PortRead,
    /// `port_write`
    PortWrite,
    /// `post`
    Post,
    /// `call` `signal`
    Call,
    /// `atomic`
    Atomic,
    /// `if`
    If,
    /// `else`
    Else,
    /// `while`
    While,
    /// `do`
    Do,
    /// `for`
    For,
    /// `switch`
    Switch,
    /// `case`
    Case,
    /// `default`
    Default,
    /// `break`
    Break,
    /// `continue`
    Continue,
    /// `return`
    Return,
    /// `norace`
    Norace,
    /// `static`
    Static,
    /// `inline`
    Inline,
    /// `async`
    Async,
    /// `task`
    Task,
    /// `command` `event`
    Item,
    /// `interface`
    Interface,
    /// `generic`
    Generic,
    /// `module`
    Module,
    /// `configuration`
    Configuration,
    /// `implementation`
    Implementation,
    /// `components`
    Components,
    /// `provides` `uses`
    Specify,
    /// `as`
    As,
    /// `new`
    New,
    /// A keyword or sign that no form of the grammar has
    Other,
}

fn same(a: &[u8], b: &[u8]) -> bool
    ensures { result ≡ bytes_eq a.now b.now }
{
    a == b
}

// The sort of the row with this text, or else the other.
fn found_in(rows: &[(&[u8], Sort)], text: &[u8], other: Sort) -> Sort
    ensures { result ≡ spec.found_in (map (λ row. (row.0.now, row.1)) rows.now) text.now other }
{
    match rows {
        [] => other,
        [row, rest @ ..] => {
            if same(text, row.0) {
                row.1
            } else {
                found_in(rest, text, other)
            }
        }
    }
}

// The signs with this first byte.
#[tactic(auto, unfolding(crate::specs::Sorts::sign))]
fn signs_at(first: u8) -> &'static [(&'static [u8], Sort)]
    ensures { (rest : List ℕ) →
        spec.found_in (map (λ row. (row.0.now, row.1)) result.now) (first ∷ rest) s.Other ≡ spec.sign (first ∷ rest) }
{
    match first {
        b'!' => &[(b"!=", Sort::Equality), (b"!", Sort::Complement)],
        b'%' => &[(b"%=", Sort::OpAssign), (b"%", Sort::Divide)],
        b'&' => &[
            (b"&=", Sort::OpAssign),
            (b"&&", Sort::AndAnd),
            (b"&", Sort::Amp),
        ],
        b'(' => &[(b"(", Sort::LParen)],
        b')' => &[(b")", Sort::RParen)],
        b'*' => &[(b"*=", Sort::OpAssign), (b"*", Sort::Star)],
        b'+' => &[
            (b"+=", Sort::OpAssign),
            (b"+", Sort::Plus),
            (b"++", Sort::Step),
        ],
        b',' => &[(b",", Sort::Comma)],
        b'-' => &[
            (b"->", Sort::Arrow),
            (b"-=", Sort::OpAssign),
            (b"-", Sort::Minus),
            (b"--", Sort::Step),
        ],
        b'.' => &[(b".", Sort::Dot)],
        b'/' => &[(b"/=", Sort::OpAssign), (b"/", Sort::Divide)],
        b':' => &[(b":", Sort::Colon)],
        b';' => &[(b";", Sort::Semi)],
        b'<' => &[
            (b"<-", Sort::BackArrow),
            (b"<<=", Sort::OpAssign),
            (b"<", Sort::Less),
            (b"<=", Sort::OrEqual),
            (b"<<", Sort::Shift),
        ],
        b'=' => &[(b"=", Sort::Assign), (b"==", Sort::Equality)],
        b'>' => &[
            (b">>=", Sort::OpAssign),
            (b">", Sort::Greater),
            (b">=", Sort::OrEqual),
            (b">>", Sort::Shift),
        ],
        b'?' => &[(b"?", Sort::Question)],
        b'@' => &[(b"@", Sort::At)],
        b'[' => &[(b"[", Sort::LBracket)],
        b']' => &[(b"]", Sort::RBracket)],
        b'^' => &[(b"^=", Sort::OpAssign), (b"^", Sort::Caret)],
        b'{' => &[(b"{", Sort::LBrace)],
        b'|' => &[
            (b"|=", Sort::OpAssign),
            (b"||", Sort::OrOr),
            (b"|", Sort::Bar),
        ],
        b'}' => &[(b"}", Sort::RBrace)],
        b'~' => &[(b"~", Sort::Complement)],
        _ => &[],
    }
}

#[tactic(auto, unfolding(crate::specs::Sorts::sign))]
fn sign(text: &[u8]) -> Sort
    ensures { result ≡ spec.sign text.now }
{
    match text {
        [] => Sort::Other,
        [first, ..] => found_in(signs_at(*first), text, Sort::Other),
    }
}

// The keywords with this first byte.
#[tactic(auto, unfolding(crate::specs::Sorts::keyword))]
fn keywords_at(first: u8) -> &'static [(&'static [u8], Sort)]
    ensures { (rest : List ℕ) →
        spec.found_in (map (λ row. (row.0.now, row.1)) result.now) (first ∷ rest) s.Word ≡ spec.keyword (first ∷ rest) }
{
    match first {
        b'N' => &[(b"NULL", Sort::Null)],
        b'_' => &[(b"__asm__", Sort::Other), (b"__attribute__", Sort::Other)],
        b'a' => &[
            (b"atomic", Sort::Atomic),
            (b"async", Sort::Async),
            (b"as", Sort::As),
            (b"asm", Sort::Other),
        ],
        b'b' => &[(b"break", Sort::Break)],
        b'c' => &[
            (b"const", Sort::Qualifier),
            (b"char", Sort::CharType),
            (b"call", Sort::Call),
            (b"case", Sort::Case),
            (b"continue", Sort::Continue),
            (b"command", Sort::Item),
            (b"configuration", Sort::Configuration),
            (b"components", Sort::Components),
        ],
        b'd' => &[
            (b"do", Sort::Do),
            (b"default", Sort::Default),
            (b"double", Sort::Other),
        ],
        b'e' => &[
            (b"enum", Sort::Enum),
            (b"else", Sort::Else),
            (b"event", Sort::Item),
            (b"extern", Sort::Other),
        ],
        b'f' => &[(b"for", Sort::For), (b"float", Sort::Other)],
        b'g' => &[(b"generic", Sort::Generic), (b"goto", Sort::Other)],
        b'i' => &[
            (b"int", Sort::Int),
            (b"if", Sort::If),
            (b"inline", Sort::Inline),
            (b"interface", Sort::Interface),
            (b"implementation", Sort::Implementation),
            (b"includes", Sort::Other),
        ],
        b'l' => &[(b"long", Sort::Length)],
        b'm' => &[(b"module", Sort::Module)],
        b'n' => &[
            (b"norace", Sort::Norace),
            (b"new", Sort::New),
            (b"nx_union", Sort::Other),
            (b"nx_struct", Sort::Other),
        ],
        b'p' => &[
            (b"port_read", Sort::PortRead),
            (b"port_write", Sort::PortWrite),
            (b"post", Sort::Post),
            (b"provides", Sort::Specify),
        ],
        b'r' => &[(b"return", Sort::Return)],
        b's' => &[
            (b"signed", Sort::Signedness),
            (b"short", Sort::Length),
            (b"struct", Sort::Struct),
            (b"sizeof", Sort::SizeOf),
            (b"signal", Sort::Call),
            (b"switch", Sort::Switch),
            (b"static", Sort::Static),
        ],
        b't' => &[(b"typedef", Sort::Typedef), (b"task", Sort::Task)],
        b'u' => &[
            (b"unsigned", Sort::Signedness),
            (b"unique", Sort::Unique),
            (b"uniqueCount", Sort::Unique),
            (b"uses", Sort::Specify),
            (b"union", Sort::Other),
        ],
        b'v' => &[(b"volatile", Sort::Qualifier), (b"void", Sort::Void)],
        b'w' => &[(b"while", Sort::While)],
        _ => &[],
    }
}

#[tactic(auto, unfolding(crate::specs::Sorts::keyword))]
fn keyword(text: &[u8]) -> Sort
    ensures { result ≡ spec.keyword text.now }
{
    match text {
        [] => Sort::Word,
        [first, ..] => found_in(keywords_at(*first), text, Sort::Word),
    }
}

/// What the token is where no type name is in force.
fn class(token: &Token) -> Sort
    ensures { result ≡ spec.class token.now }
{
    match token.kind {
        Kind::Word => keyword(token.text.as_bytes()),
        Kind::Number => Sort::Number,
        Kind::Char => Sort::Char,
        Kind::Text => Sort::Text,
        Kind::Sign => sign(token.text.as_bytes()),
    }
}

/// What the token is.
#[tactic(auto, unfolding(crate::specs::Sorts::sort))]
pub fn sort_of(names: &TypeNames, token: &Token) -> Sort
    ensures { result ≡ spec.sort names.now token.now }
{
    match class(token) {
        Sort::Word => {
            if names.has(&token.text) {
                Sort::TypeName
            } else {
                Sort::Word
            }
        }
        other => other,
    }
}

/// What the first token is.
pub fn ahead(names: &TypeNames, tokens: &[Token]) -> Sort
    ensures { result ≡ spec.ahead names.now tokens.now }
{
    match tokens {
        [] => Sort::End,
        [token, ..] => sort_of(names, token),
    }
}

/// Whether the two are the same.
pub fn same_sort(a: Sort, b: Sort) -> bool
    ensures { result ≡ spec.same_sort a b }
{
    a as u8 == b as u8
}
