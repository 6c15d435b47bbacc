//! The rows, each a statement that a task consists of.

/// A statement that a task consists of; `statement_of` says which.
#[derive(Clone, Copy)]
pub enum Row {
    LostUpdate,
    LongStored,
    Local,
    Pointed,
    Element,
    SecondField,
    Branch,
    While,
    DoWhile,
    Continued,
    Broken,
    Switch,
    Returned,
    Inlined,
    Cleared,
    /// Writes the value to a port.
    Shown(Value),
}

/// An expression; `value_of` says which.
#[derive(Clone, Copy)]
pub enum Value {
    OldValue,
    NewValue,
    LongRead,
    ByteRead,
    Moved,
    Apart,
    Negative,
    Complement,
    Zero,
    Quotient,
    Narrowed,
    Null,
    Both,
    Either,
    Chosen,
    InOrder,
    Called,
    Posted,
}
