//! What a text falls into.
use sqlite_items::Items;

/// What a lexeme is.
#[derive(Clone, Copy, Debug, PartialEq, Eq)]
pub enum Kind {
    /// A letter or `_`, then letters, digits and `_`.
    Name,
    /// Decimal digits.
    Number,
    /// One of the signs of the language.
    Sign,
}

/// The bytes `start..end` of a text, at most 1,048,576, and the line of the first of them, from 1.
#[derive(Clone, Copy, Debug, PartialEq, Eq)]
pub struct Lexeme {
    pub kind: Kind,
    pub start: u32,
    pub end: u32,
    pub line: u32,
}

/// The lexemes of a text in order, and the line of its end, from 1.
#[derive(Debug, Drop)]
pub struct Tokens {
    pub list: Items<Lexeme>,
    pub last_line: u32,
}
