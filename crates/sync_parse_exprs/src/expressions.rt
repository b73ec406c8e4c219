//! Expressions: terms and formulas, whose sorts are not looked at.
use crate::raw_names::RawName;
use sqlite_items::{Boxed, Items};

/// An expression, with the line of its first lexeme.
#[derive(Debug, Drop)]
#[cycle(expressions)]
pub struct RawExpr {
    pub what: RawExprKind,
    pub line: u32,
}

/// What an expression is.
#[derive(Debug, Drop)]
#[cycle(expressions)]
pub enum RawExprKind {
    /// A number from 0 to 2^127 - 1.
    Number(i128),
    Name(RawName),
    /// `$` before a name, with the line of `$`.
    Param(u32, RawName),
    Nil,
    /// An expression in round brackets, which is what stands in them, but begins with a bracket.
    Bracketed(Boxed<RawExpr>),
    /// A terminal that has a value at some places, with its own line.
    Special(Special, u32),
    /// A function with its arguments, as many as there are, and the function's line.
    Call(Function, u32, Items<RawExpr>),
    Not(Boxed<RawExpr>),
    Minus(Boxed<RawExpr>),
    /// A number from 0 to 2^127 - 1 times an expression.
    Times(i128, Boxed<RawExpr>),
    Two(Operator, Boxed<RawExpr>, Boxed<RawExpr>),
}

/// A terminal that has a value at some places.
#[derive(Clone, Copy, PartialEq, Eq, Debug)]
pub enum Special {
    Value,
    Index,
    Old,
    New,
    Wrap,
}

/// The functions of terms. `held` is known in programs only.
#[derive(Clone, Copy, PartialEq, Eq, Debug)]
pub enum Function {
    Get,
    Has,
    Size,
    Sum,
    Put,
    Del,
    Bump,
    Held,
}

/// What joins two expressions.
#[derive(Clone, Copy, PartialEq, Eq, Debug)]
pub enum Operator {
    /// `==>`
    Implies,
    /// `||`
    Or,
    /// `&&`
    And,
    /// `=`
    Equal,
    /// `!=`
    NotEqual,
    /// `<=`
    AtMost,
    /// `<`
    Below,
    /// `+`
    Plus,
    /// `-`
    Minus,
}
