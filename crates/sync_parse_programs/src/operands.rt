//! Operands, conditions, calculations and word operations of programs; lines where a rule may want one.
use sqlite_items::Items;
use sync_parse::RawScript;
use sync_parse_exprs::RawName;

/// A number, with the line where it stands.
#[derive(Clone, Copy)]
pub struct RawNumber {
    pub number: u128,
    pub line: u32,
}

/// A number or a local.
#[derive(Clone, Copy)]
pub enum RawOperand {
    Number(RawNumber),
    Local(RawName),
}

/// How the two operands of a condition compare.
#[derive(Clone, Copy)]
pub enum RawRelation {
    Equal,
    NotEqual,
    Below,
    AtMost,
}

#[derive(Clone, Copy)]
pub struct RawCondition {
    pub left: RawOperand,
    pub relation: RawRelation,
    pub right: RawOperand,
}

/// What a local is set to by arithmetic.
#[derive(Clone, Copy)]
pub enum RawCalculation {
    Plain(RawOperand),
    Plus(RawOperand, RawOperand),
    Minus(RawOperand, RawOperand),
    Times(RawOperand, RawNumber),
    Over(RawOperand, RawNumber),
    Modulo(RawOperand, RawNumber),
}

/// An index into an array of words or cells, with its scripts.
#[derive(Drop)]
pub struct RawIndex {
    pub operand: RawOperand,
    pub scripts: Items<RawScript>,
}

/// A word that is read.
#[derive(Drop)]
pub struct RawLoad {
    pub word: RawName,
    pub index: RawIndex,
}

/// A word that is changed by an operand.
#[derive(Drop)]
pub struct RawChange {
    pub word: RawName,
    pub index: RawIndex,
    pub operand: RawOperand,
}

/// A word that is changed where it has the expected value.
#[derive(Drop)]
pub struct RawCas {
    pub word: RawName,
    pub index: RawIndex,
    pub expected: RawOperand,
    pub changed: RawOperand,
}

/// The word operations whose old value a local is given.
#[derive(Drop)]
pub enum RawWordOperation {
    Load(RawLoad),
    Swap(RawChange),
    Add(RawChange),
    Sub(RawChange),
    Cas(RawCas),
}
