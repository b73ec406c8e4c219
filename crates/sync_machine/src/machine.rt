//! The trees of a machine.
use crate::fields::Field;
use sqlite_items::Items;
use sync_base::OpMode;
use sync_terms::{FormId, Sym, TermId, Terms};

/// What a place asks of a value: a new name for it, or a term that it equals.
#[derive(Clone, Copy, PartialEq, Eq, Debug)]
pub enum Pattern {
    Bind(Sym),
    Term(TermId),
}

/// The place of a token or of a stored object: a key where the strategy has keys, and a value or amount.
#[derive(Clone, Copy, PartialEq, Eq, Debug)]
pub struct Place {
    pub key: Option<TermId>,
    pub value: Option<Pattern>,
}

/// What a statement does. The number is the field's.
#[derive(Clone, Copy, PartialEq, Eq, Debug)]
pub enum Act {
    Init(u32, TermId),
    Require(FormId),
    Assert(FormId),
    Update(u32, TermId),
    HaveVariable(u32),
    Add(u32, Place),
    Remove(u32, Place),
    Have(u32, Place),
    Deposit(u32, Place),
    Withdraw(u32, Place),
    Guard(u32, Place),
}

/// A statement, with the line of its first lexeme.
#[derive(Clone, Copy, PartialEq, Eq, Debug)]
pub struct Step {
    pub act: Act,
    pub line: u32,
}

/// An init, a transition or a property.
#[derive(Debug, Drop)]
pub struct Operation {
    pub name: u32,
    pub mode: OpMode,
    pub params: Items<Sym>,
    pub steps: Items<Step>,
    pub line: u32,
}

/// A formula that every reached state is to meet, for all numbers as its parameters.
#[derive(Debug, Drop)]
pub struct Invariant {
    pub name: u32,
    pub params: Items<Sym>,
    pub form: FormId,
    pub line: u32,
}

/// A transition system: its fields, its operations and its invariants, over its own store of terms.
///
/// Names are numbers into the text's list of names. The symbol of field number f is f. All terms and formulas
/// of the machine, and those of its proofs, are ids of `terms`.
#[derive(Drop)]
pub struct Machine {
    pub name: u32,
    pub fields: Items<Field>,
    pub ops: Items<Operation>,
    pub invariants: Items<Invariant>,
    pub terms: Terms,
}
