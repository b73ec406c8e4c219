//! The kinds of statements that operate on a field.

/// What a statement does with its field.
#[derive(Clone, Copy, PartialEq, Eq, Debug)]
pub enum OpKind {
    Init,
    Update,
    HaveVariable,
    Add,
    Remove,
    Have,
    Deposit,
    Withdraw,
    Guard,
}
