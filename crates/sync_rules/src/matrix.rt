//! The table of the statements that each strategy has.
ghost use Rattle.std.specs.Prelude.{◌≡◌, ◌<◌};
ghost use Rattle.sync_rules.specs.Strategies.{has_statement};
ghost use Rattle.sync_rules.specs.Matrix.{row_of, column_of, IsMatrix};

use crate::kinds::OpKind;
use sync_base::Table;
use sync_machine::Strategy;

/// Which strategy has which statement: 1 where it has it, else 0.
///
/// A row for each kind of statement, a column for each strategy, both in the order in which their types list them.
pub const MATRIX: Table<9, 13> = Table {
    rows: [
        [1, 1, 1, 1, 1, 1, 1, 1, 1, 1, 1, 1, 1],
        [1, 0, 1, 0, 0, 0, 0, 0, 0, 0, 0, 0, 0],
        [1, 0, 0, 0, 0, 0, 0, 0, 0, 0, 0, 0, 0],
        [0, 0, 0, 1, 1, 1, 1, 1, 1, 1, 1, 1, 0],
        [0, 0, 0, 1, 1, 1, 1, 1, 0, 0, 0, 0, 0],
        [0, 0, 0, 1, 1, 1, 1, 1, 1, 1, 1, 1, 0],
        [0, 0, 0, 0, 0, 0, 0, 0, 0, 0, 0, 0, 1],
        [0, 0, 0, 0, 0, 0, 0, 0, 0, 0, 0, 0, 1],
        [0, 0, 0, 0, 0, 0, 0, 0, 0, 0, 0, 0, 1],
    ],
};

/// Each entry of the table says whether the strategy has the statement. It does nothing, and its clause is proved.
pub fn matrix_is_exact()
    ensures { IsMatrix MATRIX.rows }
{}

/// Whether fields of a strategy have a kind of statement.
pub fn allowed(s: Strategy, o: OpKind) -> bool
    ensures { result ≡ has_statement s o }
{
    MATRIX.at(row(o), column(s)) == 1
}

/// The row of a kind of statement.
fn row(o: OpKind) -> usize
    ensures row { result ≡ row_of o }
    ensures bound { result < 9 }
{
    match o {
        OpKind::Init => 0,
        OpKind::Update => 1,
        OpKind::HaveVariable => 2,
        OpKind::Add => 3,
        OpKind::Remove => 4,
        OpKind::Have => 5,
        OpKind::Deposit => 6,
        OpKind::Withdraw => 7,
        OpKind::Guard => 8,
    }
}

/// The column of a strategy.
fn column(s: Strategy) -> usize
    ensures column { result ≡ column_of s }
    ensures bound { result < 13 }
{
    match s {
        Strategy::Variable => 0,
        Strategy::Constant => 1,
        Strategy::NotTokenized => 2,
        Strategy::Option => 3,
        Strategy::Map => 4,
        Strategy::Set => 5,
        Strategy::Multiset => 6,
        Strategy::Count => 7,
        Strategy::PersistentOption => 8,
        Strategy::PersistentMap => 9,
        Strategy::PersistentSet => 10,
        Strategy::PersistentCount => 11,
        Strategy::StorageMap => 12,
    }
}
