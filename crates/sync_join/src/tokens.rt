//! Tokens, bags of them, and what is kept beside the tokens.
ghost use Rattle.std.specs.Prelude.{◌≡◌, nat_eq};
ghost use Rattle.sync_join.specs.Shards.{perm};

use crate::values::Value;
use sqlite_items::Items;

/// The field of a permission.
pub const PERM: u32 = 4_294_967_295;

/// A token of a field, or a permission of a cell.
///
/// A permission has `PERM` as its field, the cell's number as its key and the cell's content as its value. Where the
/// strategy has no keys the key is 0; an element of a set has the value 1.
#[derive(Clone, Copy, PartialEq, Eq, Debug)]
pub struct Token {
    pub field: u32,
    pub key: i128,
    pub value: i128,
}

impl Token {
    /// Whether this is a permission of a cell.
    pub fn is_permission(self) -> bool
        ensures { result ≡ nat_eq self.field perm }
    {
        self.field == PERM
    }
}

/// A bag of tokens, in some order.
#[derive(Drop)]
pub struct Bag {
    pub tokens: Items<Token>,
}

/// What is kept beside the tokens: a record for each field, and the stored permissions, each with its storage field.
///
/// The records of constants, of fields without tokens and of persistent fields count; the others say nothing.
#[derive(Drop)]
pub struct Rest {
    pub records: Items<Value>,
    pub stored: Items<Token>,
}
