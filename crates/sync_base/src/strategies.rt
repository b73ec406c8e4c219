//! Strategies by which fields are sharded, and the kinds of operations.

/// How a field is sharded into tokens.
#[derive(Clone, Copy, PartialEq, Eq, Hash, Debug)]
pub enum Strategy {
    /// A number in exactly one token.
    Variable,
    /// A number that never changes and that everyone may read.
    Constant,
    /// A number that no token stands for.
    NotTokenized,
    /// At most one token, with a value.
    Option,
    /// A token for each key, with a value.
    Map,
    /// A token for each element.
    Set,
    /// Tokens of elements that may repeat.
    Multiset,
    /// Tokens of amounts that add up.
    Count,
    /// A value that, once set, is never taken back.
    PersistentOption,
    /// Keys with values that are never taken back.
    PersistentMap,
    /// Elements that are never taken back.
    PersistentSet,
    /// A high-water mark.
    PersistentCount,
    /// Objects that are stored under keys.
    StorageMap,
}

/// The kind of an operation.
#[derive(Clone, Copy, PartialEq, Eq, Hash, Debug)]
pub enum OpMode {
    Init,
    Transition,
    Property,
}
