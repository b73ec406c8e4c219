//! What a text, a name and a number may be at most.

/// So many bytes of a text.
pub const LONGEST_TEXT: usize = 1_048_576;

/// So many bytes of a name.
pub const LONGEST_NAME: usize = 64;

/// The largest number of a text: 2^127 - 1.
pub const LARGEST: u128 = 170_141_183_460_469_231_731_687_303_715_884_105_727;
