//! Names as they stand in a text.

/// A name, by its number in the text's list of names, and the line where it stands.
#[derive(Clone, Copy, PartialEq, Eq, Debug)]
pub struct RawName {
    pub name: u32,
    pub line: u32,
}
