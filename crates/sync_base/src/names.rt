//! The names that a text uses.
ghost use Rattle.std.specs.Prelude.{◌≡◌};
ghost use Rattle.sync_base.specs.Names.{spelling};

use sqlite_items::Items;

/// A spelling: the bytes of a name, 1 to 64 of them.
#[derive(Debug, Drop)]
pub struct Name {
    pub bytes: Items<u8>,
}

/// A text's names, each once, in the order in which they first appear. A name is known by its place here.
#[derive(Debug, Drop)]
pub struct NameList {
    pub list: Items<Name>,
}

impl NameList {
    /// How the name with this number is spelled: by no byte where there is none.
    pub fn spelling(&self, number: u32) -> &[u8]
        ensures { result.now ≡ spelling self.now number }
    {
        match self.list.get(number as usize) {
            Some(name) => name.bytes.as_slice(),
            None => &[],
        }
    }
}
