//! Slots, and what happens in them.
ghost use Rattle.std.specs.Prelude.{◌≡◌};
ghost use Rattle.sync_terms.specs.Stored.{Stored, IsTerm, tree};
ghost use Rattle.sync_machine.specs.Views.{place_tree, HasPlaceIds};
ghost use Rattle.sync_rules.specs.Slots.{place_slot, value_slot, read_slot};
ghost use Rattle.sync_rules.specs.Views.{slot_tree, HasSlotIds};

use sync_machine::{Pattern, Place};
use sync_terms::TermId;

/// What happens to a token, or to a stored object.
#[derive(Clone, Copy, PartialEq, Eq, Hash, Debug)]
pub enum Role {
    /// A token keeps its place and gets a new value.
    Change,
    /// A token is taken away.
    Taken,
    /// A token is shown, and stays.
    Read,
    /// A new token is given.
    Given,
    /// A permission is stored.
    In,
    /// A stored permission is handed out.
    Out,
    /// A stored permission is shown, and stays.
    Seen,
}

/// A slot: what happens to a token or an object of a field, with the key and the value that its statement writes.
///
/// The value of a `Change` is the new one. A token that is read for its value alone has none. The line is that of
/// the statement that makes the slot.
#[derive(Clone, Copy, PartialEq, Eq, Debug)]
pub struct Slot {
    pub role: Role,
    pub field: u32,
    pub key: Option<TermId>,
    pub value: Option<Pattern>,
    pub line: u32,
}

impl Slot {
    /// The slot of a statement with a place.
    pub(crate) fn of_place(role: Role, field: u32, place: Place, line: u32) -> Slot
        ensures tree { (s : Stored) → slot_tree s result ≡ place_slot role field (place_tree s place) line }
        ensures ids { (s : Stored) → HasPlaceIds s place → HasSlotIds s result }
    {
        Slot {
            role,
            field,
            key: place.key,
            value: place.value,
            line,
        }
    }

    /// The slot of a statement that writes a value alone.
    pub(crate) fn of_value(role: Role, field: u32, value: TermId, line: u32) -> Slot
        ensures tree { (s : Stored) → slot_tree s result ≡ value_slot role field (tree s value) line }
        ensures ids { (s : Stored) → IsTerm s value → HasSlotIds s result }
    {
        Slot {
            role,
            field,
            key: None,
            value: Some(Pattern::Term(value)),
            line,
        }
    }

    /// The slot of a variable that is only read.
    pub(crate) fn of_read(field: u32, line: u32) -> Slot
        ensures tree { (s : Stored) → slot_tree s result ≡ read_slot field line }
        ensures ids { (s : Stored) → HasSlotIds s result }
    {
        Slot {
            role: Role::Read,
            field,
            key: None,
            value: None,
            line,
        }
    }
}
