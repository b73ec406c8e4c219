//! What one holder has, and what it says and gets in an exchange.
ghost use Rattle.std.specs.Prelude.{◌≡◌, option_map, IfOk};
ghost use Rattle.sync_join.specs.declared.tokens.Token.{Token as Piece};
ghost use Rattle.sync_exchange.specs.declared.hands.XStop.TheVariants.{Memory};
ghost use Rattle.sync_exchange.specs.Outcomes.{stop_of};
ghost use Rattle.sync_exchange.specs.Exchange as exchanges;
ghost use Rattle.sync_exchange.specs.Splitting as splitting;
ghost use Rattle.sync_exchange.specs.Works.{revalued_as};

use sqlite_items::Items;
use std::alloc::{AllocError, AllocFailed, Global};
use sync_base::NoMemory;
use sync_exchange_values::EvalStop;
use sync_join::Token;

/// A token under a name of its holder.
#[derive(Clone, Copy, PartialEq, Eq, Debug)]
pub struct Held {
    pub name: u32,
    pub token: Token,
}

/// The tokens that one holder has, each under a name of its own.
#[derive(Drop)]
pub struct Hand {
    pub held: Items<Held>,
}

/// The names that an exchange uses, slot by slot: of tokens that are held, and of those that are given.
#[derive(Drop)]
pub struct Names {
    /// A name for each slot that changes, takes, reads or deposits a token.
    pub tokens: Items<u32>,
    /// A new name for each slot that gives a token or withdraws an object.
    pub given: Items<u32>,
}

/// The values of the names that an operation binds, in the order in which they are written.
#[derive(Drop)]
pub struct Bound {
    pub values: Items<i128>,
}

/// Why an exchange does not happen.
#[derive(Clone, Copy, PartialEq, Eq, Debug)]
pub enum XStop {
    /// The token that this slot names is not at hand, or an earlier slot took it. Slots are numbered from 0.
    Missing(u32),
    /// The token or the object at this slot is of another field, key or value than is asked.
    Differs(u32),
    /// The require at this line is false.
    RequireFalse(u32),
    /// The object that this slot asks for is not stored.
    StoreEmpty(u32),
    /// A number leaves signed 128 bits.
    Width,
    /// There is no memory.
    Memory,
}

impl From<NoMemory> for XStop {
    ghost from_gives = { λ _ e. e ≡ Memory };

    fn from(_e: NoMemory) -> XStop {
        XStop::Memory
    }
}

impl From<AllocError> for XStop {
    ghost from_gives = { λ _ e. e ≡ Memory };

    fn from(_e: AllocError) -> XStop {
        XStop::Memory
    }
}

impl<T: Drop> From<AllocFailed<T>> for XStop {
    ghost from_gives = { λ _ e. e ≡ Memory };

    fn from(_e: AllocFailed<T>) -> XStop {
        XStop::Memory
    }
}

impl From<EvalStop> for XStop {
    ghost from_gives = { λ e x. x ≡ stop_of e };

    fn from(e: EvalStop) -> XStop {
        match e {
            EvalStop::Width => XStop::Width,
            EvalStop::Memory => XStop::Memory,
        }
    }
}

/// The token of this name, the first one where there are several.
pub(crate) fn held_as(held: &[Held], name: u32) -> Option<Token>
    ensures { result ≡ exchanges.held_as name held.now }
{
    for h in held {
        if name == h.name {
            return Some(h.token);
        }
    }
    None
}

/// All but the tokens of this name.
pub(crate) fn without(alloc: Global, held: &[Held], name: u32) -> Result<Items<Held>, NoMemory>
    ensures { IfOk result (λ hs. hs ≡ exchanges.without name held.now) }
{
    let mut left = Items::new(alloc);
    for h in held {
        if name == h.name {
            continue;
        }
        left.push(*h)?;
    }
    Ok(left)
}

impl Held {
    /// A token like this one, with another name and another value.
    pub(crate) fn new(name: u32, token: Token, value: i128) -> Held
        ensures { result ≡ splitting.held name token value }
    {
        let token = Token { value, ..token };
        Held { name, token }
    }

    /// The token, with another value where it has this name.
    fn revalued(self, name: u32, value: i128) -> Held
        ensures { result ≡ revalued_as name value self }
    {
        if name == self.name {
            let token = Token {
                value,
                ..self.token
            };
            Held { token, ..self }
        } else {
            self
        }
    }
}

/// The tokens, where those of this name have another value.
pub(crate) fn revalued(
    alloc: Global,
    held: &[Held],
    name: u32,
    value: i128,
) -> Result<Items<Held>, NoMemory>
    ensures { IfOk result (λ hs. hs ≡ exchanges.revalued name value held.now) }
{
    let mut all = Items::new(alloc);
    for h in held {
        all.push(h.revalued(name, value))?;
    }
    Ok(all)
}

/// Whether an object is stored at a key.
fn is_at_place(t: Token, field: u32, key: i128) -> bool
    ensures { result ≡ exchanges.is_at_place field key t }
{
    field == t.field && key == t.key
}

/// The object that is stored at a key, the first one where there are several.
pub(crate) fn stored_at(stored: &[Token], field: u32, key: i128) -> Option<Token>
    ensures { option_map (λ (t : Piece). t.value) result ≡ exchanges.stored_at field key stored.now }
{
    for t in stored {
        if is_at_place(*t, field, key) {
            return Some(*t);
        }
    }
    None
}

/// All but the objects that are stored at a key.
pub(crate) fn withdrawn(
    alloc: Global,
    stored: &[Token],
    field: u32,
    key: i128,
) -> Result<Items<Token>, NoMemory>
    ensures { IfOk result (λ ts. ts ≡ exchanges.withdrawn field key stored.now) }
{
    let mut left = Items::new(alloc);
    for t in stored {
        if is_at_place(*t, field, key) {
            continue;
        }
        left.push(*t)?;
    }
    Ok(left)
}
