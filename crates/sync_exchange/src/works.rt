//! An exchange under way: what has been taken, given and written so far.
ghost use Rattle.std.specs.Prelude.{◌≡◌, ◌++◌, ◌∷◌, [], suc, drop, option_map, OnOk, IfOk};
ghost use Rattle.sync_terms.specs.declared.nodes.Sym.{Sym as Symbol};
ghost use Rattle.sync_join.specs.declared.tokens.Token.{Token as Piece};
ghost use Rattle.sync_exchange.specs.Exchange as exchanges;
ghost use Rattle.sync_exchange.specs.Exchange.{after_reading, after_taking, after_seeing, after_giving, knowing, binding, recording, storing, revaluing};
ghost use Rattle.sync_exchange.specs.Outcomes.{Gives};
ghost use Rattle.sync_exchange.specs.Works.{Base, base_of, under_way, variables_of, RecordsAs, WithdrawsAs};

use crate::cases::{Asked, Case};
use crate::changes::{Change, Recording};
use crate::hands::{Held, XStop, held_as, revalued, withdrawn, without};
use crate::scopes::Known;
use sqlite_items::Items;
use std::alloc::Global;
use sync_base::NoMemory;
use sync_join::{Token, Value};
use sync_terms::Sym;

/// A variable with the name of its token.
#[derive(Clone, Copy, PartialEq, Eq, Debug)]
pub(crate) struct Named {
    pub field: u32,
    pub name: u32,
}

/// An exchange under way.
#[derive(Drop)]
pub(crate) struct Work {
    /// What symbols have come to stand for.
    pub known: Items<Known>,
    /// The number of the next slot.
    pub slot: u32,
    /// How many names of tokens, and how many new names, the slots so far have used.
    pub tokens: u32,
    pub given: u32,
    pub variables: Items<Named>,
    /// The hand without what was taken, and the new tokens.
    pub hand: Items<Held>,
    pub entered: Items<Held>,
    /// What becomes of records, and the stored objects.
    pub changes: Items<Recording>,
    pub stored: Items<Token>,
    /// The values bound so far.
    pub bound: Items<i128>,
}

/// What an exchange leaves: the hand, the records that change, the stored objects, and the values bound.
#[derive(Drop)]
pub(crate) struct Finished {
    pub hand: Items<Held>,
    pub records: Items<Option<Value>>,
    pub stored: Items<Token>,
    pub bound: Items<i128>,
}

/// The name at a place, 0 where there is none.
fn name_at(names: &[u32], at: u32) -> u32
    ensures { result ≡ exchanges.next_name (drop at names.now) }
{
    match names.get(at as usize) {
        Some(name) => *name,
        None => 0,
    }
}

/// One more.
fn more(count: u32) -> Result<u32, NoMemory>
    ensures { IfOk result (λ n. n ≡ suc count) }
{
    match count.checked_add(1) {
        Some(n) => Ok(n),
        None => Err(NoMemory),
    }
}

/// The name of a variable's token.
fn token_name(variables: &[Named], field: u32) -> Option<u32>
    ensures { result ≡ exchanges.token_name field (variables_of variables.now) }
{
    let mut name = None;
    for v in variables {
        if field == v.field {
            name = Some(v.name);
        }
    }
    name
}

impl Work {
    /// The token that the next slot names.
    pub(crate) fn named(&self, case: &Case<'_>) -> Result<Token, XStop>
        ensures { Gives (λ (t : Piece). t) result (exchanges.named (under_way (base_of case.now) self.now)) }
    {
        match held_as(self.hand.as_slice(), name_at(case.tokens, self.tokens)) {
            Some(token) => Ok(token),
            None => Err(XStop::Missing(self.slot)),
        }
    }

    /// The name that the next slot says.
    pub(crate) fn token_name(&self, case: &Case<'_>) -> u32
        ensures { result ≡ exchanges.next_name (under_way (base_of case.now) self.now).tokens }
    {
        name_at(case.tokens, self.tokens)
    }

    /// The new name that the next slot gives.
    pub(crate) fn given_name(&self, case: &Case<'_>) -> u32
        ensures { result ≡ exchanges.next_name (under_way (base_of case.now) self.now).given }
    {
        name_at(case.given, self.given)
    }

    /// The next slot has used a token's name, and left the token where it is.
    pub(crate) fn read(&mut self) -> Result<(), NoMemory>
        ensures { (b : Base) → OnOk result (under_way b self.new ≡ after_reading (under_way b self.old)) }
    {
        self.slot = more(self.slot)?;
        self.tokens = more(self.tokens)?;
        Ok(())
    }

    /// The next slot has taken its token out of the hand.
    pub(crate) fn take(&mut self, case: &Case<'_>) -> Result<(), NoMemory>
        ensures { OnOk result (under_way (base_of case.now) self.new ≡ after_taking (under_way (base_of case.now) self.old)) }
    {
        let name = self.token_name(case);
        self.hand = without(case.alloc, self.hand.as_slice(), name)?;
        self.slot = more(self.slot)?;
        self.tokens = more(self.tokens)?;
        Ok(())
    }

    /// The next slot has looked at a stored object.
    pub(crate) fn see(&mut self) -> Result<(), NoMemory>
        ensures { (b : Base) → OnOk result (under_way b self.new ≡ after_seeing (under_way b self.old)) }
    {
        self.slot = more(self.slot)?;
        Ok(())
    }

    /// The next slot has given a token under its new name.
    pub(crate) fn give(&mut self, case: &Case<'_>, token: Token) -> Result<(), NoMemory>
        ensures { OnOk result (under_way (base_of case.now) self.new ≡ after_giving token (under_way (base_of case.now) self.old)) }
    {
        let name = self.given_name(case);
        self.entered.push(Held { name, token })?;
        self.slot = more(self.slot)?;
        self.given = more(self.given)?;
        Ok(())
    }

    /// A field's symbol stands for the number of its token, which has this name.
    pub(crate) fn know(&mut self, field: u32, name: u32, token: Token) -> Result<(), NoMemory>
        ensures { (b : Base) → OnOk result (under_way b self.new ≡ knowing field name token.value (under_way b self.old)) }
    {
        self.known.push(Known {
            symbol: field,
            number: token.value,
        })?;
        self.variables.push(Named { field, name })?;
        Ok(())
    }

    /// A new name is bound to the value of a token or an object, where there is one.
    pub(crate) fn bind(&mut self, name: Option<Sym>, token: Token) -> Result<(), NoMemory>
        ensures { (b : Base) → OnOk result (under_way b self.new ≡ binding (option_map (λ (x : Symbol). x.0) name) token.value (under_way b self.old)) }
    {
        if let Some(symbol) = name {
            self.known.push(Known {
                symbol: symbol.0,
                number: token.value,
            })?;
            self.bound.push(token.value)?;
        }
        Ok(())
    }

    /// A field has another record.
    pub(crate) fn record(&mut self, field: u32, change: Change) -> Result<(), NoMemory>
        ensures { (b : Base) → RecordsAs result b field change self.old self.new }
    {
        self.changes.push(Recording { field, change })?;
        Ok(())
    }

    /// An object is stored.
    pub(crate) fn store(&mut self, token: Token) -> Result<(), NoMemory>
        ensures { (b : Base) → OnOk result (under_way b self.new ≡ storing ((under_way b self.old).kept.stored ++ token ∷ []) (under_way b self.old)) }
    {
        self.stored.push(token)?;
        Ok(())
    }

    /// The object at a key is no longer stored.
    pub(crate) fn withdraw(
        &mut self,
        case: &Case<'_>,
        field: u32,
        asked: Asked,
    ) -> Result<(), NoMemory>
        ensures { (b : Base) → WithdrawsAs result b field asked.key self.old self.new }
    {
        self.stored = withdrawn(case.alloc, self.stored.as_slice(), field, asked.key)?;
        Ok(())
    }

    /// A variable's token has another value, be it held or new.
    pub(crate) fn revalue(
        &mut self,
        case: &Case<'_>,
        field: u32,
        number: i128,
    ) -> Result<(), NoMemory>
        ensures { (b : Base) → OnOk result (under_way b self.new ≡ revaluing field number (under_way b self.old)) }
    {
        if let Some(name) = token_name(self.variables.as_slice(), field) {
            self.hand = revalued(case.alloc, self.hand.as_slice(), name, number)?;
            self.entered = revalued(case.alloc, self.entered.as_slice(), name, number)?;
        }
        Ok(())
    }
}
