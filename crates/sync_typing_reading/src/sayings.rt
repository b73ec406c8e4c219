//! What symbols stand for, kept in a ledger: an entry is a term's number from 1, or 0 where nothing is said any more.
ghost use Rattle.std.specs.Prelude.{◌≡◌, ◌∷◌, OnOk, OnErr};
ghost use Rattle.sync_typing_reading.specs.Sayings.{entry_value, said_in};

use sync_base::NoMemory;
use sync_terms::{Sym, TermId};
use sync_typing_ledgers::Ledger;

/// What a symbol stands for.
#[derive(Clone, Copy, PartialEq, Eq, Debug)]
pub enum Saying {
    Nothing,
    Itself,
    Term(TermId),
}

/// Says that a symbol stands for a term from now on, or for nothing.
pub fn say(names: &mut Ledger, symbol: Sym, term: Option<TermId>) -> Result<(), NoMemory>
    ensures ok { OnOk result (names.new ≡
        record names.old { entries = record { key = symbol.0; value = entry_value term } ∷ names.old.entries }) }
    ensures err { OnErr result (names.new ≡ names.old) }
{
    let value = match term {
        None => 0,
        Some(TermId(u32::MAX)) => return Err(NoMemory),
        Some(id) => id.0 + 1,
    };
    names.push(symbol.0, value)
}

/// What a symbol stands for. Names of a thread that were said below the floor stand for themselves, and tokens whose
/// values were said there are gone.
pub fn said(names: &Ledger, symbol: Sym) -> Saying
    ensures { result ≡ said_in names.now symbol.0 }
{
    let Some(found) = names.find(symbol.0) else {
        return Saying::Nothing;
    };
    if found.value == 0 {
        Saying::Nothing
    } else if !found.is_below || symbol.0 < 64 {
        Saying::Term(TermId(found.value - 1))
    } else if symbol.0 % 4 == 2 {
        Saying::Nothing
    } else {
        Saying::Itself
    }
}
