//! The tokens at hand, and what symbols stand for.
ghost use Rattle.std.specs.Prelude.{◌≡◌, ℕ, Option, Some, None, OnOk};
ghost use Rattle.sync_terms.specs.Stored.{Stored, tree, IsTerm};
ghost use Rattle.sync_terms.specs.Trees.{Tree};
ghost use Rattle.sync_typing.specs.Environments.{TokenTree};
ghost use Rattle.sync_typing.specs.Keeps.{renewed};
ghost use Rattle.sync_typing_places.specs.Hands.{held_said, token_at, token_tree, with_name, with_token, Begins, Holds, IsHandOf, IsTokenOf, IsWhole, MayName};

use std::alloc::Global;
use sync_base::NoMemory;
use sync_terms::{Sym, TermId};
use sync_typing_ledgers::Ledger;
use sync_typing_reading::say;

/// The number of names that a text may have; tokens with greater numbers are the permissions of the start.
const NAME_LIMIT: u32 = 1_048_576;

/// A token, with terms for its key and its value.
#[derive(Clone, Copy, PartialEq, Eq, Debug)]
pub struct Token {
    pub field: u32,
    pub key: TermId,
    pub value: TermId,
}

/// What symbols stand for, and the tokens at hand by their numbers.
///
/// `names` says what names and `held` of tokens stand for. An entry of `places` is the place of a token among
/// `tokens`, from 1, or 0 where the number has no token any more.
#[derive(Drop)]
pub struct Hand {
    pub(crate) names: Ledger,
    pub(crate) places: Ledger,
    pub(crate) tokens: Vec<Token>,
}

impl Hand {
    /// No symbol stands for anything, and no token is at hand.
    pub fn new(alloc: Global) -> Hand
        ensures holds { (s : Stored) → Holds s result (λ x. None) (λ n. None) }
        ensures whole { IsWhole result }
        ensures ids { (s : Stored) → IsHandOf s result }
    {
        Hand {
            names: Ledger::new(alloc),
            places: Ledger::new(alloc),
            tokens: Vec::new(alloc),
        }
    }

    /// What names stand for, and `held` of tokens.
    pub(crate) fn names(&self) -> &Ledger
        ensures { result.now ≡ self.now.names }
    {
        &self.names
    }

    /// The token of a number, if it is at hand.
    pub fn token(&self, number: u32) -> Option<Token>
        ensures { result ≡ token_at self.now number }
    {
        let Some(found) = self.places.find(number) else {
            return None;
        };
        if found.value == 0 || found.is_below {
            None
        } else {
            self.tokens.get(found.value as usize - 1).copied()
        }
    }

    /// A name, `old`, `new`, `wrap` or a constant stands for a term from now on.
    pub fn name_as(&mut self, symbol: Sym, term: TermId) -> Result<(), NoMemory>
        requires name { MayName symbol.0 }
        requires whole { IsWhole self.old }
        ensures holds { OnOk result ((s : Stored) (terms : ℕ → Option Tree) (hand : ℕ → Option TokenTree) →
            Holds s self.old terms hand → Holds s self.new (with_name symbol.0 (tree s term) terms) hand) }
        ensures whole { OnOk result (IsWhole self.new) }
        ensures ids { OnOk result ((s : Stored) → IsTerm s term → IsHandOf s self.old → IsHandOf s self.new) }
        ensures begins { OnOk result (Begins self.old self.new) }
    {
        say(&mut self.names, symbol, Some(term))
    }

    /// A token comes to the hand under a number.
    pub fn hold(&mut self, number: u32, token: Token) -> Result<(), NoMemory>
        requires whole { IsWhole self.old }
        ensures holds { OnOk result ((s : Stored) (terms : ℕ → Option Tree) (hand : ℕ → Option TokenTree) →
            Holds s self.old terms hand → Holds s self.new terms (with_token number (Some (token_tree s token)) hand)) }
        ensures whole { OnOk result (IsWhole self.new) }
        ensures ids { OnOk result ((s : Stored) → IsTokenOf s token → IsHandOf s self.old → IsHandOf s self.new) }
        ensures begins { OnOk result (Begins self.old self.new) }
    {
        let place = self.tokens.len();
        if place >= u32::MAX as usize {
            return Err(NoMemory);
        }
        self.tokens.push(token)?;
        self.places.push(number, place as u32 + 1)?;
        say_held(&mut self.names, number, Some(token.value))
    }

    /// The token of a number leaves the hand.
    pub fn let_go(&mut self, number: u32) -> Result<(), NoMemory>
        requires whole { IsWhole self.old }
        ensures holds { OnOk result ((s : Stored) (terms : ℕ → Option Tree) (hand : ℕ → Option TokenTree) →
            Holds s self.old terms hand → Holds s self.new terms (with_token number None hand)) }
        ensures whole { OnOk result (IsWhole self.new) }
        ensures ids { OnOk result ((s : Stored) → IsHandOf s self.old → IsHandOf s self.new) }
        ensures begins { OnOk result (Begins self.old self.new) }
    {
        self.places.push(number, 0)?;
        say_held(&mut self.names, number, None)
    }

    /// After a keep: names stand for themselves, fields and words of the language stay, and no token is at hand.
    pub fn renew(&mut self)
        requires whole { IsWhole self.old }
        ensures holds { (s : Stored) (terms : ℕ → Option Tree) (hand : ℕ → Option TokenTree) →
            Holds s self.old terms hand → Holds s self.new (renewed terms) (λ n. None) }
        ensures whole { IsWhole self.new }
        ensures ids { (s : Stored) → IsHandOf s self.old → IsHandOf s self.new }
        ensures begins { Begins self.old self.new }
    {
        self.names.raise_floor();
        self.places.raise_floor();
    }
}

/// Says what `held` of a token stands for; the permissions of the start have no such symbol.
fn say_held(names: &mut Ledger, number: u32, value: Option<TermId>) -> Result<(), NoMemory>
    ensures { OnOk result (names.new ≡ held_said number value names.old) }
{
    if number >= NAME_LIMIT {
        return Ok(());
    }
    say(names, Sym::of_name(number).held(), value)
}
