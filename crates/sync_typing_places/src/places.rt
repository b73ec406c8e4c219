//! What is known at a place of a thread: what symbols stand for, the tokens at hand, and the facts.
ghost use Rattle.std.specs.Prelude.{◌≡◌, ◌<◌, ◌≤◌, OnOk, IfSome, Some, pos, [], ◌∷◌, None, option_map, length, map};
ghost use Rattle.std.specs.List.{All};
ghost use Rattle.sync_terms.specs.Stored.{tree, formula, IsForm, IsTerm, Extends, Stored};
ghost use Rattle.sync_kernel.specs.Hypotheses.{known_in};
ghost use Rattle.sync_kernel_facts.specs.Facts.{named};
ghost use Rattle.sync_rules.specs.Locality.{form_names_only, names_only};
ghost use Rattle.sync_thread.specs.Arrays.{name_limit};
ghost use Rattle.sync_typing.specs.Environments.{assign, bind, hand_after, is_at_hand, is_held, know, name_as, read, read_form, use_up, Env};
ghost use Rattle.sync_thread_machine.specs.ProgramSymbols.{first_fresh};
ghost use Rattle.sync_terms.specs.Trees.{Le, Lit};
ghost use Rattle.sync_typing_places.specs.Hands.{token_tree, with_token, Begins, IsTokenOf, MayName};
ghost use Rattle.sync_typing_places.specs.Places.{env_of, named_tokens, with_hand, Becomes, Follows, GoOn, IsMarkAt, IsOwn, MakesBounds, MakesForm, MakesTerm, Stays};

use crate::dues::{form_made, literal, made};
use crate::hands::{Hand, Token};
use crate::marks::Mark;
use sqlite_items::Items;
use std::alloc::Global;
use sync_base::{NoMemory, Stop};
use sync_kernel::Hypotheses;
use sync_kernel_facts::Hyp;
use sync_terms::{FormId, FormNode, HypName, Sym, TermId, Terms, building};

/// What is known at a place: what symbols stand for and the tokens at hand, the facts, and the first symbol that is free.
#[derive(Drop)]
pub struct Place {
    pub(crate) alloc: Global,
    pub(crate) hand: Hand,
    pub(crate) known: Hypotheses,
    pub(crate) fresh: u32,
}

/// How far a place was, so that what came after can be taken back.
#[derive(Clone, Copy)]
pub struct PlaceMark {
    hand: Mark,
    facts: usize,
    fresh: u32,
}

/// A token under its number.
#[derive(Clone, Copy, PartialEq, Eq, Debug)]
pub struct NamedToken {
    pub number: u32,
    pub token: Token,
}

/// That a term is not below 0, and not above a bound.
#[derive(Clone, Copy)]
pub(crate) struct Bounds {
    pub low: FormId,
    pub high: FormId,
}

/// That a term is not below 0, made at a line.
fn low_made(terms: &mut Terms, line: u32, term: TermId) -> Result<FormId, Stop>
    requires term { IsTerm terms.old term }
    ensures made { MakesForm terms.new line (Le (Lit (pos 0)) (tree terms.old term)) result }
    ensures keeps { Extends terms.old terms.new }
{
    let zero = literal(terms, 0)?;
    form_made(line, building::form(terms, FormNode::Le(zero, term)))
}

/// That a term is not above a number, made at a line.
fn high_made(terms: &mut Terms, line: u32, term: TermId, number: i128) -> Result<FormId, Stop>
    requires term { IsTerm terms.old term }
    ensures made { MakesForm terms.new line (Le (tree terms.old term) (Lit number)) result }
    ensures keeps { Extends terms.old terms.new }
{
    let limit = literal(terms, number)?;
    form_made(line, building::form(terms, FormNode::Le(term, limit)))
}

/// The bounds of a term, made at a line.
pub(crate) fn bounds_made(
    terms: &mut Terms,
    line: u32,
    term: TermId,
    high: u64,
) -> Result<Bounds, Stop>
    requires term { IsTerm terms.old term }
    ensures made { MakesBounds terms.new line (tree terms.old term) (pos high) result }
    ensures keeps { Extends terms.old terms.new }
{
    let low = low_made(terms, line, term)?;
    let high = high_made(terms, line, term, high as i128)?;
    Ok(Bounds { low, high })
}

impl Place {
    /// Nothing is known, and no token is at hand.
    pub fn new(alloc: Global) -> Place
        ensures own { (s : Stored) → IsOwn s result }
        ensures env { (s : Stored) → env_of s result ≡ record { terms = λ x. None; hand = λ n. None; facts = []; fresh = first_fresh } }
    {
        Place {
            alloc,
            hand: Hand::new(alloc),
            known: Hypotheses::new(alloc),
            fresh: 64 + 4 * 1_048_576,
        }
    }

    // ---- terms

    /// Whether the names and tokens that a term names are at hand. Takes time in the size of its tree.
    pub fn has_names(&self, terms: &Terms, id: TermId) -> bool
        requires own { IsOwn terms.now self.now }
        requires term { IsTerm terms.now id }
        ensures { result ≡ names_only (is_at_hand (env_of terms.now self.now)) (tree terms.now id) }
    {
        self.hand.has_names(terms, id)
    }

    /// Whether the names and tokens that a formula names are at hand. Takes time in the size of its tree.
    pub fn has_names_of(&self, terms: &Terms, id: FormId) -> bool
        requires own { IsOwn terms.now self.now }
        requires form { IsForm terms.now id }
        ensures { result ≡ form_names_only (is_at_hand (env_of terms.now self.now)) (formula terms.now id) }
    {
        self.hand.has_names_of(terms, id)
    }

    /// A term with what its symbols stand for here, made at a line. Takes time in the size of its tree.
    pub fn read(&self, terms: &mut Terms, line: u32, id: TermId) -> Result<TermId, Stop>
        requires own { IsOwn terms.old self.now }
        requires term { IsTerm terms.old id }
        ensures made { MakesTerm terms.new line (read (env_of terms.old self.now) (tree terms.old id)) result }
        ensures keeps { Extends terms.old terms.new }
        ensures stays { Stays terms.old terms.new self.now }
    {
        made(line, self.hand.read_term(terms, id))
    }

    /// A formula with what its symbols stand for here, made at a line. Takes time in the size of its tree.
    pub fn read_form(&self, terms: &mut Terms, line: u32, id: FormId) -> Result<FormId, Stop>
        requires own { IsOwn terms.old self.now }
        requires form { IsForm terms.old id }
        ensures made { MakesForm terms.new line (read_form (env_of terms.old self.now) (formula terms.old id)) result }
        ensures keeps { Extends terms.old terms.new }
        ensures stays { Stays terms.old terms.new self.now }
    {
        form_made(line, self.hand.read_form(terms, id))
    }

    // ---- names and symbols

    /// The first symbol that is free.
    pub fn fresh(&self) -> u32
        ensures { (s : Stored) → result ≡ (env_of s self.now).fresh }
    {
        self.fresh
    }

    /// So many free symbols are used.
    pub fn use_up(&mut self, terms: &Terms, count: u32) -> Result<(), NoMemory>
        requires own { IsOwn terms.now self.old }
        ensures { OnOk result (Becomes terms.now terms.now self.old self.new (use_up count (env_of terms.now self.old))) }
    {
        match self.fresh.checked_add(count) {
            Some(fresh) => {
                self.fresh = fresh;
                Ok(())
            }
            None => Err(NoMemory),
        }
    }

    /// A name, `old`, `new`, `wrap` or a constant stands for a term from now on.
    pub fn name_as(&mut self, terms: &Terms, symbol: Sym, term: TermId) -> Result<(), NoMemory>
        requires own { IsOwn terms.now self.old }
        requires name { MayName symbol.0 }
        requires term { IsTerm terms.now term }
        ensures { OnOk result (Becomes terms.now terms.now self.old self.new
            (name_as symbol.0 (tree terms.now term) (env_of terms.now self.old))) }
    {
        self.hand.name_as(symbol, term)
    }

    // ---- tokens

    /// The token of a number, if it is at hand.
    pub fn token(&self, number: u32) -> Option<Token>
        ensures token { (s : Stored) → option_map (token_tree s) result ≡ (env_of s self.now).hand number }
        ensures ids { (s : Stored) → IsOwn s self.now → IfSome result (IsTokenOf s) }
    {
        self.hand.token(number)
    }

    /// Whether a token is at hand.
    pub fn is_held(&self, number: u32) -> bool
        ensures { (s : Stored) → result ≡ is_held (env_of s self.now) number }
    {
        self.token(number).is_some()
    }

    /// The token of a number leaves the hand.
    pub fn let_go(&mut self, terms: &Terms, number: u32) -> Result<(), NoMemory>
        requires own { IsOwn terms.now self.old }
        ensures { OnOk result (Becomes terms.now terms.now self.old self.new
            (with_hand (env_of terms.now self.old) (env_of terms.now self.old).terms (with_token number None (env_of terms.now self.old).hand))) }
    {
        self.hand.let_go(number)
    }

    /// A token comes to the hand under a number.
    pub fn hold(&mut self, terms: &Terms, number: u32, token: Token) -> Result<(), NoMemory>
        requires own { IsOwn terms.now self.old }
        requires token { IsTokenOf terms.now token }
        ensures { OnOk result (Becomes terms.now terms.now self.old self.new
            (with_hand (env_of terms.now self.old) (env_of terms.now self.old).terms
            (with_token number (Some (token_tree terms.now token)) (env_of terms.now self.old).hand))) }
    {
        self.hand.hold(number, token)
    }

    /// Tokens of some numbers leave the hand, and then others enter it. Of two with one number the first stays.
    pub fn take_in(
        &mut self,
        terms: &Terms,
        gone: &[u32],
        new: &[NamedToken],
    ) -> Result<(), NoMemory>
        requires own { IsOwn terms.now self.old }
        requires tokens { All (λ n. IsTokenOf terms.now n.token) new.now }
        ensures { OnOk result (Becomes terms.now terms.now self.old self.new
            (with_hand (env_of terms.now self.old) (env_of terms.now self.old).terms
            (hand_after gone.now (named_tokens terms.now new.now) (env_of terms.now self.old).hand))) }
    {
        for number in gone {
            self.let_go(terms, *number)?;
        }
        for i in (0..new.len()).rev() {
            let named = new[i];
            self.hold(terms, named.number, named.token)?;
        }
        Ok(())
    }

    // ---- facts

    /// A fact comes to what is known, under a label.
    pub fn tell(&mut self, terms: &Terms, label: u32, form: FormId) -> Result<(), NoMemory>
        requires own { IsOwn terms.now self.old }
        requires form { IsForm terms.now form }
        ensures { OnOk result (Becomes terms.now terms.now self.old self.new
            (know (named label (formula terms.now form) ∷ []) (env_of terms.now self.old))) }
    {
        self.learn(terms, HypName::Label(label), form)
    }

    /// A fact comes to what is known.
    pub(crate) fn learn(
        &mut self,
        terms: &Terms,
        name: HypName,
        form: FormId,
    ) -> Result<(), NoMemory>
        requires own { IsOwn terms.now self.old }
        requires form { IsForm terms.now form }
        ensures { OnOk result (Becomes terms.now terms.now self.old self.new
            (know (record { name = name; params = []; form = formula terms.now form } ∷ []) (env_of terms.now self.old))) }
    {
        let params = Items::new(self.alloc);
        self.known.push(terms, Hyp { name, params, form })?;
        Ok(())
    }

    /// A symbol comes to stand for a number from 0 to a bound, at a line.
    pub fn bind(
        &mut self,
        terms: &mut Terms,
        line: u32,
        symbol: Sym,
        term: TermId,
        high: u64,
    ) -> Result<(), Stop>
        requires own { IsOwn terms.old self.old }
        requires name { MayName symbol.0 }
        requires term { IsTerm terms.old term }
        ensures follows { Follows terms.old terms.new self.old self.new result
            (bind line symbol.0 (tree terms.old term) (pos high) (env_of terms.old self.old)) }
        ensures keeps { Extends terms.old terms.new }
    {
        let bounds = bounds_made(terms, line, term, high)?;
        self.name_as(terms, symbol, term)?;
        self.learn(terms, HypName::Low(symbol.0), bounds.low)?;
        self.learn(terms, HypName::High(symbol.0), bounds.high)?;
        Ok(())
    }

    /// A local comes to stand for a term, at a line.
    pub fn assign(
        &mut self,
        terms: &mut Terms,
        line: u32,
        name: u32,
        term: TermId,
    ) -> Result<(), Stop>
        requires own { IsOwn terms.old self.old }
        requires name { name < name_limit }
        requires term { IsTerm terms.old term }
        ensures follows { Follows terms.old terms.new self.old self.new result
            (assign line name (tree terms.old term) (env_of terms.old self.old)) }
        ensures keeps { Extends terms.old terms.new }
    {
        self.bind(terms, line, Sym::of_name(name), term, u64::MAX)
    }

    // ---- marks and keeps

    /// How far the place is.
    pub fn mark(&self) -> PlaceMark
        ensures { IsMarkAt self.now result }
    {
        PlaceMark {
            hand: self.hand.mark(),
            facts: self.known.len(),
            fresh: self.fresh,
        }
    }

    /// Takes back what came after a mark. It costs as much as came.
    pub fn undo(&mut self, mark: PlaceMark)
        ensures { (s t : Stored) (before : Place) → IsOwn s before → IsMarkAt before mark → Extends s t → IsOwn t self.old →
            Begins before.hand self.old.hand → GoOn (known_in s before.known) (known_in t self.old.known) →
            Becomes s t before self.new (env_of s before) }
    {
        self.hand.undo(mark.hand);
        self.known.cut_back(mark.facts);
        self.fresh = mark.fresh;
    }
}
