//! The claims that an operation keeps the invariants.
ghost use Rattle.std.specs.Prelude.{◌≡◌, ◌<◌, ◌++◌, ℕ, List, map, Err, OnOk, IfOk};
ghost use Rattle.std.specs.List.{AllByRecursion};
ghost use Rattle.std.specs.HashSet.{contains};
ghost use Rattle.sync_base.specs.Outcome.{Passes};
ghost use Rattle.sync_terms.specs.Trees.{most_nodes};
ghost use Rattle.sync_terms.specs.Symbols.{dollar_symbol};
ghost use Rattle.sync_terms.specs.Stored.{Stored, Extends, IsForm, formula};
ghost use Rattle.sync_terms.specs.Trees.{Tree, formula_size};
ghost use Rattle.sync_machine.specs.Scope.{IsNameSymbol};
ghost use Rattle.sync_machine.specs.Views.{invariant_tree, operation_tree, symbols_of};
ghost use Rattle.sync_induct.specs.Books.{IsBook};
ghost use Rattle.sync_induct.specs.Titles.{same_title};
ghost use Rattle.sync_induct.specs.Checks.{duty_fault, checks_fault};
ghost use Rattle.sync_terms.specs.Proofs.{proofs_in};
ghost use Rattle.sync_induct.specs.Checklist.{AreShown, proves};
ghost use Rattle.sync_induct.specs.Closing.{HavePairs, IsKeepable, AreWanted, dollar_pair};
ghost use Rattle.sync_induct.specs.Closing as closing;
ghost use Rattle.sync_induct.specs.Duties.{IsProved, closed_form, kept_duty, keeps_duties};
ghost use Rattle.sync_induct.specs.Walks.{IsWalk, HasCome, known_of, values_of};

use crate::duties::{check_duty, too_large};
use crate::index::{Book, Title};
use crate::walks::Walk;
use std::alloc::Global;
use sync_base::{NoMemory, Stop, place_number};
use sync_machine::{Invariant, Operation};
use sync_rules::{Claim, Obligation};
use sync_terms::{FormId, Node, Sym, TermId, TermStop, Terms};

/// A symbol with the term that it is replaced by.
type Pair = (Sym, TermId);

/// Each field's symbol with the field's value.
fn field_pairs(alloc: Global, values: &[TermId]) -> Result<Vec<Pair>, NoMemory>
    ensures { IfOk result (λ v. v.items ≡ closing.field_pairs 0 values.now) }
{
    let mut pairs = Vec::new(alloc);
    for (i, value) in values.iter().enumerate() {
        pairs.push((Sym(place_number(i)?), *value))?;
    }
    Ok(pairs)
}

/// `$p` for the parameter p.
fn dollar(param: Sym) -> Sym
    requires { IsNameSymbol param.0 }
    ensures { result.0 ≡ dollar_symbol param.0 }
{
    param.dollar()
}

/// Adds `$p` for each parameter p.
fn add_dollars(terms: &mut Terms, pairs: &mut Vec<Pair>, params: &[Sym]) -> Result<(), NoMemory>
    requires { AllByRecursion IsNameSymbol (symbols_of params.now) }
    ensures pairs { (ps : List (ℕ × Tree)) → HavePairs terms.old pairs.old.items ps
        → OnOk result (HavePairs terms.new pairs.new.items (ps ++ map dollar_pair (symbols_of params.now))) }
    ensures keeps { Extends terms.old terms.new }
{
    for param in params {
        let Ok(term) = terms.add_term(Node::Name(dollar(*param))) else {
            return Err(NoMemory);
        };
        pairs.push((*param, term))?;
    }
    Ok(())
}

impl Walk {
    /// An invariant behind the operation: each field replaced by its last value, and each parameter p by `$p`.
    fn closed(
        &self,
        alloc: Global,
        terms: &mut Terms,
        invariant: &Invariant,
    ) -> Result<FormId, TermStop>
        requires walk { IsWalk terms.old self.now }
        requires invariant { IsKeepable terms.old invariant.now }
        ensures value { IfOk result (λ id. IsForm terms.new id
            × (formula terms.new id ≡ closed_form (values_of terms.old self.now)
            (invariant_tree terms.old invariant.now))) }
        ensures too_large { result ≡ Err TermStop.TooLarge
            → most_nodes < formula_size (closed_form (values_of terms.old self.now)
            (invariant_tree terms.old invariant.now)) }
        ensures keeps { Extends terms.old terms.new }
    {
        let mut pairs = field_pairs(alloc, self.current.as_slice())?;
        add_dollars(terms, &mut pairs, invariant.params.as_slice())?;
        terms.subst(invariant.form, pairs.as_slice())
    }

    /// Checks the obligation to keep an invariant, from what is known behind the statements.
    fn keep_one(
        &mut self,
        alloc: Global,
        terms: &mut Terms,
        invariant: &Invariant,
        obligation: Obligation,
        book: Book<'_>,
    ) -> Result<(), Stop>
        requires walk { IsWalk terms.old self.old }
        requires invariant { IsKeepable terms.old invariant.now }
        requires book { IsBook terms.old book }
        ensures exact { Passes result (duty_fault (proofs_in terms.old book.entry.proofs.now)
            (kept_duty obligation (known_of terms.old self.old) (values_of terms.old self.old)
            (invariant_tree terms.old invariant.now))) }
        ensures proved { OnOk result (IsProved (kept_duty obligation (known_of terms.old self.old)
            (values_of terms.old self.old) (invariant_tree terms.old invariant.now))) }
        ensures come { OnOk result (HasCome terms.new self.new (known_of terms.old self.old)
            (values_of terms.old self.old)) }
        ensures keeps { Extends terms.old terms.new }
    {
        match self.closed(alloc, terms, invariant) {
            Ok(claim) => check_duty(alloc, terms, &mut self.hyps, claim, book, obligation),
            Err(TermStop::TooLarge) => Err(too_large(book, obligation)),
            Err(TermStop::Memory) => Err(Stop::Memory),
        }
    }

    /// Checks that an operation keeps each invariant that it has to, from what is known behind its statements.
    pub fn keep(
        &mut self,
        alloc: Global,
        terms: &mut Terms,
        invariants: &[Invariant],
        op: u32,
        operation: &Operation,
        book: Book<'_>,
    ) -> Result<(), Stop>
        requires walk { IsWalk terms.old self.old }
        requires invariants { AllByRecursion (IsKeepable terms.old) invariants.now }
        requires wanted { AreWanted (contains same_title book.wanted.now) op (operation_tree terms.old operation.now)
            (map (invariant_tree terms.old) invariants.now) }
        requires book { IsBook terms.old book }
        ensures exact { Passes result (checks_fault (proofs_in terms.old book.entry.proofs.now)
            (proves (keeps_duties (operation_tree terms.old operation.now) op (known_of terms.old self.old)
            (values_of terms.old self.old) 0 (map (invariant_tree terms.old) invariants.now)))) }
        ensures shown { OnOk result (AreShown
            (proves (keeps_duties (operation_tree terms.old operation.now) op (known_of terms.old self.old)
            (values_of terms.old self.old) 0 (map (invariant_tree terms.old) invariants.now)))) }
        ensures keeps { Extends terms.old terms.new }
    {
        for (j, invariant) in invariants.iter().enumerate() {
            let claim = Claim::Keeps(place_number(j)?);
            if book.wanted.contains(&Title::new(op, claim)) {
                let obligation = Obligation {
                    op,
                    claim,
                    line: operation.line,
                };
                self.keep_one(alloc, terms, invariant, obligation, book)?;
            }
        }
        Ok(())
    }
}
