//! The line of a stored term.
ghost use Rattle.std.specs.Prelude.{◌≡◌, ◌<◌, length, IfOk, OnOk, IsTrue, Err};
ghost use Rattle.sync_terms.specs.Stored.{tree, IsTerm};
ghost use Rattle.sync_linear.specs.declared.stops.LinearStop.TheVariants.{Width};
ghost use Rattle.sync_linear.specs.Forms.{Narrow};
ghost use Rattle.sync_terms.specs.Trees.{Tree};
ghost use Rattle.sync_linear.specs.Leaves.{leaf_line};
ghost use Rattle.sync_linear.specs.Stores.{IsLineOf, joined, JoinFits};
ghost use Rattle.sync_linear.specs.Parts.{IsPartOf, IsTaken, TakesFrom, EndInSigns, IsPut};

use crate::changes::Change;
use crate::leaves::Leaf;
use crate::lines::Linear;
use crate::stops::LinearStop;
use std::alloc::{AllocError, Global};
use sync_terms::{Node, TermId, Terms};

/// What is done with the line of the operand that is walked; the other operand's id stands with it.
#[derive(Clone, Copy, Debug)]
pub(crate) enum Rest {
    /// The second operand is added to it.
    Plus(TermId),
    /// The second operand is taken from it.
    Minus(TermId),
    /// So many times it is taken.
    Times(i128),
    /// It is added to the first operand, a leaf.
    AddedTo(TermId),
    /// It is taken from the first operand, a leaf.
    TakenFrom(TermId),
    /// It is taken from 0, as a sign does.
    Opposite,
}

/// The operand of a term that is walked, under what is done with its line; or a leaf that has the term's line.
#[derive(Clone, Copy, Debug)]
pub(crate) enum Part {
    Under(Rest, TermId),
    Alone(Leaf),
}

/// What a term's own node makes of it.
#[tactic(auto, unfolding(sync_terms::specs::Stored::shape, sync_terms::specs::Stored::tree))]
fn node_part(terms: &Terms, t: TermId) -> Part
    requires { IsTerm terms.now t }
    ensures { IsPartOf terms.now t result }
{
    match terms.term(t) {
        Node::Add(a, b) => Part::Under(Rest::Plus(b), a),
        Node::Sub(a, b) => Part::Under(Rest::Minus(b), a),
        Node::Scale(times, a) => Part::Under(Rest::Times(times), a),
        Node::Lit(number) => Part::Alone(Leaf::Number(number)),
        Node::Name(_) | Node::Get(_, _) | Node::Has(_, _) | Node::Size(_) | Node::Sum(_) => {
            Part::Alone(Leaf::Atom(t.0, 1))
        }
        Node::Nil | Node::Put(_, _, _) | Node::Del(_, _) | Node::Bump(_, _, _) => {
            Part::Alone(Leaf::Number(0))
        }
    }
}

/// As `node_part`, but a multiple of a leaf is a leaf where it stays within signed 128 bits.
fn part_of(terms: &Terms, t: TermId) -> Part
    requires { IsTerm terms.now t }
    ensures { IsPartOf terms.now t result }
{
    let part = node_part(terms, t);
    let Part::Under(rest, first) = part else {
        return part;
    };
    let Rest::Times(times) = rest else {
        return part;
    };
    let Part::Alone(leaf) = node_part(terms, first) else {
        return part;
    };
    match leaf.scaled(times) {
        Some(leaf) => Part::Alone(leaf),
        None => part,
    }
}

/// Whether a leaf has the term's line.
fn is_leaf(terms: &Terms, t: TermId) -> bool
    requires { IsTerm terms.now t }
{
    matches!(part_of(terms, t), Part::Alone(_))
}

/// What is done with the line of a second operand that is taken from the first.
#[tactic(auto, unfolding(sync_terms::specs::Stored::shape, sync_terms::specs::Stored::tree))]
fn taken_from(terms: &Terms, first: TermId) -> Rest
    requires { IsTerm terms.now first }
    ensures { TakesFrom terms.now first result }
{
    match terms.term(first) {
        Node::Lit(0) => Rest::Opposite,
        _ => Rest::TakenFrom(first),
    }
}

/// As `part_of`, but of a sum or a difference the second operand is walked where only the first is a leaf.
fn step_of(terms: &Terms, t: TermId) -> Part
    requires { IsTerm terms.now t }
    ensures { IsPartOf terms.now t result }
{
    let part = part_of(terms, t);
    match part {
        Part::Under(Rest::Plus(second), first) => {
            if is_leaf(terms, first) && !is_leaf(terms, second) {
                return Part::Under(Rest::AddedTo(first), second);
            }
        }
        Part::Under(Rest::Minus(second), first) => {
            if is_leaf(terms, first) && !is_leaf(terms, second) {
                return Part::Under(taken_from(terms, first), second);
            }
        }
        _ => {}
    }
    part
}

/// The rests of the operands that are walked, outermost first, and the innermost operand's leaf.
#[derive(Debug, Drop)]
pub(crate) struct Taken {
    rests: Vec<Rest>,
    leaf: Leaf,
}

/// Whether the last two rests are signs.
fn end_in_signs(rests: &[Rest]) -> bool
    ensures { IsTrue result → EndInSigns rests.now }
{
    let len = rests.len();
    len >= 2 && matches!(rests[len - 1], Rest::Opposite) && matches!(rests[len - 2], Rest::Opposite)
}

/// Puts a rest behind the others. A third sign takes the second away: one sign has the line of three, and is within
/// signed 128 bits where they are.
fn put(rests: &mut Vec<Rest>, rest: Rest) -> Result<(), AllocError>
    ensures { OnOk result (IsPut rests.old.items rest rests.new.items) }
{
    if let Rest::Opposite = rest {
        if end_in_signs(rests.as_slice()) {
            rests.truncate(rests.len() - 1);
            return Ok(());
        }
    }
    rests.push(rest)?;
    Ok(())
}

fn taken_apart(alloc: Global, terms: &Terms, t: TermId) -> Result<Taken, LinearStop>
    requires { IsTerm terms.now t }
    ensures taken { IfOk result (λ taken. IsTaken terms.now t taken.rests.items (leaf_line taken.leaf)) }
    ensures memory { result ≡ Err Width → ⊥ }
{
    let mut rests = Vec::new(alloc);
    let mut at = t;
    loop {
        match step_of(terms, at) {
            Part::Under(rest, walked) => {
                put(&mut rests, rest)?;
                at = walked;
            }
            Part::Alone(leaf) => return Ok(Taken { rests, leaf }),
        }
    }
}

impl Linear {
    /// The line of a stored term of a number; that of another term is 0.
    ///
    /// `Width` comes exactly where a constant or a coefficient of the term or of a part of it, from the leaves upward,
    /// leaves signed 128 bits. A chain of first operands costs its length times a logarithm. Calls nest only where
    /// neither operand of a sum or a difference is a leaf.
    #[cycle(terms)]
    pub fn of_term(alloc: Global, terms: &Terms, t: TermId) -> Result<Linear, LinearStop>
        requires { IsTerm terms.now t }
        ensures line { IfOk result (λ line. IsLineOf terms.now (tree terms.now t) line) }
        ensures narrow { OnOk result (Narrow (tree terms.now t)) }
        ensures width { result ≡ Err Width → Narrow (tree terms.now t) → ⊥ }
    {
        let Taken { mut rests, leaf } = taken_apart(alloc, terms, t)?;
        let mut line = Linear::of_leaf(alloc, leaf)?;
        while let Some(rest) = rests.pop() {
            line = match rest {
                Rest::Plus(second) => line.changed_by(alloc, terms, Change::Plus, second)?,
                Rest::Minus(second) => line.changed_by(alloc, terms, Change::Minus, second)?,
                Rest::Times(times) => line.scaled(times)?,
                Rest::AddedTo(first) => line.changed_by(alloc, terms, Change::Plus, first)?,
                Rest::TakenFrom(first) => {
                    let first = Linear::of_term(alloc, terms, first)?;
                    first.changed(Change::Minus, &line)?
                }
                Rest::Opposite => Linear::zero(alloc).changed(Change::Minus, &line)?,
            };
        }
        Ok(line)
    }

    /// This line, changed by that of a stored term. A leaf changes it without a line of its own.
    #[cycle(terms)]
    fn changed_by(
        self,
        alloc: Global,
        terms: &Terms,
        how: Change,
        second: TermId,
    ) -> Result<Linear, LinearStop>
        requires { IsTerm terms.now second }
        ensures line { IfOk result (λ line. (first : Tree) → IsLineOf terms.now first self
            → IsLineOf terms.now (joined how first (tree terms.now second)) line) }
        ensures fits { OnOk result ((first : Tree) → IsLineOf terms.now first self
            → JoinFits how first (tree terms.now second)) }
        ensures narrow { OnOk result (Narrow (tree terms.now second)) }
        ensures width { result ≡ Err Width → (first : Tree) → IsLineOf terms.now first self
            → JoinFits how first (tree terms.now second) → Narrow (tree terms.now second) → ⊥ }
    {
        match part_of(terms, second) {
            Part::Alone(leaf) => self.changed_by_leaf(how, leaf),
            Part::Under(_, _) => {
                let second = Linear::of_term(alloc, terms, second)?;
                self.changed(how, &second)
            }
        }
    }
}
