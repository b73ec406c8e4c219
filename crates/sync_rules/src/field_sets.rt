//! Sets of fields, and the fields that a term or a formula names.
ghost use Rattle.std.specs.Prelude.{◌≡◌, ℕ, ◌<◌, ◌||◌, false, length, nat_eq};
ghost use Rattle.sync_terms.specs.Stored.{tree, formula, IsTerm, IsForm};
ghost use Rattle.sync_rules.specs.Obligations.{names, form_names};
ghost use Rattle.sync_rules.specs.FieldSets.{has, marks_of};

use sync_terms::{FormId, FormNode, Node, TermId, Terms};

/// The most fields of a machine.
const MOST: usize = 32;

/// A set of fields, each known by its number, which is below 32.
#[derive(Clone, Copy, Drop)]
pub(crate) struct FieldSet {
    pub(crate) marks: [bool; 32],
}

impl FieldSet {
    /// The set without a field.
    pub(crate) fn empty() -> FieldSet
        ensures none { (x : ℕ) → x < 32 → has result.marks x ≡ false }
        ensures count { length result.marks ≡ 32 }
    {
        FieldSet {
            marks: [false; MOST],
        }
    }

    /// Whether the field is in the set.
    pub(crate) fn has(&self, field: u32) -> bool
        ensures { result ≡ has self.now.marks field }
    {
        (field as usize) < MOST && self.marks[field as usize]
    }

    /// Adds a field. A number that is no field's is passed over.
    fn insert(&mut self, symbol: u32)
        ensures added { (x : ℕ) → x < 32 → has self.new.marks x ≡ (has self.old.marks x || nat_eq x symbol) }
        ensures count { length self.new.marks ≡ length self.old.marks }
    {
        if (symbol as usize) < MOST {
            self.marks[symbol as usize] = true;
        }
    }
}

/// Adds the fields that a term names. Takes time in the size of its tree, which is at most 1,000,000 nodes.
#[tactic(auto, using(crate::proofs::Sets::or_assoc), unfolding(sync_terms::specs::Stored::shape, sync_terms::specs::Stored::tree, crate::specs::Obligations::names))]
fn add_term_fields(terms: &Terms, id: TermId, set: &mut FieldSet)
    requires { IsTerm terms.now id }
    ensures added { (x : ℕ) → x < 32 → has set.new.marks x ≡ (has set.old.marks x || names x (tree terms.now id)) }
    ensures count { length set.new.marks ≡ length set.old.marks }
{
    match terms.term(id) {
        Node::Lit(_) | Node::Nil => {}
        Node::Name(symbol) => set.insert(symbol.0),
        Node::Scale(_, a) | Node::Size(a) | Node::Sum(a) => add_term_fields(terms, a, set),
        Node::Add(a, b) | Node::Sub(a, b) | Node::Get(a, b) | Node::Has(a, b) | Node::Del(a, b) => {
            add_term_fields(terms, a, set);
            add_term_fields(terms, b, set);
        }
        Node::Put(a, b, c) | Node::Bump(a, b, c) => {
            add_term_fields(terms, a, set);
            add_term_fields(terms, b, set);
            add_term_fields(terms, c, set);
        }
    }
}

/// Adds the fields that a formula names.
#[tactic(auto, using(crate::proofs::Sets::or_assoc), unfolding(sync_terms::specs::Stored::form_shape, sync_terms::specs::Stored::tree, sync_terms::specs::Stored::formula, crate::specs::Obligations::form_names))]
fn add_form_fields(terms: &Terms, id: FormId, set: &mut FieldSet)
    requires { IsForm terms.now id }
    ensures added { (x : ℕ) → x < 32 → has set.new.marks x ≡ (has set.old.marks x || form_names x (formula terms.now id)) }
    ensures count { length set.new.marks ≡ length set.old.marks }
{
    match terms.form(id) {
        FormNode::Le(a, b) | FormNode::Lt(a, b) | FormNode::Eq(a, b) => {
            add_term_fields(terms, a, set);
            add_term_fields(terms, b, set);
        }
        FormNode::Not(f) => add_form_fields(terms, f, set),
        FormNode::And(f, g) | FormNode::Or(f, g) | FormNode::Imp(f, g) => {
            add_form_fields(terms, f, set);
            add_form_fields(terms, g, set);
        }
    }
}

/// The fields that a formula names.
pub(crate) fn fields_of(terms: &Terms, id: FormId) -> FieldSet
    requires { IsForm terms.now id }
    ensures { result.marks ≡ marks_of (formula terms.now id) }
{
    let mut set = FieldSet::empty();
    add_form_fields(terms, id, &mut set);
    set
}
