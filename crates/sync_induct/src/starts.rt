//! Where an operation begins: what may be used, and each field's value before its statements.
ghost use Rattle.std.specs.Prelude.{◌≡◌, ◌++◌, map, OnOk, IfOk};
ghost use Rattle.std.specs.List.{AllByRecursion};
ghost use Rattle.sync_terms.specs.Stored.{Stored, Extends, HasChildren, IsForm, shape};
ghost use Rattle.sync_machine.specs.States as states;
ghost use Rattle.sync_machine.specs.Views.{invariant_tree};
ghost use Rattle.sync_machine.specs.declared.machine.Invariant.{Invariant as Declared};
ghost use Rattle.sync_induct.specs.Duties.{base_facts, invariant_facts};
ghost use Rattle.sync_induct.specs.Starts as starts;
ghost use Rattle.sync_induct.specs.Walks.{HaveTrees, HasCome, IsWalk, known_of, values_of};

use crate::walks::Walk;
use sqlite_items::Items;
use std::alloc::Global;
use sync_base::{NoMemory, place_number};
use sync_kernel::{Hyp, Hypotheses};
use sync_machine::{Field, Invariant, OpMode, Strategy};
use sync_terms::{HypName, Node, Sym, TermId, Terms};

/// The node of a field's value before an init.
#[tactic(auto, unfolding(sync_terms::specs::Stored::shape, sync_machine::specs::States::sort_of))]
fn blank(strategy: Strategy) -> Node
    ensures tree { (s : Stored) → shape s result ≡ states.blank (states.sort_of strategy) }
    ensures children { (s : Stored) → HasChildren s result }
{
    match strategy {
        Strategy::Variable
        | Strategy::Constant
        | Strategy::NotTokenized
        | Strategy::Count
        | Strategy::PersistentCount => Node::Lit(0),
        Strategy::Option
        | Strategy::Map
        | Strategy::Set
        | Strategy::Multiset
        | Strategy::PersistentOption
        | Strategy::PersistentMap
        | Strategy::PersistentSet
        | Strategy::StorageMap => Node::Nil,
    }
}

/// The node of a field's value before the first statement of an operation.
#[tactic(auto, unfolding(sync_terms::specs::Stored::shape))]
fn first_node(mode: OpMode, number: u32, strategy: Strategy) -> Node
    ensures tree { (s : Stored) → shape s result ≡ starts.first_value mode number strategy }
    ensures children { (s : Stored) → HasChildren s result }
{
    match mode {
        OpMode::Init => blank(strategy),
        OpMode::Transition | OpMode::Property => Node::Name(Sym(number)),
    }
}

/// The fields' values before the first statement of an operation.
fn first_values(
    alloc: Global,
    terms: &mut Terms,
    fields: &[Field],
    mode: OpMode,
) -> Result<Vec<TermId>, NoMemory>
    ensures values { IfOk result (λ v. HaveTrees terms.new v.items (states.first_values fields.now mode)) }
    ensures keeps { Extends terms.old terms.new }
{
    let mut values = Vec::new(alloc);
    for (i, field) in fields.iter().enumerate() {
        let node = first_node(mode, place_number(i)?, field.strategy);
        let Ok(value) = terms.add_term(node) else {
            return Err(NoMemory);
        };
        values.push(value)?;
    }
    Ok(values)
}

impl Walk {
    /// Begins an operation: an init may use nothing, and the others all invariants.
    pub fn begin(
        alloc: Global,
        terms: &mut Terms,
        fields: &[Field],
        invariants: &[Invariant],
        mode: OpMode,
    ) -> Result<Walk, NoMemory>
        requires { AllByRecursion (λ (i : Declared). IsForm terms.old i.form) invariants.now }
        ensures come { IfOk result (λ w. HasCome terms.new w
            (base_facts mode (map (invariant_tree terms.old) invariants.now)) (states.first_values fields.now mode)) }
        ensures keeps { Extends terms.old terms.new }
    {
        let mut walk = Walk {
            hyps: Hypotheses::new(alloc),
            current: first_values(alloc, terms, fields, mode)?,
        };
        match mode {
            OpMode::Init => Ok(walk),
            OpMode::Transition | OpMode::Property => {
                walk.assume(alloc, terms, invariants)?;
                Ok(walk)
            }
        }
    }

    /// Adds the invariants, each under its name and with its parameters.
    fn assume(
        &mut self,
        alloc: Global,
        terms: &Terms,
        invariants: &[Invariant],
    ) -> Result<(), NoMemory>
        requires walk { IsWalk terms.now self.old }
        requires forms { AllByRecursion (λ (i : Declared). IsForm terms.now i.form) invariants.now }
        ensures { OnOk result (HasCome terms.now self.new
            (known_of terms.now self.old ++ invariant_facts (map (invariant_tree terms.now) invariants.now))
            (values_of terms.now self.old)) }
    {
        for invariant in invariants {
            let params = Items::from_slice(alloc, invariant.params.as_slice())?;
            self.add(
                terms,
                Hyp {
                    name: HypName::Label(invariant.name),
                    params,
                    form: invariant.form,
                },
            )?;
        }
        Ok(())
    }
}
