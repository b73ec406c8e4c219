//! What a statement says of itself: its field, its strategy, and what it does with it.
ghost use Rattle.std.specs.Prelude.{◌≡◌, is_some};
ghost use Rattle.sync_terms.specs.Stored.{Stored};
ghost use Rattle.sync_terms.specs.Trees.{Tree};
ghost use Rattle.sync_machine.specs.Machines.{PlaceTree};
ghost use Rattle.sync_machine.specs.Views.{act_tree};
ghost use Rattle.sync_machine.specs.Statements as statements;
ghost use Rattle.sync_machine.specs.States as states;
ghost use Rattle.sync_rules.specs.Strategies as strategies;

use crate::kinds::OpKind;
use sync_machine::{Act, Field, Strategy, strategy_at};

/// The field that a statement operates on, if it operates on one.
#[tactic(auto, unfolding(sync_machine::specs::Statements::field_of))]
pub fn field_of(act: &Act) -> Option<u32>
    ensures { (s : Stored) → result ≡ statements.field_of (act_tree s act.now) }
{
    match *act {
        Act::Init(f, _)
        | Act::Update(f, _)
        | Act::HaveVariable(f)
        | Act::Add(f, _)
        | Act::Remove(f, _)
        | Act::Have(f, _)
        | Act::Deposit(f, _)
        | Act::Withdraw(f, _)
        | Act::Guard(f, _) => Some(f),
        Act::Require(_) | Act::Assert(_) => None,
    }
}

/// What a statement does with its field, if it operates on one.
#[tactic(auto, unfolding(crate::specs::Strategies::kind_of))]
pub(crate) fn kind_of(act: &Act) -> Option<OpKind>
    ensures { (s : Stored) → result ≡ strategies.kind_of (act_tree s act.now) }
{
    match act {
        Act::Init(..) => Some(OpKind::Init),
        Act::Update(..) => Some(OpKind::Update),
        Act::HaveVariable(_) => Some(OpKind::HaveVariable),
        Act::Add(..) => Some(OpKind::Add),
        Act::Remove(..) => Some(OpKind::Remove),
        Act::Have(..) => Some(OpKind::Have),
        Act::Deposit(..) => Some(OpKind::Deposit),
        Act::Withdraw(..) => Some(OpKind::Withdraw),
        Act::Guard(..) => Some(OpKind::Guard),
        Act::Require(_) | Act::Assert(_) => None,
    }
}

/// The field that a statement changes, if it changes one.
#[tactic(auto, unfolding(sync_machine::specs::Statements::changed_by))]
pub(crate) fn changed_by(act: &Act) -> Option<u32>
    ensures { (s : Stored) → result ≡ statements.changed_by (act_tree s act.now) }
{
    match *act {
        Act::Init(f, _)
        | Act::Update(f, _)
        | Act::Add(f, _)
        | Act::Remove(f, _)
        | Act::Deposit(f, _)
        | Act::Withdraw(f, _) => Some(f),
        Act::HaveVariable(_) | Act::Have(..) | Act::Guard(..) | Act::Require(_) | Act::Assert(_) =>
            None,
    }
}

/// The strategy of the field that a statement operates on.
pub fn strategy_of(fields: &[Field], act: &Act) -> Strategy
    ensures { (s : Stored) → result ≡ states.strategy_of fields.now (act_tree s act.now) }
{
    match field_of(act) {
        Some(f) => strategy_at(fields, f),
        None => Strategy::NotTokenized,
    }
}

/// Whether a statement has a safety condition.
#[tactic(auto, unfolding(sync_machine::specs::Statements::safety, sync_machine::specs::Statements::amount_is_natural, sync_machine::specs::Statements::freshness))]
pub(crate) fn has_safety(strategy: Strategy, act: &Act) -> bool
    ensures { (s : Stored) (cur : Tree) → result ≡ is_some (statements.safety strategy cur (act_tree s act.now)) }
{
    match act {
        Act::Assert(_) | Act::Deposit(..) | Act::Withdraw(..) | Act::Guard(..) => true,
        Act::Init(..) | Act::Remove(..) | Act::Have(..) => strategy == Strategy::Count,
        Act::Add(..) => asks_freshness(strategy),
        Act::Require(_) | Act::Update(..) | Act::HaveVariable(_) => false,
    }
}

/// Whether an addition to a field of this strategy has a safety condition.
#[tactic(auto, unfolding(sync_machine::specs::Statements::freshness))]
fn asks_freshness(strategy: Strategy) -> bool
    ensures { (cur : Tree) (p : PlaceTree) → result ≡ is_some (statements.freshness strategy cur p) }
{
    match strategy {
        Strategy::Option
        | Strategy::Map
        | Strategy::Set
        | Strategy::Count
        | Strategy::PersistentOption
        | Strategy::PersistentMap
        | Strategy::PersistentCount => true,
        Strategy::Variable
        | Strategy::Constant
        | Strategy::NotTokenized
        | Strategy::Multiset
        | Strategy::PersistentSet
        | Strategy::StorageMap => false,
    }
}
