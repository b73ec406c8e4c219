//! Which statements an operation may hold, and in which order.
ghost use Rattle.std.specs.Prelude.{◌≡◌};
ghost use Rattle.sync_terms.specs.Stored.{Stored};
ghost use Rattle.sync_machine.specs.Views.{act_tree, steps_tree};
ghost use Rattle.sync_rules.specs.Order as order;

use crate::acts::{changed_by, field_of, kind_of};
use crate::kinds::OpKind;
use sync_machine::{Act, OpMode, Step};

/// Whether a statement may stand in an operation of this mode, whatever it changes.
#[tactic(auto, unfolding(crate::specs::Order::may_start, crate::specs::Strategies::kind_of))]
pub(crate) fn may_stand_in(mode: OpMode, act: &Act) -> bool
    ensures { (s : Stored) → result ≡ order.may_stand_in mode (act_tree s act.now) }
{
    match mode {
        OpMode::Init => may_start(act),
        OpMode::Transition => !is_first_value(kind_of(act)),
        OpMode::Property => true,
    }
}

/// Whether an init may hold a statement.
#[tactic(auto, unfolding(crate::specs::Order::may_start))]
fn may_start(act: &Act) -> bool
    ensures { (s : Stored) → result ≡ order.may_start (act_tree s act.now) }
{
    match act {
        Act::Init(..) | Act::Require(_) | Act::Add(..) | Act::Deposit(..) => true,
        Act::Assert(_)
        | Act::Update(..)
        | Act::HaveVariable(_)
        | Act::Remove(..)
        | Act::Have(..)
        | Act::Withdraw(..)
        | Act::Guard(..) => false,
    }
}

fn is_first_value(kind: Option<OpKind>) -> bool
    ensures { result ≡ order.is_first_value kind }
{
    matches!(kind, Some(OpKind::Init))
}

fn is_removal(kind: Option<OpKind>) -> bool
    ensures { result ≡ order.is_removal kind }
{
    matches!(kind, Some(OpKind::Remove | OpKind::Withdraw))
}

fn is_read(kind: Option<OpKind>) -> bool
    ensures { result ≡ order.is_read kind }
{
    matches!(kind, Some(OpKind::Have | OpKind::Guard))
}

fn is_addition(kind: Option<OpKind>) -> bool
    ensures { result ≡ order.is_addition kind }
{
    matches!(kind, Some(OpKind::Add | OpKind::Deposit))
}

fn is_update(kind: Option<OpKind>) -> bool
    ensures { result ≡ order.is_update kind }
{
    matches!(kind, Some(OpKind::Update))
}

/// Whether two statements operate on one field.
fn are_on_one_field(a: &Act, b: &Act) -> bool
    ensures { (s : Stored) → result ≡ order.are_on_one_field (act_tree s a.now) (act_tree s b.now) }
{
    are_one(field_of(a), field_of(b))
}

fn are_one(a: Option<u32>, b: Option<u32>) -> bool
    ensures { result ≡ order.are_one a b }
{
    match (a, b) {
        (Some(f), Some(g)) => f == g,
        _ => false,
    }
}

/// Whether on one field the first kind of statement stands before the second.
fn has_to_precede(a: Option<OpKind>, b: Option<OpKind>) -> bool
    ensures { result ≡ order.has_to_precede a b }
{
    (is_removal(a) && (is_read(b) || is_addition(b)))
        || ((is_read(a) || is_first_value(a)) && is_addition(b))
}

/// Whether a statement may stand behind an earlier one.
fn may_follow(act: &Act, earlier: &Act) -> bool
    ensures { (s : Stored) → result ≡ order.may_follow (act_tree s act.now) (act_tree s earlier.now) }
{
    !(are_on_one_field(act, earlier) && has_to_precede(kind_of(act), kind_of(earlier)))
}

/// Whether two statements are not updates of one field.
fn is_no_second_update(act: &Act, earlier: &Act) -> bool
    ensures { (s : Stored) → result ≡ order.is_no_second_update (act_tree s act.now) (act_tree s earlier.now) }
{
    !(are_on_one_field(act, earlier) && (is_update(kind_of(act)) && is_update(kind_of(earlier))))
}

/// Whether a statement may stand behind all earlier ones.
pub(crate) fn is_in_order(earlier: &[Step], act: &Act) -> bool
    ensures { (s : Stored) → result ≡ order.is_in_order (steps_tree s earlier.now) (act_tree s act.now) }
{
    earlier.iter().all(|e| may_follow(act, &e.act))
}

/// Whether no earlier statement updates the field that this one updates.
pub(crate) fn is_only_update(earlier: &[Step], act: &Act) -> bool
    ensures { (s : Stored) → result ≡ order.is_only_update (steps_tree s earlier.now) (act_tree s act.now) }
{
    earlier.iter().all(|e| is_no_second_update(act, &e.act))
}

/// Whether a statement leaves all fields as they are, where a property holds it.
pub(crate) fn keeps_still(mode: OpMode, act: &Act) -> bool
    ensures { (s : Stored) → result ≡ order.keeps_still mode (act_tree s act.now) }
{
    match mode {
        OpMode::Init | OpMode::Transition => true,
        OpMode::Property => changed_by(act).is_none(),
    }
}
