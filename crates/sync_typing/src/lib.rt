//! The rules on programs: what is known at each place, and the first rule that a program breaks.
#![tactic(auto)]

ghost use Rattle.sync_typing.specs.Laws.{DuesGoOn, EachRuleIsBroken, TypedByParts};

/// A program with a start is typed exactly where its start, each thread and its final block are.
pub fn typed_by_parts()
    ensures { TypedByParts }
{}

/// Dues are met one after another, by scripts in their order.
pub fn dues_go_on()
    ensures { DuesGoOn }
{}

/// Each rule is the first that some program breaks, and some program breaks none.
pub fn each_rule_is_broken()
    ensures { EachRuleIsBroken }
{}
