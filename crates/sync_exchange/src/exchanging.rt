//! Exchanges: operations of a machine done locally, on the tokens of one holder.
ghost use Rattle.std.specs.Prelude.{◌≡◌, ◌<◌, length, map, IfOk, OnErr};
ghost use Rattle.std.specs.List.{AllByRecursion};
ghost use Rattle.sync_machine.specs.Views.{steps_tree, HasActIds, HasOwnIds};
ghost use Rattle.sync_machine.specs.declared.machine.Step.{Step as Statement};
ghost use Rattle.sync_join.specs.Views.{value_tree};
ghost use Rattle.sync_exchange.specs.Calls.{whole_of, ExchangesAt, IsStepOf, IsStartOf, RunsAt};
ghost use Rattle.sync_exchange.specs.Outcomes.{Leaves};
ghost use Rattle.sync_exchange.specs.Works.{now_of, finished, fresh, left_by, goes_on};

use crate::cases::Case;
use crate::changes::{made, settle};
use crate::hands::{Bound, Hand, Names, XStop};
use crate::scopes::Outer;
use crate::works::{Finished, Work};
use sqlite_items::Items;
use std::alloc::Global;
use sync_base::NoMemory;
use sync_join::{Rest, State, Value};
use sync_machine::{Machine, Step};
use sync_rules::variable_slots;

/// Does an operation on the tokens of one holder and on what is kept, and tells the values of the names that it binds.
///
/// Token names and new names are said slot by slot. `whole` is the joined state; it is read where the new value of a
/// field without tokens names what is not at hand, and counts as empty where it is not given. The first failure in the
/// order of the slots and statements is told, and then hand and rest are as before. Nobody looks at whether an added
/// place is free: that is the machine's proof.
///
/// What it costs goes with the statements, each times the tokens of the hand and the stored objects, with the terms,
/// and with the records that change, which are copied.
pub fn exchange(
    alloc: Global,
    m: &Machine,
    op: u32,
    args: &[i128],
    names: &Names,
    whole: Option<&State>,
    hand: &mut Hand,
    rest: &mut Rest,
) -> Result<Bound, XStop>
    requires ids { HasOwnIds m.now }
    requires op { op < length m.now.ops }
    ensures exact { ExchangesAt result m.now op args.now names.now (whole_of whole.entry) hand.old rest.old hand.new rest.new }
    ensures unchanged { OnErr result ((hand.new ≡ hand.old) × (rest.new ≡ rest.old)) }
    ensures steps { IfOk result (λ b. IsStepOf m.now op args.now names.now (whole_of whole.entry) hand.old rest.old b hand.new rest.new) }
    ensures starts { IfOk result (λ b. IsStartOf m.now op args.now names.now hand.old rest.old b hand.new rest.new) }
{
    exchange_exactly(alloc, m, op, args, names, whole, hand, rest)
}

/// The same, without what it means for the whole.
fn exchange_exactly(
    alloc: Global,
    m: &Machine,
    op: u32,
    args: &[i128],
    names: &Names,
    whole: Option<&State>,
    hand: &mut Hand,
    rest: &mut Rest,
) -> Result<Bound, XStop>
    requires ids { HasOwnIds m.now }
    requires op { op < length m.now.ops }
    ensures exact { ExchangesAt result m.now op args.now names.now (whole_of whole.entry) hand.old rest.old hand.new rest.new }
    ensures unchanged { OnErr result ((hand.new ≡ hand.old) × (rest.new ≡ rest.old)) }
{
    let done = run(alloc, m, op, args, names, values_of(whole), hand, rest)?;
    let Finished {
        hand: held,
        records,
        stored,
        bound,
    } = done;
    hand.held = held;
    settle(&mut rest.records, records);
    rest.stored = stored;
    Ok(Bound { values: bound })
}

/// The values of a state, if there is one.
fn values_of(whole: Option<&State>) -> &[Value]
    ensures { map value_tree result.now ≡ whole_of whole.entry }
{
    match whole {
        Some(state) => state.values.as_slice(),
        None => &[],
    }
}

/// What an exchange leaves, in the place of hand and rest.
fn run<'x>(
    alloc: Global,
    m: &'x Machine,
    op: u32,
    args: &'x [i128],
    names: &'x Names,
    whole: &'x [Value],
    hand: &Hand,
    rest: &'x Rest,
) -> Result<Finished, XStop>
    requires ids { HasOwnIds m.now }
    requires op { op < length m.now.ops }
    ensures exact { RunsAt result m.now op args.now names.now (map value_tree whole.now) hand.now rest.now }
    ensures len { IfOk result (λ x. length x.records ≡ length rest.now.records) }
{
    let operation = &m.ops.as_slice()[op as usize];
    let fields = m.fields.as_slice();
    let records = rest.records.as_slice();
    let outer = Outer {
        fields,
        params: operation.params.as_slice(),
        args,
        records,
        stored: rest.stored.as_slice(),
        whole,
    };
    let case = Case {
        alloc,
        m,
        outer,
        tokens: names.tokens.as_slice(),
        given: names.given.as_slice(),
    };
    let mut work = Work::new(alloc, hand, rest)?;
    work.run(&case, operation.steps.as_slice())?;
    Ok(work.finish(alloc, records)?)
}

impl Work {
    /// Before the first slot.
    fn new(alloc: Global, hand: &Hand, rest: &Rest) -> Result<Work, NoMemory>
        ensures { IfOk result (λ w. w ≡ fresh hand.now.held rest.now.stored) }
    {
        Ok(Work {
            known: Items::new(alloc),
            slot: 0,
            tokens: 0,
            given: 0,
            variables: Items::new(alloc),
            hand: Items::from_slice(alloc, hand.held.as_slice())?,
            entered: Items::new(alloc),
            changes: Items::new(alloc),
            stored: Items::from_slice(alloc, rest.stored.as_slice())?,
            bound: Items::new(alloc),
        })
    }

    /// The slots of variables, and then the statements.
    fn run(&mut self, case: &Case<'_>, steps: &[Step]) -> Result<(), XStop>
        requires { AllByRecursion (λ (s : Statement). HasActIds case.now.m.now.terms s.act) steps.now }
        ensures { Leaves result (now_of case.now self.new) (goes_on case.now (steps_tree case.now.m.now.terms steps.now) self.old) }
    {
        let slots = variable_slots(case.alloc, case.m, steps)?;
        self.use_variables(case, slots.as_slice())?;
        self.act_all(case, steps)
    }

    /// What the exchange leaves behind the last statement.
    fn finish(self, alloc: Global, records: &[Value]) -> Result<Finished, NoMemory>
        ensures exact { IfOk result (λ x. finished records.now x ≡ left_by self records.now) }
        ensures len { IfOk result (λ x. length x.records ≡ length records.now) }
    {
        let news = made(alloc, records, self.changes.as_slice())?;
        let mut hand = self.hand;
        hand.append(self.entered)?;
        Ok(Finished {
            hand,
            records: news,
            stored: self.stored,
            bound: self.bound,
        })
    }
}
