//! A program of code, event by event.

ghost use Rattle.std.specs.Prelude.{◌≡◌, ◌+◌, ◌-◌, ◌^◌, ◌<◌, ◌≤◌, length, slice_get, Some, true, Ok, Err, IfOk, MatchResult, OnOk};
ghost use Rattle.sync_thread.specs.Code.{code_meaning, erased_start};
ghost use Rattle.sync_thread.specs.Control.{Broken, event, hand_over, have_ended, lead, waits_at};
ghost use Rattle.sync_thread.specs.Views.{code_tree};
ghost use Rattle.sync_thread_events.specs.Moments.{begun_at, config_of, IsFresh, IsMomentOf, lists_of, moved_if, Pairwise};
ghost use Rattle.sync_thread_events.specs.Moves.{Halts};

use crate::endings::Halted;
use crate::layout::lay;
use crate::moving::{begin, go_on};
use crate::steps::Spans;
use crate::stores::Store;
use std::alloc::{AllocError, Global};
use sync_thread::{Code, CodeStmt, Moved};
use sync_thread_places::{Hop, Standing, nesting, width};

/// A program of code between two of its events.
#[derive(Drop)]
pub struct Moment {
    pub spans: Spans,
    pub store: Store,
    /// Those of the threads in order, and last that of the final block.
    pub standings: Vec<Standing>,
}

impl Moment {
    /// The start, with the leading local statements done.
    pub fn start(alloc: Global, code: &Code) -> Result<Moment, Halted>
        requires { length code.now.threads < 2 ^ 32 - 1 }
        ensures made { IfOk result (IsMomentOf code.now) }
        ensures starts { MatchResult result
            (λ moment. erased_start (code_tree code.now) ≡ Ok (config_of code.now moment))
            (Halts (erased_start (code_tree code.now) ≡ Err Broken)) }
    {
        let laid = lay(alloc, code.decls.as_slice())?;
        let standings = all_fresh(alloc, code)?;
        let store = Store {
            words: laid.words,
            cells: laid.cells,
            lines: Vec::new(alloc),
        };
        let mut moment = Moment {
            spans: laid.spans,
            store,
            standings,
        };
        moment.lead(code)?;
        moment.hand_over(code)?;
        Ok(moment)
    }

    /// Whether somebody waits before a shared step. The final block has the number of threads.
    pub fn waits(&self, code: &Code, number: u32) -> bool
        requires { IsMomentOf code.now self.now }
        ensures { result ≡ waits_at number (config_of code.now self.now).places }
    {
        match self.standings.get(number as usize) {
            Some(standing) => standing.waits,
            None => false,
        }
    }

    /// The event of somebody who waits: his shared step, and what follows up to the next one.
    pub fn step(&mut self, code: &Code, number: u32) -> Result<(), Halted>
        requires made { IsMomentOf code.now self.old }
        requires waits { waits_at number (config_of code.now self.old).places ≡ true }
        ensures stays { OnOk result (IsMomentOf code.now self.new) }
        ensures goes { MatchResult result
            (λ _. event (code_meaning (code_tree code.now)) number (config_of code.now self.old)
            ≡ Ok (config_of code.now self.new))
            (Halts (event (code_meaning (code_tree code.now)) number (config_of code.now self.old) ≡ Err Broken)) }
    {
        let at = number as usize;
        go_on(
            list_of(code, at),
            &self.spans,
            &mut self.standings[at],
            &mut self.store,
        )?;
        if at >= code.threads.len() {
            return Ok(());
        }
        self.hand_over(code)
    }

    /// The event of this number: that of whoever has it, if he waits, and nothing if nobody with it waits.
    pub fn event(&mut self, code: &Code, number: u32) -> Result<Moved, Halted>
        requires { IsMomentOf code.now self.old }
        ensures stays { OnOk result (IsMomentOf code.now self.new) }
        ensures moved { IfOk result (λ moved. moved ≡ moved_if (waits_at number (config_of code.now self.old).places)) }
        ensures goes { MatchResult result
            (λ _. event (code_meaning (code_tree code.now)) number (config_of code.now self.old)
            ≡ Ok (config_of code.now self.new))
            (Halts (event (code_meaning (code_tree code.now)) number (config_of code.now self.old) ≡ Err Broken)) }
    {
        if !self.waits(code, number) {
            return Ok(Moved::Nothing);
        }
        self.step(code, number)?;
        Ok(Moved::Stepped)
    }

    /// Where nobody waits any more, the final block takes over.
    fn hand_over(&mut self, code: &Code) -> Result<(), Halted>
        requires { IsMomentOf code.now self.old }
        ensures stays { OnOk result (IsMomentOf code.now self.new) }
        ensures goes { MatchResult result
            (λ _. hand_over (code_meaning (code_tree code.now)) (config_of code.now self.old)
            ≡ Ok (config_of code.now self.new))
            (Halts (hand_over (code_meaning (code_tree code.now)) (config_of code.now self.old) ≡ Err Broken)) }
    {
        if !self.have_ended(code) {
            return Ok(());
        }
        match &code.last {
            Some(_) => self.begin_at(code, code.threads.len()),
            None => Ok(()),
        }
    }

    /// Whether nobody waits.
    fn have_ended(&self, code: &Code) -> bool
        requires { IsMomentOf code.now self.now }
        ensures { result ≡ have_ended (config_of code.now self.now).places }
    {
        for standing in self.standings.as_slice() {
            if standing.waits {
                return false;
            }
        }
        true
    }

    /// The leading local statements of the threads, in order.
    fn lead(&mut self, code: &Code) -> Result<(), Halted>
        requires { IsMomentOf code.now self.old }
        ensures stays { OnOk result (IsMomentOf code.now self.new) }
        ensures goes { MatchResult result
            (λ _. lead (code_meaning (code_tree code.now)) 0 (code_meaning (code_tree code.now)).bodies
            (config_of code.now self.old) ≡ Ok (config_of code.now self.new))
            (Halts (lead (code_meaning (code_tree code.now)) 0 (code_meaning (code_tree code.now)).bodies
            (config_of code.now self.old) ≡ Err Broken)) }
    {
        for at in 0..code.threads.len() {
            self.begin_at(code, at)?;
        }
        Ok(())
    }

    /// One of the lists begins, and runs up to its first shared step.
    fn begin_at(&mut self, code: &Code, at: usize) -> Result<(), Halted>
        requires made { IsMomentOf code.now self.old }
        requires known { at ≤ length code.now.threads }
        ensures stays { OnOk result (IsMomentOf code.now self.new) }
        ensures goes { MatchResult result
            (λ _. begun_at code.now at (config_of code.now self.old) ≡ Ok (config_of code.now self.new))
            (Halts (begun_at code.now at (config_of code.now self.old) ≡ Err Broken)) }
    {
        begin(list_of(code, at), &mut self.standings[at])
    }
}

/// The list of a thread, or of the final block.
fn list_of(code: &Code, at: usize) -> &[CodeStmt]
    requires { at ≤ length code.now.threads }
    ensures { slice_get (lists_of code.now) at ≡ Some result.now }
{
    match code.threads.get(at) {
        Some(thread) => thread.body.as_slice(),
        None => match &code.last {
            Some(list) => list.as_slice(),
            None => &[],
        },
    }
}

/// Standings for all lists, where nobody has begun.
fn all_fresh(alloc: Global, code: &Code) -> Result<Vec<Standing>, AllocError>
    requires { length code.now.threads < 2 ^ 32 - 1 }
    ensures { IfOk result (λ standings. Pairwise IsFresh (lists_of code.now) standings.items) }
{
    let mut standings = Vec::new(alloc);
    for at in 0..code.threads.len() + 1 {
        let standing = fresh(alloc, list_of(code, at))?;
        standings.push(standing)?;
    }
    Ok(standings)
}

/// A standing for a list that has not begun.
fn fresh(alloc: Global, list: &[CodeStmt]) -> Result<Standing, AllocError>
    ensures { IfOk result (IsFresh list.now) }
{
    let Some(depth) = nesting(list) else {
        return Err(AllocError);
    };
    let hops = vec![in alloc; Hop {
        at: 0,
        second: false
    }; depth]?;
    let locals = vec![in alloc; 0; width(list)]?;
    Ok(Standing {
        waits: false,
        hops,
        depth: 0,
        at: 0,
        locals,
    })
}
