//! Rounds of the threads in the order of their declaration, and then the final block.

ghost use Rattle.std.specs.Prelude.{◌≡◌, ℕ, ◌+◌, ◌-◌, ◌^◌, ◌<◌, ◌≤◌, true, false, List, length, slice_index, slice_set, MatchResult, OnOk, Ok, Err};
ghost use Rattle.sync_thread.specs.Code.{code_meaning, erased_start, ErasedConfig, IsStuck};
ghost use Rattle.sync_thread.specs.declared.program.Code.{Code};
ghost use Rattle.sync_thread.specs.Control.{Broken, event, waits_at};
ghost use Rattle.sync_thread.specs.Views.{code_tree};
ghost use Rattle.sync_thread_events.specs.Moves.{Halts};
ghost use Rattle.sync_run.specs.Turns.{GetsStuck, IsInLast, IsInRound, IsRun, LeadsOn};

use std::alloc::Global;
use sync_base::Gate;
use sync_thread::Code;
use sync_thread_events::Halted;

/// Who runs code, event by event. The threads have their numbers, and the final block has the number of threads.
pub trait Interpreter {
    /// Where it stands.
    ghost place: { Code → Self → ErasedConfig };

    /// It has been made for this code.
    ghost is_of: { Code → Self → Type 0 };

    /// Whether somebody waits before a shared step.
    fn waits(&self, code: &Code, number: u32) -> bool
        requires made { is_of code.now self.now }
        requires known { number ≤ length code.now.threads }
        ensures { result ≡ waits_at number (place code.now self.now).places };

    /// The event of somebody who waits.
    fn step(&mut self, code: &Code, number: u32) -> Result<(), Halted>
        requires made { is_of code.now self.old }
        requires known { number ≤ length code.now.threads }
        requires waits { waits_at number (place code.now self.old).places ≡ true }
        ensures stays { OnOk result (is_of code.now self.new) }
        ensures goes { MatchResult result
            (λ _. event (code_meaning (code_tree code.now)) number (place code.now self.old)
            ≡ Ok (place code.now self.new))
            (Halts (event (code_meaning (code_tree code.now)) number (place code.now self.old) ≡ Err Broken)) };
}

/// An event of somebody who waits and has made so many steps.
fn turn<I: Interpreter, G: Gate>(
    code: &Code,
    number: u32,
    made: u64,
    gate: &G,
    interpreter: &mut I,
    steps: &mut Vec<u64>,
) -> Result<(), Halted>
    requires made { I.is_of code.now interpreter.old }
    requires known { number ≤ length code.now.threads }
    requires waits { waits_at number (I.place code.now interpreter.old).places ≡ true }
    requires count { number < length steps.old.items }
    requires few { made < 2 ^ 64 - 1 }
    ensures stays { OnOk result (I.is_of code.now interpreter.new) }
    ensures goes { MatchResult result
        (λ _. event (code_meaning (code_tree code.now)) number (I.place code.now interpreter.old)
        ≡ Ok (I.place code.now interpreter.new))
        (Halts (event (code_meaning (code_tree code.now)) number (I.place code.now interpreter.old) ≡ Err Broken)) }
    ensures counts { OnOk result (steps.new.items ≡ slice_set steps.old.items number (made + 1)) }
{
    gate.pass(number);
    interpreter.step(code, number)?;
    steps[number as usize] = made + 1;
    Ok(())
}

/// A step of a thread, if it waits.
fn visit<I: Interpreter, G: Gate>(
    code: &Code,
    number: u32,
    made: u64,
    gate: &G,
    interpreter: &mut I,
    steps: &mut Vec<u64>,
) -> Result<(), Halted>
    requires made { I.is_of code.now interpreter.old }
    requires known { number < length code.now.threads }
    requires short { made < 2 ^ 64 - 1 }
    requires begins { IsInRound (code_tree code.now) made number (I.place code.now interpreter.old) steps.old.items }
    ensures stays { OnOk result (I.is_of code.now interpreter.new) }
    ensures ends { OnOk result (IsInRound (code_tree code.now) made (number + 1) (I.place code.now interpreter.new)
        steps.new.items) }
    ensures leads { MatchResult result
        (λ _. LeadsOn (code_tree code.now) (I.place code.now interpreter.old) steps.old.items
        (I.place code.now interpreter.new) steps.new.items)
        (Halts (GetsStuck (code_tree code.now) (I.place code.now interpreter.old) steps.old.items)) }
{
    if !interpreter.waits(code, number) {
        return Ok(());
    }
    turn(code, number, made, gate, interpreter, steps)
}

/// A step of each thread that waits, where each has made so many steps or has ended.
fn round<I: Interpreter, G: Gate>(
    code: &Code,
    made: u64,
    gate: &G,
    interpreter: &mut I,
    steps: &mut Vec<u64>,
) -> Result<(), Halted>
    requires made { I.is_of code.now interpreter.old }
    requires few { length code.now.threads < 2 ^ 32 - 1 }
    requires short { made < 2 ^ 64 - 1 }
    requires begins { IsInRound (code_tree code.now) made 0 (I.place code.now interpreter.old) steps.old.items }
    ensures stays { OnOk result (I.is_of code.now interpreter.new) }
    ensures ends { OnOk result (IsInRound (code_tree code.now) (made + 1) 0 (I.place code.now interpreter.new)
        steps.new.items) }
    ensures leads { MatchResult result
        (λ _. LeadsOn (code_tree code.now) (I.place code.now interpreter.old) steps.old.items
        (I.place code.now interpreter.new) steps.new.items)
        (Halts (GetsStuck (code_tree code.now) (I.place code.now interpreter.old) steps.old.items)) }
{
    for number in 0..code.threads.len() as u32 {
        visit(code, number, made, gate, interpreter, steps)?;
    }
    Ok(())
}

/// Whether a thread waits.
fn thread_waits<I: Interpreter>(code: &Code, interpreter: &I) -> bool
    requires made { I.is_of code.now interpreter.now }
    requires few { length code.now.threads < 2 ^ 32 - 1 }
    ensures { result ≡ false → (t : ℕ) → t < length code.now.threads
        → waits_at t (I.place code.now interpreter.now).places ≡ false }
{
    for number in 0..code.threads.len() as u32 {
        if interpreter.waits(code, number) {
            return true;
        }
    }
    false
}

/// Rounds of the threads, until all have ended or have used the budget.
fn rounds<I: Interpreter, G: Gate>(
    code: &Code,
    budget: u64,
    gate: &G,
    interpreter: &mut I,
    steps: &mut Vec<u64>,
) -> Result<(), Halted>
    requires made { I.is_of code.now interpreter.old }
    requires few { length code.now.threads < 2 ^ 32 - 1 }
    requires begins { IsInRound (code_tree code.now) 0 0 (I.place code.now interpreter.old) steps.old.items }
    ensures stays { OnOk result (I.is_of code.now interpreter.new) }
    ensures ends { OnOk result (IsInLast (code_tree code.now) budget 0 (I.place code.now interpreter.new)
        steps.new.items) }
    ensures leads { MatchResult result
        (λ _. LeadsOn (code_tree code.now) (I.place code.now interpreter.old) steps.old.items
        (I.place code.now interpreter.new) steps.new.items)
        (Halts (GetsStuck (code_tree code.now) (I.place code.now interpreter.old) steps.old.items)) }
{
    for made in 0..budget {
        if !thread_waits(code, interpreter) {
            return Ok(());
        }
        round(code, made, gate, interpreter, steps)?;
    }
    Ok(())
}

/// The final block, until it has ended or has used the budget.
fn last<I: Interpreter, G: Gate>(
    code: &Code,
    budget: u64,
    gate: &G,
    interpreter: &mut I,
    steps: &mut Vec<u64>,
) -> Result<(), Halted>
    requires made { I.is_of code.now interpreter.old }
    requires few { length code.now.threads < 2 ^ 32 - 1 }
    requires begins { IsInLast (code_tree code.now) budget 0 (I.place code.now interpreter.old) steps.old.items }
    ensures stays { OnOk result (I.is_of code.now interpreter.new) }
    ensures ends { OnOk result (IsInLast (code_tree code.now) budget budget (I.place code.now interpreter.new)
        steps.new.items) }
    ensures leads { MatchResult result
        (λ _. LeadsOn (code_tree code.now) (I.place code.now interpreter.old) steps.old.items
        (I.place code.now interpreter.new) steps.new.items)
        (Halts (GetsStuck (code_tree code.now) (I.place code.now interpreter.old) steps.old.items)) }
{
    let number = code.threads.len() as u32;
    for made in 0..budget {
        if !interpreter.waits(code, number) {
            return Ok(());
        }
        turn(code, number, made, gate, interpreter, steps)?;
    }
    Ok(())
}

/// Runs code in turn from its start, and says how many steps each has made. No thread makes more than the budget, nor
/// does the final block.
pub fn run_in_turn<I: Interpreter, G: Gate>(
    alloc: Global,
    code: &Code,
    budget: u64,
    gate: &G,
    interpreter: &mut I,
) -> Result<Vec<u64>, Halted>
    requires made { I.is_of code.now interpreter.old }
    requires few { length code.now.threads < 2 ^ 32 - 1 }
    requires started { erased_start (code_tree code.now) ≡ Ok (I.place code.now interpreter.old) }
    ensures stays { OnOk result (I.is_of code.now interpreter.new) }
    ensures runs { MatchResult result
        (λ steps. IsRun (code_tree code.now) budget steps.items (I.place code.now interpreter.new))
        (Halts ((sigma : List ℕ) × IsStuck (code_tree code.now) sigma)) }
{
    let mut steps = vec![in alloc; 0; code.threads.len() + 1]?;
    rounds(code, budget, gate, interpreter, &mut steps)?;
    last(code, budget, gate, interpreter, &mut steps)?;
    Ok(steps)
}
