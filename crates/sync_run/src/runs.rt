//! Runs of code from its start to its report.

ghost use Rattle.std.specs.Prelude.{ℕ, ◌-◌, ◌^◌, ◌<◌, List, length, MatchResult};
ghost use Rattle.sync_thread.specs.Code.{IsStuck};
ghost use Rattle.sync_thread.specs.Views.{code_tree};
ghost use Rattle.sync_thread_events.specs.Moments.{config_of, IsMomentOf};
ghost use Rattle.sync_thread_events.specs.Moves.{Halts};
ghost use Rattle.sync_run.specs.Reports.{HasEnded, IsReport};

use crate::reports::{Ended, Report};
use crate::turns::{Interpreter, run_in_turn};
use std::alloc::Global;
use sync_base::Gate;
use sync_thread::Code;
use sync_thread_events::{Halted, Moment};

impl Interpreter for Moment {
    ghost place = { config_of };

    ghost is_of = { IsMomentOf };

    fn waits(&self, code: &Code, number: u32) -> bool {
        Moment::waits(self, code, number)
    }

    fn step(&mut self, code: &Code, number: u32) -> Result<(), Halted> {
        Moment::step(self, code, number)
    }
}

/// Runs code in turn: rounds in which each thread that waits makes one step, and then the final block. Nobody makes more
/// steps than the budget. The gate is passed once before each step.
pub fn run<G: Gate>(alloc: Global, code: &Code, budget: u64, gate: &G) -> Result<Report, Halted>
    requires { length code.now.threads < 2 ^ 32 - 1 }
    ensures { MatchResult result (IsReport (code_tree code.now) budget)
        (Halts ((sigma : List ℕ) × IsStuck (code_tree code.now) sigma)) }
{
    let mut moment = Moment::start(alloc, code)?;
    let steps = run_in_turn(alloc, code, budget, gate, &mut moment)?;
    let ended = how_ended(code, &moment);
    let store = moment.store;
    Ok(Report {
        ended,
        lines: store.lines,
        steps,
        words: store.words,
        cells: store.cells,
    })
}

/// The first that still waits.
fn how_ended(code: &Code, moment: &Moment) -> Ended
    requires made { IsMomentOf code.now moment.now }
    requires few { length code.now.threads < 2 ^ 32 - 1 }
    ensures { HasEnded (code_tree code.now) (config_of code.now moment.now) result }
{
    for number in 0..code.threads.len() as u32 + 1 {
        if moment.waits(code, number) {
            return Ended::Budget(number);
        }
    }
    Ended::All
}
