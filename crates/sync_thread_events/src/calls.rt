//! The start of code that fits, and its events.

ghost use Rattle.std.specs.Prelude.{◌≡◌, ◌≤◌, length, IfOk, Ok, OnOk};
ghost use Rattle.sync_thread.specs.Code.{code_meaning, erased_start, Fits};
ghost use Rattle.sync_thread.specs.Control.{event};
ghost use Rattle.sync_thread.specs.Views.{code_tree};
ghost use Rattle.sync_thread_events.specs.Calls.{HasNoEvent, IsLeft, MovesUnless};
ghost use Rattle.sync_thread_events.specs.Moments.{config_of};

use crate::endings::Halted;
use crate::moments::Moment;
use std::alloc::Global;
use sync_base::NoMemory;
use sync_thread::{Code, Moved};

/// Where code has come to.
pub type ErasedConfig = Moment;

/// The start, with the leading local statements done.
pub fn start_config(alloc: Global, code: &Code) -> Result<ErasedConfig, NoMemory>
    requires { Fits (code_tree code.now) }
    ensures starts { IfOk result (λ config. erased_start (code_tree code.now) ≡ Ok (config_of code.now config)) }
    ensures left { IfOk result (IsLeft code.now) }
{
    match Moment::start(alloc, code) {
        Ok(moment) => Ok(moment),
        Err(Halted::Memory) => Err(NoMemory),
        Err(Halted::Stuck) => unreachable!(),
    }
}

/// One event of a thread, or of the final block where `t` is the number of threads: its shared step, and what follows up
/// to the next one. `Nothing` comes exactly where the thread has ended, or it is the final block and a thread has not.
pub fn erased_event(code: &Code, t: u32, config: &mut ErasedConfig) -> Result<Moved, NoMemory>
    requires fits { Fits (code_tree code.now) }
    requires known { t ≤ length code.now.threads }
    requires left { IsLeft code.now config.old }
    ensures left { OnOk result (IsLeft code.now config.new) }
    ensures moved { IfOk result (MovesUnless (HasNoEvent (code_tree code.now) t (config_of code.now config.old))) }
    ensures goes { OnOk result (event (code_meaning (code_tree code.now)) t (config_of code.now config.old)
        ≡ Ok (config_of code.now config.new)) }
{
    match config.event(code, t) {
        Ok(moved) => Ok(moved),
        Err(Halted::Memory) => Err(NoMemory),
        Err(Halted::Stuck) => unreachable!(),
    }
}
