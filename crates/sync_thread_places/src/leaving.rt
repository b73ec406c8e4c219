//! What a statement leaves of a standing, and how a loop goes on from its body.

ghost use Rattle.std.specs.Prelude.{◌≡◌, ◌<◌, length};
ghost use Rattle.sync_thread.specs.Code.{calculated};
ghost use Rattle.sync_thread_places.specs.Places.{locals_in};
ghost use Rattle.sync_thread_places.specs.Runs.{IsMarked, IsSet, KeepsRoom, after_body};
ghost use Rattle.sync_thread_places.specs.Values.{operand_in};

use crate::standings::{Hop, Outcome, Standing};
use crate::values::calculate;
use sync_thread::Calc;

/// A calculation into a local; stuck where a divisor is 0.
pub(crate) fn set(local: u32, calc: Calc, standing: &mut Standing) -> Outcome
    requires { local < length standing.old.locals.items }
    ensures sets { IsSet (calculated (operand_in (locals_in standing.old.locals.items)) calc) local
        standing.old.locals.items standing.new.locals.items result }
    ensures hops { standing.new.hops ≡ standing.old.hops }
{
    match calculate(calc, standing.locals.as_slice()) {
        Some(number) => {
            standing.locals[local as usize] = number;
            Outcome::Over
        }
        None => Outcome::Stuck,
    }
}

/// The statement with this number, in a list whose forms have numbers from `depth` on, is the next step.
pub(crate) fn wait(at: usize, depth: usize, standing: &mut Standing) -> Outcome
    ensures waits { result ≡ Outcome.Waits }
    ensures there { standing.new ≡ record standing.old { depth = depth; at = at } }
{
    standing.depth = depth;
    standing.at = at;
    Outcome::Waits
}

/// Puts a form before the way of a standing that waits inside it.
pub(crate) fn mark(hop: Hop, depth: usize, outcome: Outcome, standing: &mut Standing)
    requires room { depth < length standing.old.hops.items }
    requires deep { outcome ≡ Outcome.Waits → depth < standing.old.depth }
    ensures marks { IsMarked hop depth outcome standing.old standing.new }
    ensures keeps { KeepsRoom depth standing.old standing.new outcome }
{
    if let Outcome::Waits = outcome {
        standing.hops[depth] = hop;
    }
}

/// How a loop's statement ends where its body, begun since the last step, ended so.
pub(crate) fn body_left(outcome: Outcome) -> Outcome
    ensures { result ≡ after_body outcome }
{
    match outcome {
        Outcome::Break => Outcome::Over,
        Outcome::Next | Outcome::Over => Outcome::Stuck,
        Outcome::Waits | Outcome::End | Outcome::Stuck => outcome,
    }
}
