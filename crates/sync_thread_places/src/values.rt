//! What operands, conditions and calculations are in given locals.

ghost use Rattle.std.specs.Prelude.{◌≡◌, MatchOption};
ghost use Rattle.sync_thread.specs.Code.{calculated};
ghost use Rattle.sync_thread.specs.Control.{Broken};
ghost use Rattle.sync_thread_places.specs.Places.{locals_in};
ghost use Rattle.sync_thread_places.specs.Values.{operand_in, is_met_in};

use sync_thread::{Calc, Cond, Opd, Rel};

/// The value of an operand.
pub fn value(operand: Opd, locals: &[u64]) -> u64
    ensures { result ≡ operand_in (locals_in locals.now) operand }
{
    match operand {
        Opd::Number(number) => number,
        Opd::Local(local) => match locals.get(local as usize) {
            Some(number) => *number,
            None => 0,
        },
    }
}

/// Whether a condition holds.
pub(crate) fn is_met(condition: Cond, locals: &[u64]) -> bool
    ensures { result ≡ is_met_in (locals_in locals.now) condition }
{
    let left = value(condition.left, locals);
    let right = value(condition.right, locals);
    match condition.rel {
        Rel::Eq => left == right,
        Rel::Ne => left != right,
        Rel::Lt => left < right,
        Rel::Le => left <= right,
    }
}

/// What is calculated; nothing where a divisor is 0.
pub(crate) fn calculate(calc: Calc, locals: &[u64]) -> Option<u64>
    ensures { MatchOption result (calculated (operand_in (locals_in locals.now)) calc ≡ Err Broken)
        (λ n. calculated (operand_in (locals_in locals.now)) calc ≡ Ok n) }
{
    match calc {
        Calc::Plain(a) => Some(value(a, locals)),
        Calc::Plus(a, b) => Some(value(a, locals).wrapping_add(value(b, locals))),
        Calc::Minus(a, b) => Some(value(a, locals).wrapping_sub(value(b, locals))),
        Calc::Times(a, n) => Some(value(a, locals).wrapping_mul(n)),
        Calc::Over(a, n) => value(a, locals).checked_div(n),
        Calc::Modulo(a, n) => value(a, locals).checked_rem(n),
    }
}
