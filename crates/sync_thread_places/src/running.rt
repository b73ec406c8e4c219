//! Running lists of statements between shared steps.

ghost use Rattle.std.specs.Prelude.{◌+◌, ◌<◌, length};
ghost use Rattle.sync_thread_places.specs.Runs.{HasRoom, IsPassed, IsRun, IsRunInside, KeepsRoom};

use crate::leaving::{body_left, mark, set, wait};
use crate::standings::{Hop, Outcome, Standing};
use crate::values::is_met;
use sync_thread::CodeStmt;

/// Runs a list from statement `from` on, up to its next shared step; its own forms have numbers from `depth` on.
#[cycle(running)]
pub fn advance(list: &[CodeStmt], from: usize, depth: usize, standing: &mut Standing) -> Outcome
    requires { HasRoom list.now depth standing.old }
    ensures runs { IsRun list.now from depth standing.old standing.new result }
    ensures keeps { KeepsRoom depth standing.old standing.new result }
{
    for at in from..list.len() {
        match pass(list, at, depth, standing) {
            Outcome::Over => {}
            outcome => return outcome,
        }
    }
    Outcome::Over
}

/// Runs the statement with this number. Where it is over, what stands behind it comes next.
#[cycle(running)]
fn pass(list: &[CodeStmt], at: usize, depth: usize, standing: &mut Standing) -> Outcome
    requires there { at < length list.now }
    requires room { HasRoom list.now depth standing.old }
    ensures runs { IsPassed list.now at depth standing.old standing.new result }
    ensures keeps { KeepsRoom depth standing.old standing.new result }
{
    match &list[at] {
        CodeStmt::Set(local, calc) => set(*local, *calc, standing),
        CodeStmt::Read(_, _, _)
        | CodeStmt::Write(_, _, _)
        | CodeStmt::Peek(_, _, _)
        | CodeStmt::Word(_, _, _, _)
        | CodeStmt::Print(_, _) => wait(at, depth, standing),
        CodeStmt::If(condition, yes, no) => {
            if is_met(*condition, standing.locals.as_slice()) {
                inside(yes.as_slice(), Hop { at, second: false }, depth, standing)
            } else {
                inside(no.as_slice(), Hop { at, second: true }, depth, standing)
            }
        }
        CodeStmt::Loop(body) => {
            let outcome = inside(body.as_slice(), Hop { at, second: false }, depth, standing);
            body_left(outcome)
        }
        CodeStmt::Next => Outcome::Next,
        CodeStmt::Break => Outcome::Break,
        CodeStmt::End => Outcome::End,
    }
}

/// Runs a list of a form from its beginning.
#[cycle(running)]
pub(crate) fn inside(list: &[CodeStmt], hop: Hop, depth: usize, standing: &mut Standing) -> Outcome
    requires { HasRoom list.now (depth + 1) standing.old }
    ensures runs { IsRunInside list.now hop depth standing.old standing.new result }
    ensures keeps { KeepsRoom depth standing.old standing.new result }
{
    let outcome = advance(list, 0, depth + 1, standing);
    mark(hop, depth, outcome, standing);
    outcome
}
