//! Going on behind a shared step, out of the forms round it.

ghost use Rattle.std.specs.Prelude.{◌≡◌, ◌+◌, [], ◌∷◌, ◌<◌, length, MatchOption, OnSome};
ghost use Rattle.sync_thread_places.specs.Places.{way_from};
ghost use Rattle.sync_thread_places.specs.Runs.{HasRoom, IsResumed, IsResumedInside, IsReturned, KeepsRoom};

use crate::leaving::{body_left, mark};
use crate::running::{advance, inside};
use crate::standings::{Hop, Outcome, Standing};
use sync_thread::CodeStmt;

/// The form number `depth` of a standing's way.
fn hop_at(standing: &Standing, depth: usize) -> Option<Hop>
    ensures hop { MatchOption result (way_from depth standing.now ≡ [])
        (λ hop. way_from depth standing.now ≡ hop ∷ way_from (depth + 1) standing.now) }
    ensures within { OnSome result (depth < standing.now.depth) }
{
    if depth < standing.depth {
        standing.hops.get(depth).copied()
    } else {
        None
    }
}

/// Goes on from statement `from` of the list at the end of the way, up to the next shared step.
#[cycle(resuming)]
pub fn resume(list: &[CodeStmt], depth: usize, from: usize, standing: &mut Standing) -> Outcome
    requires { HasRoom list.now depth standing.old }
    ensures runs { IsResumed list.now depth from standing.old standing.new result }
    ensures keeps { KeepsRoom depth standing.old standing.new result }
{
    let Some(hop) = hop_at(standing, depth) else {
        return advance(list, from, depth, standing);
    };
    if hop.at >= list.len() {
        return Outcome::Stuck;
    }
    match form_left(list, hop, depth, from, standing) {
        Outcome::Over => advance(list, hop.at + 1, depth, standing),
        outcome => outcome,
    }
}

/// Goes on inside a form, up to its end.
#[cycle(resuming)]
fn form_left(
    list: &[CodeStmt],
    hop: Hop,
    depth: usize,
    from: usize,
    standing: &mut Standing,
) -> Outcome
    requires there { hop.at < length list.now }
    requires way { way_from depth standing.old ≡ hop ∷ way_from (depth + 1) standing.old }
    requires room { HasRoom list.now depth standing.old }
    ensures runs { IsReturned list.now hop.at depth from standing.old standing.new result }
    ensures keeps { KeepsRoom depth standing.old standing.new result }
{
    match &list[hop.at] {
        CodeStmt::If(_, yes, no) => {
            if hop.second {
                resume_inside(no.as_slice(), hop, depth, from, standing)
            } else {
                resume_inside(yes.as_slice(), hop, depth, from, standing)
            }
        }
        CodeStmt::Loop(body) => match resume_inside(body.as_slice(), hop, depth, from, standing) {
            Outcome::Next => body_left(inside(body.as_slice(), hop, depth, standing)),
            outcome => body_left(outcome),
        },
        CodeStmt::Set(_, _)
        | CodeStmt::Read(_, _, _)
        | CodeStmt::Write(_, _, _)
        | CodeStmt::Peek(_, _, _)
        | CodeStmt::Word(_, _, _, _)
        | CodeStmt::Print(_, _)
        | CodeStmt::Next
        | CodeStmt::Break
        | CodeStmt::End => Outcome::Stuck,
    }
}

/// Goes on inside a list of a form.
#[cycle(resuming)]
fn resume_inside(
    list: &[CodeStmt],
    hop: Hop,
    depth: usize,
    from: usize,
    standing: &mut Standing,
) -> Outcome
    requires { HasRoom list.now (depth + 1) standing.old }
    ensures runs { IsResumedInside list.now hop depth from standing.old standing.new result }
    ensures keeps { KeepsRoom depth standing.old standing.new result }
{
    let outcome = resume(list, depth + 1, from, standing);
    mark(hop, depth, outcome, standing);
    outcome
}
