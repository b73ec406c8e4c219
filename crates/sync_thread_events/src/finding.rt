//! Where a thread waits.

ghost use Rattle.std.specs.Prelude.{◌≡◌, ◌+◌, [], ◌∷◌, ◌<◌, ◌≤◌, length, map, IfNone, IfSome, MatchOption, None, OnSome};
ghost use Rattle.sync_thread_places.specs.Places.{LeadsTo, led_to, most, way_from, width};
ghost use Rattle.sync_thread_places.specs.Runs.{HasRoom};

use sync_thread::CodeStmt;
use sync_thread_places::{Hop, Standing};

/// The form number `depth` of a standing's way.
fn form(standing: &Standing, depth: usize) -> Option<Hop>
    ensures hop { MatchOption result (way_from depth standing.now ≡ [])
        (λ hop. way_from depth standing.now ≡ hop ∷ way_from (depth + 1) standing.now) }
    ensures within { OnSome result (depth < standing.now.depth) }
{
    if depth < standing.depth {
        standing.hops.get(depth).copied()
    } else {
        None
    }
}

/// The list to which a standing's way leads from its form number `depth` on.
pub fn list_at<'a>(
    list: &'a [CodeStmt],
    depth: usize,
    standing: &Standing,
) -> Option<&'a [CodeStmt]>
    requires { HasRoom list.now depth standing.now }
    ensures leads { IfSome result (λ inner. LeadsTo (way_from depth standing.now) list.now inner.now) }
    ensures room { IfSome result (λ inner. most (map width inner.now) ≤ length standing.now.locals.items) }
    ensures none { IfNone result (led_to (way_from depth standing.now) list.now ≡ None) }
{
    let Some(hop) = form(standing, depth) else {
        return Some(list);
    };
    if hop.at >= list.len() {
        return None;
    }
    match &list[hop.at] {
        CodeStmt::If(_, yes, no) => {
            if hop.second {
                list_at(no.as_slice(), depth + 1, standing)
            } else {
                list_at(yes.as_slice(), depth + 1, standing)
            }
        }
        CodeStmt::Loop(body) => list_at(body.as_slice(), depth + 1, standing),
        CodeStmt::Set(_, _)
        | CodeStmt::Read(_, _, _)
        | CodeStmt::Write(_, _, _)
        | CodeStmt::Peek(_, _, _)
        | CodeStmt::Word(_, _, _, _)
        | CodeStmt::Print(_, _)
        | CodeStmt::Next
        | CodeStmt::Break
        | CodeStmt::End => None,
    }
}
