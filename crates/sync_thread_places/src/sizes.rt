//! How much room a thread needs for its places and its locals.

ghost use Rattle.std.specs.Prelude.{◌≡◌, map, OnSome};
ghost use Rattle.sync_thread_places.specs.Places.{local_room, most, nesting, width};

use sync_thread::CodeStmt;

/// How deep the forms of a list stand in one another; nothing where that is no number of a place.
#[cycle(nesting)]
pub fn nesting(list: &[CodeStmt]) -> Option<usize>
    ensures { OnSome result (result ≡ Some (most (map nesting list.now))) }
{
    let mut deepest: usize = 0;
    for statement in list {
        deepest = deepest.max(statement_nesting(statement)?);
    }
    Some(deepest)
}

/// How deep the forms of a statement stand in one another.
#[cycle(nesting)]
fn statement_nesting(statement: &CodeStmt) -> Option<usize>
    ensures { OnSome result (result ≡ Some (nesting statement.now)) }
{
    match statement {
        CodeStmt::If(_, yes, no) => {
            let first = nesting(yes.as_slice())?;
            let second = nesting(no.as_slice())?;
            first.max(second).checked_add(1)
        }
        CodeStmt::Loop(body) => nesting(body.as_slice())?.checked_add(1),
        CodeStmt::Set(_, _)
        | CodeStmt::Read(_, _, _)
        | CodeStmt::Write(_, _, _)
        | CodeStmt::Peek(_, _, _)
        | CodeStmt::Word(_, _, _, _)
        | CodeStmt::Print(_, _)
        | CodeStmt::Next
        | CodeStmt::Break
        | CodeStmt::End => Some(1),
    }
}

/// One more than the largest local that a list sets.
#[cycle(width)]
pub fn width(list: &[CodeStmt]) -> usize
    ensures { result ≡ most (map width list.now) }
{
    let mut widest: usize = 0;
    for statement in list {
        widest = widest.max(statement_width(statement));
    }
    widest
}

/// One more than the largest local that a statement sets.
#[cycle(width)]
fn statement_width(statement: &CodeStmt) -> usize
    ensures { result ≡ width statement.now }
{
    match statement {
        CodeStmt::If(_, yes, no) => width(yes.as_slice()).max(width(no.as_slice())),
        CodeStmt::Loop(body) => width(body.as_slice()),
        CodeStmt::Set(local, _) | CodeStmt::Read(local, _, _) | CodeStmt::Peek(local, _, _) => {
            room(Some(*local))
        }
        CodeStmt::Word(local, _, _, _) => room(*local),
        CodeStmt::Write(_, _, _)
        | CodeStmt::Print(_, _)
        | CodeStmt::Next
        | CodeStmt::Break
        | CodeStmt::End => 0,
    }
}

/// How many places a table needs to have this one.
fn room(local: Option<u32>) -> usize
    ensures { result ≡ local_room local }
{
    match local {
        Some(local) => local as usize + 1,
        None => 0,
    }
}
