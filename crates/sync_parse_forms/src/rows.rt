//! Items in a row, and in a list with commas.
ghost use Rattle.std.specs.Prelude.{◌≡◌, Bool, List};
ghost use Rattle.sync_lex.specs.declared.terminals.Terminal.{Terminal};
ghost use Rattle.sync_parse_exprs.specs.Faults.{Reads};
ghost use Rattle.sync_parse_exprs.specs.Terminals.{series};
ghost use Rattle.sync_parse_forms.specs.Readings.{Levelled, a_row, a_list};

use sqlite_items::Items;
use std::alloc::Global;
use sync_lex::{Sign, Terminal};
use sync_parse_exprs::{Read, begins_with, next};

/// What rows repeat.
pub trait RowItem {
    type Value: Drop;

    ghost begins: { List Terminal → Bool };

    ghost reads: { Levelled Self.Value };

    /// Whether an item begins here.
    fn begins(terminals: &[Terminal]) -> bool
        ensures { result ≡ begins terminals.now };

    fn read<'a>(alloc: Global, terminals: &'a [Terminal], left: u32) -> Read<'a, Self::Value>
        ensures { Reads (λ x. (x.0, x.1.now)) result (reads left terminals.now) };
}

/// What lists repeat.
pub trait ListItem {
    type Value: Drop;

    ghost reads: { Levelled Self.Value };

    fn read<'a>(alloc: Global, terminals: &'a [Terminal], left: u32) -> Read<'a, Self::Value>
        ensures { Reads (λ x. (x.0, x.1.now)) result (reads left terminals.now) };
}

/// Items, as long as one begins.
#[tactic(auto, unfolding(sync_parse_exprs::specs::Terminals::row))]
pub fn in_row<'a, P: RowItem>(
    alloc: Global,
    terminals: &'a [Terminal],
    left: u32,
) -> Read<'a, Items<P::Value>>
    ensures { Reads (λ x. (x.0, x.1.now)) result (a_row P.begins P.reads left terminals.now) }
{
    let mut held = Items::new(alloc);
    let mut rest = terminals;
    for _ in 0..terminals.len() {
        if P::begins(rest) {
            let (item, after) = P::read(alloc, rest, left)?;
            held.push(item)?;
            rest = after;
        } else {
            return Ok((held, rest));
        }
    }
    Ok((held, rest))
}

/// Items with commas between, at least one.
#[tactic(auto, unfolding(sync_parse_exprs::specs::Terminals::series, sync_parse_exprs::specs::Terminals::behind_commas))]
fn in_series<'a, P: ListItem>(
    alloc: Global,
    terminals: &'a [Terminal],
    left: u32,
) -> Read<'a, Items<P::Value>>
    ensures { Reads (λ x. (x.0, x.1.now)) result (series (P.reads left) terminals.now) }
{
    let (first, mut rest) = P::read(alloc, terminals, left)?;
    let mut held = Items::new(alloc);
    held.push(first)?;
    for _ in 0..rest.len() {
        let Some((terminal, after)) = next(rest) else {
            return Ok((held, rest));
        };
        if !terminal.is(Sign::Comma) {
            return Ok((held, rest));
        }
        let (item, after) = P::read(alloc, after, left)?;
        held.push(item)?;
        rest = after;
    }
    Ok((held, rest))
}

/// Items with commas between, or nothing where the sign comes that ends the list.
#[tactic(auto, unfolding(sync_parse_exprs::specs::Terminals::listed))]
pub fn in_list<'a, P: ListItem>(
    alloc: Global,
    terminals: &'a [Terminal],
    left: u32,
    close: Sign,
) -> Read<'a, Items<P::Value>>
    ensures { Reads (λ x. (x.0, x.1.now)) result (a_list close P.reads left terminals.now) }
{
    if begins_with(terminals, close) {
        Ok((Items::new(alloc), terminals))
    } else {
        in_series::<P>(alloc, terminals, left)
    }
}
