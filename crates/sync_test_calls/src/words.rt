//! Steps on shared words, by hand and by two threads that add to one word.
ghost use Rattle.std.specs.Prelude.{◌≡◌, ◌<◌, true, length};
ghost use Rattle.sync_words.specs.Views.{IsSameSeat};
ghost use Rattle.sync_words.specs.Names.{view, Belongs};
ghost use Rattle.sync_words.specs.Steps.{MayStep};

use std::alloc::Global;
use std::io;
use std::thread::{Threads, join_mut};
use sync_words::{Seat, Words};

/// Prints what steps of two seats on a word of 5 answer, and what it is at the end.
pub(crate) fn print_steps(rt: &HostRuntime) -> io::Result<()> {
    let Ok((words, mut first)) = Words::new(rt.alloc(), &[5], 2) else {
        return println!(rt; "no memory");
    };
    let mut second = words.split(&mut first, 1);
    let added = words.add(&mut first, 0, 0, 3);
    let changed = words.cas(&mut second, 1, 0, 8, 1);
    let loaded = words.load(&mut first, 0, 0);
    let kept = words.cas(&mut first, 0, 0, 8, 2);
    words.merge(&mut first, second);
    let last = words.finish(first).word(0);
    println!(rt;
        "5 with 3 added: {added}, 8 to 1: {changed}, now {loaded}, 8 to 2: {kept}, last {last}"
    )
}

/// Adds 1 to the first word a thousand times.
fn add_often(words: &Words, seat: &mut Seat, t: u32)
    requires { MayStep words.now seat.old t 0 }
    ensures own { Belongs words.now seat.new }
    ensures same { IsSameSeat (view seat.old) (view seat.new) }
{
    for i in 0..1000 {
        words.add(seat, t, 0, 1);
    }
}

/// Both seats add, side by side.
fn add_from_both<R: Threads + Sync>(rt: &R, words: &Words, first: &mut Seat, second: &mut Seat)
    requires first { MayStep words.now first.old 0 0 }
    requires second { MayStep words.now second.old 1 0 }
    ensures own { Belongs words.now first.new × Belongs words.now second.new }
    ensures same { IsSameSeat (view first.old) (view first.new) × IsSameSeat (view second.old) (view second.new) }
{
    join_mut(
        rt,
        &mut ||
            requires { MayStep words.now first.now 0 0 }
            ensures { Belongs words.entry.now first.exit.now × IsSameSeat (view first.entry.now) (view first.exit.now) }
        { add_often(words, first, 0) },
        &mut ||
            requires { MayStep words.now second.now 1 0 }
            ensures { Belongs words.entry.now second.exit.now × IsSameSeat (view second.entry.now) (view second.exit.now) }
        { add_often(words, second, 1) },
    );
}

/// What a word is to which two threads added 1 a thousand times each.
pub(crate) fn sum_of_threads<R: Threads + Sync>(rt: &R, alloc: Global) -> Option<u64> {
    let Ok((words, mut first)) = Words::new(alloc, &[0], 2) else {
        return None;
    };
    let mut second = words.split(&mut first, 1);
    add_from_both(rt, &words, &mut first, &mut second);
    words.merge(&mut first, second);
    Some(words.finish(first).word(0))
}
