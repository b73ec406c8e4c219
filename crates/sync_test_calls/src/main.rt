//! Makes calls that no text makes, and prints what each answers.
#![tactic(auto)]

mod exchanges;
mod machines;
mod pieces;
mod runs;
mod shards;
mod slots;
mod words;

use std::io;

fn main(rt: HostRuntime) -> io::Result<()> {
    words::print_steps(&rt)?;
    let sum = words::sum_of_threads(&rt, rt.alloc());
    println!(rt; "1 added two thousand times by two threads: {sum:?}")?;
    runs::print_events(&rt)?;
    runs::print_run(&rt, 3)?;
    runs::print_run(&rt, 1)?;
    runs::print_run(&rt, 0)?;
    let Some(m) = machines::machine(rt.alloc()) else {
        return println!(rt; "no machine");
    };
    slots::print_slots(&rt, &m)?;
    exchanges::print_exchanges(&rt, &m)?;
    pieces::print_split(&rt, &m)?;
    pieces::print_copy(&rt, &m)
}
