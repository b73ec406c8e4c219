//! Erases the programs of the texts that lie in the folder that it is run in, and prints their code.
#![tactic(auto)]

use std::alloc::Global;
use std::{fs, io};
use sync_base::{Refusal, Stop};
use sync_check::read;
use sync_erase::{erase, print_code};

/// The texts, in the order in which they are erased.
const TEXTS: [&str; 3] = ["counter.sync", "statements.sync", "empty.sync"];

/// The erased form of a text's program.
fn erased_form(alloc: Global, text: &[u8]) -> Result<Vec<u8>, Stop> {
    let text = read(alloc, text)?;
    let code = erase(alloc, &text.program)?;
    Ok(print_code(alloc, &code, &text.names)?)
}

/// Prints the erased form of a text's program, or the rule that the text breaks.
fn print_erased(rt: &HostRuntime, name: &str, text: &[u8]) -> io::Result<()> {
    println!(rt; "{name}:")?;
    match erased_form(rt.alloc(), text) {
        Ok(form) => print!(rt; "{}", str::from_utf8(&form).unwrap_or("")),
        Err(Stop::Refused(Refusal { line, rule })) => {
            println!(rt; "refused line {line} rule {}", rule.code())
        }
        Err(Stop::Memory) => println!(rt; "no memory"),
    }
}

fn main(rt: HostRuntime) -> io::Result<()> {
    for name in TEXTS {
        let text = fs::read(&rt, name)?;
        print_erased(&rt, name, &text)?;
    }
    Ok(())
}
