//! Checks the example texts and the texts with their verdicts, which lie in the folder that it is run in.
#![tactic(auto)]

use sqlite_items::Items;
use std::alloc::Global;
use std::{fs, io};
use sync_base::{Refusal, Stop};
use sync_check::{check, list};
use sync_check_sharding::tokenized_machine;
use sync_parse::parse;
use sync_print_spelling::print;

/// The examples, in the order in which they are checked.
const TEXTS: [&str; 22] = [
    "count_to_two.sync",
    "counter.sync",
    "lock.sync",
    "queue.sync",
    "reference_count.sync",
    "ring_buffer.sync",
    "rwlock.sync",
    "spin_lock.sync",
    "steps/cong.sync",
    "steps/cut.sync",
    "steps/inst.sync",
    "steps/parts.sync",
    "steps/read.sync",
    "steps/same.sync",
    "steps/size.sync",
    "steps/split.sync",
    "steps/sum.sync",
    "steps/total.sync",
    "tickets.sync",
    "toggle.sync",
    "transfer.sync",
    "two_counters.sync",
];

/// The verdict of a text, as it is printed.
fn verdict(alloc: Global, text: &[u8]) -> Result<String, io::Error> {
    match check(alloc, text) {
        Ok(scripts) => Ok(format!(in alloc; "accepted {scripts}")?),
        Err(Stop::Refused(Refusal { line, rule })) => {
            Ok(format!(in alloc; "refused line {line} rule {}", rule.code())?)
        }
        Err(Stop::Memory) => Ok(format!(in alloc; "no memory")?),
    }
}

/// A sum of 65 times this text, in brackets.
fn sum_of(alloc: Global, item: &str) -> Result<String, io::Error> {
    let mut sum = String::new(alloc);
    for k in 0..65 {
        sum.push(if k == 0 { '(' } else { '+' })?;
        sum.push_str(item)?;
    }
    sum.push(')')?;
    Ok(sum)
}

/// A term of 549,249 nodes over this number or name.
fn large_term(alloc: Global, leaf: &str) -> Result<String, io::Error> {
    let mut item = String::new(alloc);
    for _ in 0..64 {
        item.push('-')?;
    }
    item.push_str(leaf)?;
    sum_of(alloc, sum_of(alloc, item.as_str())?.as_str())
}

/// A text whose invariant, in line 2, is over 1,000,000 nodes and begins so.
fn large_formula(alloc: Global, first: &str) -> Result<String, io::Error> {
    let half = large_term(alloc, "x")?;
    Ok(format!(in alloc; "version 1; machine M {{ invariant i():\n{first}{half}\n<= {half}; }}")?)
}

/// A text whose statement in line 3 leaves a value of over 1,000,000 nodes.
fn large_value(alloc: Global) -> Result<String, io::Error> {
    let key = large_term(alloc, "1")?;
    Ok(format!(in alloc;
        "version 1; machine M {{ field m: multiset; transition t() {{\nadd m += [{key}];\nadd m += [{key}]; }} }}"
    )?)
}

/// A text with a script whose step in line 3 adds a formula of this left side to a branch that has half of what it may have.
fn large_branch(alloc: Global, left: &str) -> Result<String, io::Error> {
    let half = large_term(alloc, "x")?;
    Ok(format!(in alloc;
        "version 1; machine M {{ transition t(x) {{ require {half} <= 0; assert 0 <= 1; }} }} proofs {{\nt at 2 by {{\ncut {left} <= 0 as a {{ sum 1 denied; }}\nsum 1 denied; }} }}"
    )?)
}

/// A text whose addition in line 4 promises something of a key of 549,249 nodes twice, with this in line 5.
fn large_promise(alloc: Global, proofs: &str) -> Result<String, io::Error> {
    let key = large_term(alloc, "1")?;
    Ok(format!(in alloc;
        "version 1;\nmachine M {{ field m: persistent_map;\ntransition t() {{ require 1 <= 0;\nadd m += [{key} => 1]; }} }}\n{proofs}"
    )?)
}

/// This name in 62 brackets, each behind 64 minus signs.
fn deep_term(alloc: Global, name: &str) -> Result<String, io::Error> {
    let mut term = String::new(alloc);
    for _ in 0..62 {
        for _ in 0..64 {
            term.push('-')?;
        }
        term.push('(')?;
    }
    term.push_str(name)?;
    for _ in 0..62 {
        term.push(')')?;
    }
    Ok(term)
}

/// A text that proves a term of about 4,000 operations, one inside the other, where it stands for its own name.
fn deep_text(alloc: Global) -> Result<String, io::Error> {
    let term = deep_term(alloc, "a")?;
    Ok(format!(in alloc;
        "version 1; machine M {{ field a: variable; init b() {{ init a = 0; }} transition s() {{ update a = {term}; }} invariant i(): {term} <= 0; }} proofs {{ b keeps i by {{ same; }} s keeps i by {{ sum 1 denied, 1 i; }} }}"
    )?)
}

/// Prints the verdict of a text behind its title.
fn print_verdict(rt: &HostRuntime, title: &str, text: &[u8]) -> io::Result<()> {
    let found = verdict(rt.alloc(), text)?;
    println!(rt; "{title}: {found}")
}

/// The canonical form of a text that keeps the grammar.
fn canonical(alloc: Global, text: &[u8]) -> Option<Items<u8>> {
    let tree = parse(alloc, text).ok()?;
    print(alloc, &tree).ok()
}

/// Whether a text has a canonical form that gets the same verdict, and is its own canonical form.
fn stays_in_canonical_form(alloc: Global, text: &[u8]) -> io::Result<bool> {
    let Some(once) = canonical(alloc, text) else {
        return Ok(false);
    };
    let Some(twice) = canonical(alloc, once.as_slice()) else {
        return Ok(false);
    };
    let first = verdict(alloc, text)?;
    let again = verdict(alloc, once.as_slice())?;
    Ok(first.as_str() == again.as_str() && once.as_slice() == twice.as_slice())
}

/// Prints the verdict of an example, and whether it stays the same in canonical form.
fn print_example(rt: &HostRuntime, name: &str, text: &[u8]) -> io::Result<()> {
    print_verdict(rt, name, text)?;
    if stays_in_canonical_form(rt.alloc(), text)? {
        return Ok(());
    }
    println!(rt; "{name}: another text in canonical form")
}

/// A text with brackets that are needed and brackets that are not.
const BRACKETS: &[u8] =
    b"version 1; machine M { invariant i(): (!((a = -b)) ==> (2 * ((3 * c)) - (d + 007) < nil)) && !(a != b); } proofs { }";

/// Prints a text in canonical form.
fn print_canonical(rt: &HostRuntime, text: &[u8]) -> io::Result<()> {
    match canonical(rt.alloc(), text) {
        Some(bytes) => println!(rt; "{}", str::from_utf8(bytes.as_slice()).unwrap_or("")),
        None => println!(rt; "no canonical form"),
    }
}

/// Whether a text gets the verdict that stands in the line before it; prints those that get another.
fn is_as_wanted(rt: &HostRuntime, case: &str) -> io::Result<bool> {
    let (wanted, text) = case.split_once('\n').unwrap_or((case, ""));
    let text = text.strip_suffix('\n').unwrap_or(text);
    let found = verdict(rt.alloc(), text.as_bytes())?;
    if found.as_str() == wanted {
        return Ok(true);
    }
    print_verdict(rt, wanted, text.as_bytes())?;
    Ok(false)
}

/// Checks the texts of a list, each of which stands behind its verdict.
fn print_verdicts(rt: &HostRuntime, list: &str) -> io::Result<()> {
    let mut right = 0u32;
    let mut all = 0u32;
    for case in list.split("---- ").skip(1) {
        all = all.wrapping_add(1);
        if is_as_wanted(rt, case)? {
            right = right.wrapping_add(1);
        }
    }
    println!(rt; "verdicts.txt: {right} of {all} as wanted")
}

/// Checks texts at the limits of nodes.
fn print_large(rt: &HostRuntime) -> io::Result<()> {
    let alloc = rt.alloc();
    let text = large_formula(alloc, "")?;
    print_verdict(rt, "a large formula", text.as_bytes())?;
    let text = large_formula(alloc, "(\nx) + ")?;
    print_verdict(rt, "a large formula", text.as_bytes())?;
    let text = large_formula(alloc, "x + ")?;
    print_verdict(rt, "a large formula", text.as_bytes())?;
    let text = large_value(alloc)?;
    print_verdict(rt, "a large value", text.as_bytes())?;
    let text = large_branch(alloc, "0")?;
    print_verdict(rt, "a large branch", text.as_bytes())?;
    let half = large_term(alloc, "x")?;
    let text = large_branch(alloc, half.as_str())?;
    print_verdict(rt, "a large branch", text.as_bytes())?;
    let text = large_promise(alloc, "proofs { t at 2 by { same; } }")?;
    print_verdict(rt, "a large promise", text.as_bytes())?;
    let text = large_promise(alloc, "")?;
    print_verdict(rt, "a large promise", text.as_bytes())?;
    let text = deep_text(alloc)?;
    print_verdict(rt, "a deep term", text.as_bytes())
}

/// Prints how many operations the tokenized machine of a text has, or the rule that the text breaks.
fn print_machine(rt: &HostRuntime, title: &str, text: &[u8]) -> io::Result<()> {
    match tokenized_machine(rt.alloc(), text) {
        Ok(proved) => {
            let operations = proved.machine().ops.len();
            println!(rt; "{title}: a machine of {operations} operations")
        }
        Err(Stop::Refused(Refusal { line, rule })) => {
            println!(rt; "{title}: refused line {line} rule {}", rule.code())
        }
        Err(Stop::Memory) => println!(rt; "{title}: no memory"),
    }
}

/// Prints what has to be proved of a text's machine, or the rule that the text breaks.
fn print_obligations(rt: &HostRuntime, text: &[u8]) -> io::Result<()> {
    match list(rt.alloc(), text) {
        Ok(lines) => {
            for line in lines.as_slice() {
                print!(rt; "{}", str::from_utf8(line.as_slice()).unwrap_or(""))?;
            }
            Ok(())
        }
        Err(Stop::Refused(Refusal { line, rule })) => {
            println!(rt; "refused line {line} rule {}", rule.code())
        }
        Err(Stop::Memory) => println!(rt; "no memory"),
    }
}

/// Lists what has to be proved where proofs are missing, wrong or stray, and where a rule is broken before them.
fn print_listings(rt: &HostRuntime) -> io::Result<()> {
    print_obligations(rt, &fs::read(rt, "count_to_two.sync")?)?;
    print_obligations(
        rt,
        b"version 1;
machine M {
field c: variable;
init b() { init c = 0; }
transition t() { require c <= 1; update c = c + 1; assert c <= 1; }
property p() { assert c <= 2; }
invariant i(): c <= 2; }
proofs {
t keeps i by { sum 2 denied; }
b at 1 by { same; }
p at 7 by { sum 1 missing; } }
",
    )?;
    print_obligations(
        rt,
        b"version 1;
machine M { field c: variable; init b() { init c = 0; }
transition u() { update c = 1;
update c = 1; }
invariant i(): c <= 1; }
",
    )
}

fn main(rt: HostRuntime) -> io::Result<()> {
    for name in TEXTS {
        let text = fs::read(&rt, name)?;
        print_example(&rt, name, &text)?;
    }
    print_canonical(&rt, b"version 1;\nmachine Z { }\nproofs { }\n")?;
    print_canonical(&rt, BRACKETS)?;
    let list = fs::read_to_string(&rt, "verdicts.txt")?;
    print_verdicts(&rt, list.as_str())?;
    print_listings(&rt)?;
    print_large(&rt)?;
    let text = fs::read(&rt, "spin_lock.sync")?;
    print_machine(&rt, "spin_lock.sync", &text)?;
    print_machine(
        &rt,
        "no field",
        b"version 1;\nmachine Z {\ninvariant i(): a = 0; }",
    )
}
