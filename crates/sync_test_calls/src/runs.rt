//! Code of two threads that count a word to two, and of a final block that prints it.
ghost use Rattle.std.specs.Prelude.{◌≡◌, ◌≤◌, length, IfOk, OnOk};
ghost use Rattle.sync_thread.specs.Views.{code_thread_tree, code_tree};
ghost use Rattle.sync_thread_events.specs.Calls.{IsLeft};
ghost use Rattle.sync_test_calls.specs.Counting.{adding_tree, counting_tree};

use sqlite_items::Items;
use std::alloc::{AllocError, Global};
use std::io;
use sync_base::OpenGate;
use sync_run::{Report, run};
use sync_thread::{Code, CodeDecl, CodeStmt, CodeThread, Opd, WordOp};
use sync_thread_events::{ErasedConfig, erased_event, start_config};

/// The word that both threads add to.
const WORD: u32 = 0;

/// The local of a thread in which it keeps what it found.
const FOUND: u32 = 3;

/// The local into which the final block loads the word, and the label of its line.
const SUM: u32 = 4;

const RESULT: u32 = 5;

/// A thread of this name, which adds 1 to the word.
fn adding(alloc: Global, name: u32) -> Result<CodeThread, AllocError>
    ensures { IfOk result (λ thread. code_thread_tree thread ≡ record { name = name; body = adding_tree }) }
{
    let mut body = Items::new(alloc);
    let one = Opd::Number(1);
    body.push(CodeStmt::Word(Some(FOUND), WordOp::Add(one), WORD, Opd::Number(0)))?;
    body.push(CodeStmt::End)?;
    Ok(CodeThread { name, body })
}

fn counting(alloc: Global) -> Result<Code, AllocError>
    ensures { IfOk result (λ code. code_tree code ≡ counting_tree) }
{
    let mut decls = Items::new(alloc);
    decls.push(CodeDecl::Word(WORD, 1, 0))?;
    let mut threads = Items::new(alloc);
    threads.push(adding(alloc, 1)?)?;
    threads.push(adding(alloc, 2)?)?;
    let mut last = Items::new(alloc);
    last.push(CodeStmt::Word(Some(SUM), WordOp::Load, WORD, Opd::Number(0)))?;
    last.push(CodeStmt::Print(RESULT, Opd::Local(SUM)))?;
    Ok(Code {
        decls,
        threads,
        last: Some(last),
    })
}

/// Prints what an event answers.
fn print_event(
    rt: &HostRuntime,
    code: &Code,
    number: u32,
    config: &mut ErasedConfig,
) -> io::Result<()>
    requires code { code_tree code.now ≡ counting_tree }
    requires known { number ≤ 2 }
    requires left { IsLeft code.now config.old }
    ensures { OnOk result (IsLeft code.now config.new) }
{
    let Ok(moved) = erased_event(code, number, config) else {
        return Err(io::Error::other("no memory"));
    };
    println!(rt; "event of {number}: {moved:?}")
}

/// Prints what each event of a schedule answers, and what they leave.
pub(crate) fn print_events(rt: &HostRuntime) -> io::Result<()> {
    let Ok(code) = counting(rt.alloc()) else {
        return println!(rt; "no memory");
    };
    let Ok(mut config) = start_config(rt.alloc(), &code) else {
        return println!(rt; "no memory");
    };
    print_event(rt, &code, 2, &mut config)?;
    print_event(rt, &code, 0, &mut config)?;
    print_event(rt, &code, 0, &mut config)?;
    print_event(rt, &code, 1, &mut config)?;
    print_event(rt, &code, 2, &mut config)?;
    print_event(rt, &code, 2, &mut config)?;
    for line in &config.store.lines {
        println!(rt; "label {} value {}", line.label, line.value)?;
    }
    println!(rt; "words {:?}", config.store.words)
}

/// Prints the report of a run with this budget.
pub(crate) fn print_run(rt: &HostRuntime, budget: u64) -> io::Result<()> {
    let Ok(code) = counting(rt.alloc()) else {
        return println!(rt; "no memory");
    };
    match run(rt.alloc(), &code, budget, &OpenGate) {
        Ok(report) => print_report(rt, budget, &report),
        Err(halted) => println!(rt; "{halted:?}"),
    }
}

fn print_report(rt: &HostRuntime, budget: u64, report: &Report) -> io::Result<()> {
    for line in &report.lines {
        println!(rt; "label {} value {}", line.label, line.value)?;
    }
    println!(rt;
        "run with {budget}: {:?}, steps {:?}, words {:?}",
        report.ended, report.steps, report.words
    )
}
