//! What a thread asks of what it shares with others.

ghost use Rattle.std.specs.Prelude.{◌≡◌, ◌<◌, Err, IfSome, MatchOption, Ok};
ghost use Rattle.sync_thread.specs.declared.program.CodeStmt.{out-CodeStmt};
ghost use Rattle.sync_thread.specs.Code.{number_in};
ghost use Rattle.sync_thread.specs.Control.{Broken};
ghost use Rattle.sync_thread_places.specs.Places.{locals_in, width};
ghost use Rattle.sync_thread_places.specs.Values.{operand_in};
ghost use Rattle.sync_thread_events.specs.Steps.{AreNarrow, asked_by, asked_word, local_in, shared_of, span_in, spanned};

use crate::steps::{SharedStep, Span, Spans, WordStep};
use sync_thread::{CodeStmt, Opd, WordOp};
use sync_thread_places::value;

/// The shared step that a statement asks for; nothing where it asks for none, or for no word or cell that is there.
pub fn asked(statement: &CodeStmt, spans: &Spans, locals: &[u64]) -> Option<SharedStep>
    requires words { AreNarrow spans.now.words.items }
    requires cells { AreNarrow spans.now.cells.items }
    ensures { MatchOption result (asked_by spans.now (locals_in locals.now) statement.now ≡ Err Broken)
        (λ step. asked_by spans.now (locals_in locals.now) statement.now ≡ Ok step) }
{
    match statement {
        CodeStmt::Read(_, cell, index) | CodeStmt::Peek(_, cell, index) => {
            let cell = number(spans.cells.as_slice(), *cell, *index, locals)?;
            Some(SharedStep::Read(cell))
        }
        CodeStmt::Write(cell, index, operand) => {
            let cell = number(spans.cells.as_slice(), *cell, *index, locals)?;
            Some(SharedStep::Write(cell, value(*operand, locals)))
        }
        CodeStmt::Word(_, op, word, index) => {
            let word = number(spans.words.as_slice(), *word, *index, locals)?;
            Some(SharedStep::Word(word, word_step(*op, locals)))
        }
        CodeStmt::Print(label, operand) => Some(SharedStep::Print(*label, value(*operand, locals))),
        CodeStmt::Set(_, _)
        | CodeStmt::If(_, _, _)
        | CodeStmt::Loop(_)
        | CodeStmt::Next
        | CodeStmt::Break
        | CodeStmt::End => None,
    }
}

/// The local into which a statement puts what its shared step finds.
pub fn local_of(statement: &CodeStmt) -> Option<u32>
    ensures local { result ≡ local_in (shared_of (out-CodeStmt statement.now)) }
    ensures within { IfSome result (λ x. x < width statement.now) }
{
    match statement {
        CodeStmt::Read(local, _, _) | CodeStmt::Peek(local, _, _) => Some(*local),
        CodeStmt::Word(local, _, _, _) => *local,
        CodeStmt::Write(_, _, _)
        | CodeStmt::Print(_, _)
        | CodeStmt::Set(_, _)
        | CodeStmt::If(_, _, _)
        | CodeStmt::Loop(_)
        | CodeStmt::Next
        | CodeStmt::Break
        | CodeStmt::End => None,
    }
}

/// The array of this name.
fn span(spans: &[Option<Span>], name: u32) -> Option<Span>
    ensures { result ≡ span_in spans.now name }
{
    match spans.get(name as usize) {
        Some(span) => *span,
        None => None,
    }
}

/// The number of a word or cell of the array of this name; nothing where the index leaves its range.
fn number(spans: &[Option<Span>], name: u32, index: Opd, locals: &[u64]) -> Option<usize>
    requires { AreNarrow spans.now }
    ensures { MatchOption result
        (number_in (spanned (span_in spans.now name)) (operand_in (locals_in locals.now) index) ≡ Err Broken)
        (λ n. number_in (spanned (span_in spans.now name)) (operand_in (locals_in locals.now) index) ≡ Ok n) }
{
    let span = span(spans, name)?;
    let index = value(index, locals);
    if index < span.len as u64 {
        Some(span.base + index as usize)
    } else {
        None
    }
}

/// An operation with its values.
fn word_step(op: WordOp, locals: &[u64]) -> WordStep
    ensures { result ≡ asked_word (operand_in (locals_in locals.now)) op }
{
    match op {
        WordOp::Load => WordStep::Load,
        WordOp::Store(a) => WordStep::Store(value(a, locals)),
        WordOp::Swap(a) => WordStep::Swap(value(a, locals)),
        WordOp::Add(a) => WordStep::Add(value(a, locals)),
        WordOp::Sub(a) => WordStep::Sub(value(a, locals)),
        WordOp::Cas(a, b) => WordStep::Cas(value(a, locals), value(b, locals)),
    }
}
