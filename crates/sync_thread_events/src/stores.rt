//! Who does shared steps; and words, cells and lines in the hands of one thread.

ghost use Rattle.std.specs.Prelude.{◌≡◌, ℕ, IfOk, OnErr, OnOk};
ghost use Rattle.sync_thread_events.specs.declared.steps.SharedStep.{SharedStep};
ghost use Rattle.sync_thread_events.specs.Steps.{cells_after, found_by, lines_after, words_after, worked};
ghost use Rattle.sync_thread_events.specs.Doing.{HasDone};

use crate::steps::{SharedStep, WordStep};
use std::alloc::AllocError;
use sync_thread::Line;

/// Who does the shared steps of a thread.
pub trait Steps {
    /// The step was done on what was there, found a value, and left what is there now.
    ghost does: { SharedStep → Self → ℕ → Self → Type 0 };

    /// Does a step, and answers what it found in its word or cell; 0 where it looks at none.
    fn perform(&mut self, step: SharedStep) -> Result<u64, AllocError>
        ensures { IfOk result (λ found. does step self.old found self.new) };
}

/// Words and cells by their numbers, and the lines that were printed.
#[derive(Drop)]
pub struct Store {
    pub words: Vec<u64>,
    pub cells: Vec<u64>,
    pub lines: Vec<Line>,
}

impl Steps for Store {
    ghost does = { HasDone };

    /// Without memory nothing is done.
    fn perform(&mut self, step: SharedStep) -> Result<u64, AllocError>
        ensures done { IfOk result (λ found. HasDone step self.old found self.new) }
        ensures found { OnOk result (result ≡ Ok (found_by step self.old.words.items self.old.cells.items)) }
        ensures words { OnOk result (self.new.words.items ≡ words_after step self.old.words.items) }
        ensures cells { OnOk result (self.new.cells.items ≡ cells_after step self.old.cells.items) }
        ensures lines { OnOk result (self.new.lines.items ≡ lines_after step self.old.lines.items) }
        ensures unchanged { OnErr result ((self.new.words.items ≡ self.old.words.items)
            × (self.new.cells.items ≡ self.old.cells.items) × (self.new.lines.items ≡ self.old.lines.items)) }
    {
        match step {
            SharedStep::Word(word, step) => {
                if word >= self.words.len() {
                    return Ok(0);
                }
                let found = self.words[word];
                self.words[word] = after(found, step);
                Ok(found)
            }
            SharedStep::Read(cell) => match self.cells.get(cell) {
                Some(found) => Ok(*found),
                None => Ok(0),
            },
            SharedStep::Write(cell, value) => {
                if cell < self.cells.len() {
                    self.cells[cell] = value;
                }
                Ok(0)
            }
            SharedStep::Print(label, value) => {
                self.lines.push(Line { label, value })?;
                Ok(0)
            }
        }
    }
}

/// What a step makes of a word that is this.
fn after(found: u64, step: WordStep) -> u64
    ensures { result ≡ worked found step }
{
    match step {
        WordStep::Load => found,
        WordStep::Store(new) | WordStep::Swap(new) => new,
        WordStep::Add(n) => found.wrapping_add(n),
        WordStep::Sub(n) => found.wrapping_sub(n),
        WordStep::Cas(wanted, new) => { if found == wanted { new } else { found } }
    }
}
