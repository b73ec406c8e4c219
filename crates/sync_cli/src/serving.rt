//! The top call.
ghost use Rattle.std.specs.Prelude.{◌≡◌, ◌≢◌, ◌⊎◌, ℕ, List, IfOk, Some};
ghost use Rattle.std.specs.List.{concat};
ghost use Rattle.sync_base.specs.Outcome.{Gives};
ghost use Rattle.sync_base.specs.Outside.{Rose, gained};
ghost use Rattle.sync_cli.specs.Answers.{status_of, out_of, err_of, IsAnswer};
ghost use Rattle.sync_cli.specs.Commands.{Asks, AsksNothing, answered, IsDone};
ghost use Rattle.sync_cli.specs.Serving.{Allowed, Tells};
ghost use Rattle.sync_cli.specs.Streams.{IsTold, IsCutShort, TakesInBounds};
ghost use Rattle.sync_cli.specs.declared.commands.Command.{Command as Job};

use crate::answers::Answer;
use crate::commands::{Command, command_of};
use crate::lines::{accepted_lines, refused_line};
use crate::reading::{ReadStop, read_all};
use crate::statuses::Status;
use crate::writing::write_all;
use sqlite_items::Items;
use std::alloc::{AllocError, Global};
use std::thread::Threads;
use sync_base::{Failed, Gate, Sink, Source, Stop};
use sync_check::{check, list};

/// The lines that the command gives for a text, or the first rule that the text breaks.
#[tactic(auto, unfolding(crate::specs::Commands::answered))]
fn obey(alloc: Global, command: Command, text: &[u8]) -> Result<Items<Items<u8>>, Stop>
    ensures exact { Gives (λ lines. lines) result (answered command text.now) }
    ensures done { IfOk result (IsDone command text.now) }
{
    match command {
        Command::Check => {
            let scripts = check(alloc, text)?;
            Ok(accepted_lines(alloc, scripts)?)
        }
        Command::Obligations => list(alloc, text),
    }
}

/// What the command answers for a text.
fn respond(alloc: Global, command: Command, text: &[u8]) -> Result<Answer, AllocError>
    ensures { IfOk result (IsAnswer command text.now) }
{
    match obey(alloc, command, text) {
        Ok(lines) => Ok(Answer::Done(lines)),
        Err(Stop::Refused(refusal)) => Ok(Answer::Refused(refused_line(alloc, refusal)?)),
        Err(Stop::Memory) => Ok(Answer::NoMemory),
    }
}

/// The answer to a call with these words. The source is read only where they are a command's.
#[tactic(auto, using(crate::proofs::Taking::takes_none))]
fn answer_to<S: Source>(alloc: Global, words: &[String], source: &mut S) -> Answer
    ensures allowed { Allowed words.now (S.left source.old) (S.left source.new)
        (S.faults source.old) (S.faults source.new) (status_of result) (out_of result) (err_of result) }
    ensures unread { AsksNothing words.now → source.new ≡ source.old }
    ensures taken { TakesInBounds (S.left source.old) (S.left source.new) }
{
    let Some(command) = command_of(words) else {
        return Answer::Usage;
    };
    match read_all(alloc, source) {
        Ok(text) => respond(alloc, command, &text).unwrap_or(Answer::NoMemory),
        Err(ReadStop::Fault) => Answer::ReadFault,
        Err(ReadStop::Memory) => Answer::NoMemory,
    }
}

/// Answers one call: reads the source where the words are a command's, and writes what the command gives for the text.
///
/// Each line is made before the first is written. Each is handed to its sink until it is all taken, those for `out`
/// before those for `err`, and nothing is written after a failed write. No thread is started.
pub fn serve<R: Threads + Sync, S: Source, K: Sink, E: Sink, G: Gate + Sync>(
    _rt: &R,
    alloc: Global,
    words: &[String],
    source: &mut S,
    out: &mut K,
    err: &mut E,
    _gate: &G,
) -> Status
    // Each status but WriteFault is one that is allowed for this call, and the sinks gained the texts that stand with it.
    ensures allowed { result ≢ Status.WriteFault →
        (out_text : List ℕ) × (err_text : List ℕ)
        × Allowed words.now (S.left source.old) (S.left source.new)
        (S.faults source.old) (S.faults source.new) result out_text err_text
        × (K.got out.new ≡ gained (K.got out.old) out_text)
        × (E.got err.new ≡ gained (E.got err.old) err_text) }

    // Done: `out` gained what the command gives for the text of the source. After `check` its machine holds always.
    ensures done { result ≡ Status.Done →
        (command : Job) × (text : List ℕ) × (lines : List (List ℕ))
        × Asks words.now command × IsTold (S.left source.old) text × IsDone command text lines
        × (K.got out.new ≡ gained (K.got out.old) (concat lines))
        × (E.got err.new ≡ E.got err.old) }

    // WriteFault: a sink's faults rose, and another status is allowed, whose texts were not gained whole.
    ensures write_fault { result ≡ Status.WriteFault →
        Rose (K.faults out.old) (K.faults out.new) ⊎ Rose (E.faults err.old) (E.faults err.new) }
    ensures cut_short { result ≡ Status.WriteFault →
        (status : Status) × (out_text : List ℕ) × (err_text : List ℕ)
        × Allowed words.now (S.left source.old) (S.left source.new)
        (S.faults source.old) (S.faults source.new) status out_text err_text
        × IsCutShort (K.got out.old) (K.got out.new) out_text (E.got err.old) (E.got err.new) err_text }

    // A failed write is never passed over: at each other status no sink's faults rose.
    ensures sound_sinks { result ≢ Status.WriteFault →
        (K.faults out.new ≡ K.faults out.old) × (E.faults err.new ≡ E.faults err.old) }

    // Nothing is read where the words are no command's.
    ensures unread { AsksNothing words.now → source.new ≡ source.old }

    // Whatever the status is, at most one byte more than a text may have was taken from the source.
    ensures taken { TakesInBounds (S.left source.old) (S.left source.new) }

    // Where nothing fails, the status tells what the command gives for the text.
    ensures answers { (command : Job) → Asks words.now command →
        ¬ Rose (S.faults source.old) (S.faults source.new) →
        ¬ Rose (K.faults out.old) (K.faults out.new) →
        ¬ Rose (E.faults err.old) (E.faults err.new) →
        (bytes : List ℕ) → S.left source.old ≡ Some bytes → Tells (answered command bytes) result }
{
    let answer = answer_to(alloc, words, source);
    match write_all(out, answer.lines(), err, answer.err()) {
        Ok(()) => answer.status(),
        Err(Failed) => Status::WriteFault,
    }
}
