//! Reads one text.
ghost use Rattle.std.specs.Prelude.{◌≡◌, None, IfOk};
ghost use Rattle.sync_base.specs.Outcome.{Gives};
ghost use Rattle.sync_terms.specs.Stored.{Stored, Extends};
ghost use Rattle.sync_terms.specs.Proofs.{AreScriptsOf};
ghost use Rattle.sync_machine.specs.Views.{machine_tree, HasOwnIds};
ghost use Rattle.sync_machine.specs.Naming.{machine_fault, AreTextNames};
ghost use Rattle.sync_thread.specs.Views.{program_tree, IsProgramOf};
ghost use Rattle.sync_read_programs.specs.Programs.{resolved_program};
ghost use Rattle.sync_induct.specs.Grown.{HasGrown};
ghost use Rattle.sync_check.specs.declared.reading.Text.{Text};
ghost use Rattle.sync_check.specs.Texts.{unbuilt, resolved_whole, text_in, built_text_in, text_tree};

use sqlite_items::Items;
use std::alloc::Global;
use sync_base::{NameList, Refusal, Rule, Stop};
use sync_machine::Machine;
use sync_parse_programs::RawProgram;
use sync_parse_texts::{RawWholeText, read_whole};
use sync_read::{Resolved, resolve};
use sync_read_names::Scope;
use sync_read_programs::{program, scope_behind};
use sync_terms::Proofs;
use sync_thread::Program;

/// A text: its machine, with the store of all its terms, its proofs, its program and its names. A text without a program
/// has the empty one.
#[derive(Drop)]
pub struct Text {
    pub machine: Machine,
    pub proofs: Proofs,
    pub program: Program,
    pub names: NameList,
}

/// The program of a raw tree, behind a machine and so many scripts. Its terms go into the machine's store.
#[tactic(auto, unfolding(sync_read_programs::specs::Programs::resolved_program))]
fn resolve_program(
    alloc: Global,
    machine: &mut Machine,
    scope: Scope,
    scripts: usize,
    raw: &Option<RawProgram>,
) -> Result<Program, Stop>
    requires ids { HasOwnIds machine.old }
    ensures exact { (t : Stored) → Extends machine.new.terms t →
        Gives (program_tree t) result (resolved_program (machine_tree machine.old) scope scripts raw.now) }
    ensures grown { HasGrown machine.old machine.new }
{
    match raw {
        None => Ok(Program {
            decls: Items::new(alloc),
            start: None,
            threads: Items::new(alloc),
            last: None,
        }),
        Some(raw) => {
            let mut scope = scope_behind(alloc, machine, scope, scripts)?;
            program(alloc, &mut machine.terms, &mut scope, raw)
        }
    }
}

/// What a raw tree means. Refuses with the first broken rule of names (N).
fn resolve_whole(alloc: Global, raw: RawWholeText) -> Result<Text, Stop>
    ensures exact { Gives text_tree result (resolved_whole raw) }
    ensures ids { IfOk result (λ (t : Text). HasOwnIds t.machine) }
    ensures names { IfOk result (λ (t : Text). AreTextNames (machine_tree t.machine)) }
    ensures formed { IfOk result (λ (t : Text). machine_fault (machine_tree t.machine) ≡ None) }
    ensures scripts { IfOk result (λ (t : Text). AreScriptsOf t.machine.terms t.proofs.list) }
    ensures program { IfOk result (λ (t : Text). IsProgramOf t.machine.terms t.program) }
{
    let names = raw.names.list.len();
    let Resolved {
        mut machine,
        proofs,
        scope,
    } = resolve(alloc, names, &raw.machine, raw.proofs.as_slice())?;
    let scripts = proofs.list.len();
    let program = resolve_program(alloc, &mut machine, scope, scripts, &raw.program)?;
    Ok(Text {
        machine,
        proofs,
        program,
        names: raw.names,
    })
}

/// The text in these bytes: the machine, the proofs and the program that they spell.
///
/// Refuses with the first broken rule of lexemes (L), of the grammar (G), or of names (N); the whole text is asked for one
/// layer before the next.
#[tactic(auto, unfolding(crate::specs::Texts::text_in))]
pub fn read(alloc: Global, bytes: &[u8]) -> Result<Text, Stop>
    ensures exact { Gives text_tree result (text_in bytes.now) }
    ensures ids { IfOk result (λ (t : Text). HasOwnIds t.machine) }
    ensures names { IfOk result (λ (t : Text). AreTextNames (machine_tree t.machine)) }
    ensures formed { IfOk result (λ (t : Text). machine_fault (machine_tree t.machine) ≡ None) }
    ensures scripts { IfOk result (λ (t : Text). AreScriptsOf t.machine.terms t.proofs.list) }
    ensures program { IfOk result (λ (t : Text). IsProgramOf t.machine.terms t.program) }
{
    resolve_whole(alloc, read_whole(alloc, bytes)?)
}

/// G9 at the first word of a program, since nothing answers for programs yet.
fn unbuilt(program: &Option<RawProgram>) -> Option<Refusal>
    ensures { result ≡ unbuilt program.now }
{
    match program {
        None => None,
        Some(program) => Some(Refusal {
            line: program.line,
            rule: Rule::G9,
        }),
    }
}

/// The same for texts without a program; one with a program that keeps the rules of lexemes, grammar and names is refused
/// with G9.
#[tactic(auto, unfolding(crate::specs::Texts::built_text_in))]
pub(crate) fn read_built(alloc: Global, bytes: &[u8]) -> Result<Text, Stop>
    ensures exact { Gives text_tree result (built_text_in bytes.now) }
    ensures ids { IfOk result (λ (t : Text). HasOwnIds t.machine) }
    ensures names { IfOk result (λ (t : Text). AreTextNames (machine_tree t.machine)) }
    ensures formed { IfOk result (λ (t : Text). machine_fault (machine_tree t.machine) ≡ None) }
    ensures scripts { IfOk result (λ (t : Text). AreScriptsOf t.machine.terms t.proofs.list) }
{
    let raw = read_whole(alloc, bytes)?;
    let refusal = unbuilt(&raw.program);
    let text = resolve_whole(alloc, raw)?;
    match refusal {
        None => Ok(text),
        Some(refusal) => Err(Stop::Refused(refusal)),
    }
}
