//! Whether the start gives each thread once, and seals each element of a word once.

ghost use Rattle.std.specs.Prelude.{◌≡◌, ◌&&◌, ◌∷◌, ℕ, IfOk, OnOk, if◌then◌else◌, map, suc, List};
ghost use Rattle.std.specs.HashMap.{get};
ghost use Rattle.std.specs.List.{list_all, range_with_len};
ghost use Rattle.sync_terms.specs.Stored.{Stored};
ghost use Rattle.sync_thread.specs.Arrays.{words_in};
ghost use Rattle.sync_thread.specs.Programs.{DeclTree};
ghost use Rattle.sync_thread.specs.Views.{decl_tree, proof_step_tree, proof_steps_tree, program_tree, word_tree};
ghost use Rattle.sync_typing.specs.Typing.{is_complete};
ghost use Rattle.sync_typing_paths.specs.Deeds.{deed_in, gives, is_deed, is_free, is_once, is_sealed_in, later, same_deed, seals};

use std::alloc::Global;
use std::collections::HashMap;
use sync_base::NoMemory;
use sync_thread::{Decl, Program, ProofKind, ProofStmt, Thread, Word};

/// A thread that is given, or an element of a word that is sealed.
#[derive(Clone, Copy, PartialEq, Eq, Hash, Debug)]
struct Deed {
    seals: bool,
    name: u32,
    at: u32,
}

/// How often something is done that is done at all.
#[derive(Clone, Copy, PartialEq, Eq, Debug)]
enum Times {
    Once,
    More,
}

/// Whether the statements of the start give each thread once, and seal each element of each word once; a word without
/// names, clauses and fact may stay as it is.
pub fn is_complete(alloc: Global, program: &Program, steps: &[ProofStmt]) -> Result<bool, NoMemory>
    ensures { IfOk result (λ is. (s : Stored) →
        is ≡ is_complete (program_tree s program.now) (proof_steps_tree s steps.now)) }
{
    let mut deeds = HashMap::new(alloc);
    for step in steps {
        note(&mut deeds, step)?;
    }
    let given = are_given(&deeds, program.threads.as_slice());
    let sealed = are_sealed(&deeds, program.decls.as_slice());
    Ok(given && sealed)
}

/// What a statement gives or seals.
fn deed_in(step: &ProofStmt) -> Option<Deed>
    ensures { (s : Stored) → result ≡ deed_in (proof_step_tree s step.now) }
{
    match &step.what {
        ProofKind::Give(thread, _, _) => Some(Deed {
            seals: false,
            name: *thread,
            at: 0,
        }),
        ProofKind::Seal(word, at, _) => Some(Deed {
            seals: true,
            name: *word,
            at: *at,
        }),
        ProofKind::Let(_, _)
        | ProofKind::Do(_)
        | ProofKind::Split(_, _, _, _, _)
        | ProofKind::Merge(_, _, _)
        | ProofKind::Copy(_, _)
        | ProofKind::Move(_, _)
        | ProofKind::Assert(_, _, _)
        | ProofKind::Open(_, _, _)
        | ProofKind::Case(_)
        | ProofKind::Close(_)
        | ProofKind::Still(_) => None,
    }
}

/// Notes what a statement gives or seals.
fn note(deeds: &mut HashMap<Deed, Times>, step: &ProofStmt) -> Result<(), NoMemory>
    ensures { OnOk result ((s : Stored) (d : Deed) (n : ℕ) → later (get same_deed deeds.old d)
        (if is_deed d (proof_step_tree s step.now) then suc n else n) ≡ later (get same_deed deeds.new d) n) }
{
    let Some(deed) = deed_in(step) else {
        return Ok(());
    };
    let times = if deeds.contains_key(&deed) {
        Times::More
    } else {
        Times::Once
    };
    deeds.insert(deed, times)?;
    Ok(())
}

/// Whether something is done once.
fn is_once(deeds: &HashMap<Deed, Times>, deed: Deed) -> bool
    ensures { result ≡ is_once (get same_deed deeds.now deed) }
{
    match deeds.get(&deed) {
        Some(Times::Once) => true,
        Some(Times::More) | None => false,
    }
}

/// Whether each thread is given once.
fn are_given(deeds: &HashMap<Deed, Times>, threads: &[Thread]) -> bool
    ensures { result ≡ list_all (λ n. is_once (get same_deed deeds.now (gives n)))
        (map (λ (t : Thread). t.name) threads.now) }
{
    for thread in threads {
        let deed = Deed {
            seals: false,
            name: thread.name,
            at: 0,
        };
        if !is_once(deeds, deed) {
            return false;
        }
    }
    true
}

/// Whether each element of a word is sealed once.
fn has_seals(deeds: &HashMap<Deed, Times>, word: &Word) -> bool
    ensures { result ≡ list_all (λ i. is_once (get same_deed deeds.now (seals word.now.name i)))
        (range_with_len 0 word.now.len) }
{
    for at in 0..word.len {
        let deed = Deed {
            seals: true,
            name: word.name,
            at,
        };
        if !is_once(deeds, deed) {
            return false;
        }
    }
    true
}

/// Whether a word has no names, clauses and fact.
fn is_free(word: &Word) -> bool
    ensures { (s : Stored) → result ≡ is_free (word_tree s word.now) }
{
    word.clauses.as_slice().is_empty() && word.fact.is_none() && word.with.as_slice().is_empty()
}

/// Whether a word that is declared is free or has its seals.
fn is_sealed(deeds: &HashMap<Deed, Times>, decl: &Decl) -> bool
    ensures { (s : Stored) (ds : List DeclTree) →
        list_all (is_sealed_in (get same_deed deeds.now)) (words_in (decl_tree s decl.now ∷ ds))
        ≡ (result && list_all (is_sealed_in (get same_deed deeds.now)) (words_in ds)) }
{
    match decl {
        Decl::Word(word) => is_free(word) || has_seals(deeds, word),
        Decl::Cell(_) => true,
    }
}

/// Whether each word that is declared is free or has its seals.
fn are_sealed(deeds: &HashMap<Deed, Times>, decls: &[Decl]) -> bool
    ensures { (s : Stored) →
        result ≡ list_all (is_sealed_in (get same_deed deeds.now)) (words_in (map (decl_tree s) decls.now)) }
{
    for decl in decls {
        if !is_sealed(deeds, decl) {
            return false;
        }
    }
    true
}
