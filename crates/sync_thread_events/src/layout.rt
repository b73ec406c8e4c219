//! Where declared arrays are laid, and what stands in them at first.

ghost use Rattle.std.specs.Prelude.{◌≡◌, ℕ, ◌+◌, List, [], ◌∷◌, ◌++◌, ◌<◌, ◌^◌, length, replicate, OnOk, IfOk};
ghost use Rattle.sync_thread.specs.declared.operands.CodeDecl.{CodeDecl};
ghost use Rattle.sync_thread_events.specs.Layout.{IsLaid, noted};
ghost use Rattle.sync_thread_events.specs.Steps.{AreNarrow, span_in};

use crate::steps::{Span, Spans};
use std::alloc::{AllocError, Global};
use sync_thread::CodeDecl;

/// The words and the cells of declarations, each kind one array behind the other.
#[derive(Drop)]
pub struct Laid {
    pub spans: Spans,
    pub words: Vec<u64>,
    pub cells: Vec<u64>,
}

/// Lays what is declared. Only memory can be wanting.
pub fn lay(alloc: Global, decls: &[CodeDecl]) -> Result<Laid, AllocError>
    ensures { IfOk result (λ laid. IsLaid decls.now laid) }
{
    let spans = Spans {
        words: Vec::new(alloc),
        cells: Vec::new(alloc),
    };
    let mut laid = Laid {
        spans,
        words: Vec::new(alloc),
        cells: Vec::new(alloc),
    };
    for decl in decls {
        add(&mut laid, *decl)?;
    }
    Ok(laid)
}

/// Lays one array more, of words or of cells.
fn add(laid: &mut Laid, decl: CodeDecl) -> Result<(), AllocError>
    ensures { OnOk result ((ds : List CodeDecl) → IsLaid ds laid.old → IsLaid (ds ++ decl ∷ []) laid.new) }
{
    match decl {
        CodeDecl::Word(name, len, value) => {
            append(&mut laid.spans.words, &mut laid.words, name, len, value)
        }
        CodeDecl::Cell(name, len, value) => {
            append(&mut laid.spans.cells, &mut laid.cells, name, len, value)
        }
    }
}

/// Lays one array more behind these numbers.
fn append(
    spans: &mut Vec<Option<Span>>,
    numbers: &mut Vec<u64>,
    name: u32,
    len: u32,
    value: u64,
) -> Result<(), AllocError>
    ensures numbers { OnOk result (numbers.new.items ≡ numbers.old.items ++ replicate len value) }
    ensures spans { OnOk result ((x : ℕ) → span_in spans.new.items x
        ≡ noted name (record { base = length numbers.old.items; len = len }) x (span_in spans.old.items x)) }
    ensures narrow { OnOk result (length numbers.old.items + len < 2 ^ 64) }
{
    let base = numbers.len();
    let Some(end) = base.checked_add(len as usize) else {
        return Err(AllocError);
    };
    numbers.resize(end, value)?;
    note(spans, name, Span { base, len })
}

/// Notes an array under its name, where none is noted.
fn note(spans: &mut Vec<Option<Span>>, name: u32, span: Span) -> Result<(), AllocError>
    ensures { OnOk result ((x : ℕ) → span_in spans.new.items x ≡ noted name span x (span_in spans.old.items x)) }
{
    let at = name as usize;
    if at >= spans.len() {
        spans.resize(at + 1, None)?;
    }
    if spans[at].is_none() {
        spans[at] = Some(span);
    }
    Ok(())
}
