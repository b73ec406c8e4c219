//! Reads a source to its end, or until it gave more than a text may have.
ghost use Rattle.std.specs.Prelude.{◌≡◌, ◌+◌, ◌<◌, ◌≤◌, ◌⊎◌, IfOk, length, vec_len};
ghost use Rattle.sync_base.specs.Outside.{Rose, GivesFront};
ghost use Rattle.sync_base.specs.Limits.{longest_text};
ghost use Rattle.sync_cli.specs.Streams.{IsAtEnd, TakesAtMost, TakesInBounds};
ghost use Rattle.sync_cli.specs.Reading.{IsSoundUnlessFault, GivesPiece};

use std::alloc::{AllocError, Global};
use sync_base::{Failed, LONGEST_TEXT, Source};

/// One byte more than a text may have: a text that is longer is judged by so many of its bytes.
const MOST_READ: usize = LONGEST_TEXT + 1;

/// The most bytes that one call of a source is asked for.
const PIECE: usize = 65_536;

/// Why a text was not read.
#[derive(Clone, Copy)]
pub enum ReadStop {
    /// The source failed.
    Fault,
    /// Memory was wanting.
    Memory,
}

impl From<Failed> for ReadStop {
    ghost use Rattle.sync_cli.specs.declared.reading.ReadStop.TheVariants.{Fault};

    ghost from_gives = { λ _ e. e ≡ Fault };

    fn from(_e: Failed) -> ReadStop {
        ReadStop::Fault
    }
}

impl From<AllocError> for ReadStop {
    ghost use Rattle.sync_cli.specs.declared.reading.ReadStop.TheVariants.{Memory};

    ghost from_gives = { λ _ e. e ≡ Memory };

    fn from(_e: AllocError) -> ReadStop {
        ReadStop::Memory
    }
}

/// Reads the source once, and puts what it gave behind the text. It says how many bytes came.
#[tactic(auto, using(crate::proofs::Taking::takes_none, crate::proofs::Taking::takes_front))]
fn read_piece<S: Source>(
    source: &mut S,
    piece: &mut [u8],
    text: &mut Vec<u8>,
) -> Result<usize, ReadStop>
    requires { 0 < length piece.old }
    ensures within { IfOk result (λ count. count ≤ length piece.old) }
    ensures given { IfOk result (λ count. GivesPiece (S.left source.old) (S.left source.new) text.old.items text.new.items count) }
    ensures stopped { IsSoundUnlessFault result (S.faults source.old) (S.faults source.new) }
    ensures taken { TakesAtMost (length piece.old) (S.left source.old) (S.left source.new) }
{
    let count = source.read(piece)?;
    text.extend_from_slice(&piece[..count])?;
    Ok(count)
}

/// A buffer of so many bytes.
fn make_buffer(alloc: Global, size: usize) -> Result<Vec<u8>, AllocError>
    ensures { IfOk result (λ buffer. vec_len buffer ≡ size) }
{
    vec![in alloc; 0; size]
}

/// The bytes of the source: all that are left, or 1,048,577 of them where there are more.
#[tactic(auto, using(crate::proofs::Taking::takes_none, crate::proofs::Taking::takes_front, crate::proofs::Taking::takes_on))]
pub fn read_all<S: Source>(alloc: Global, source: &mut S) -> Result<Vec<u8>, ReadStop>
    ensures given { IfOk result (λ text. GivesFront (S.left source.old) (S.left source.new) text.items) }
    ensures whole { IfOk result (λ text. IsAtEnd (S.left source.new) ⊎ (longest_text < vec_len text)) }
    ensures bounded { IfOk result (λ text. vec_len text ≤ longest_text + 1) }
    ensures sound { IsSoundUnlessFault result (S.faults source.old) (S.faults source.new) }
    ensures taken { TakesInBounds (S.left source.old) (S.left source.new) }
{
    let mut text = Vec::new(alloc);
    let mut piece = make_buffer(alloc, PIECE)?;
    while text.len() < MOST_READ {
        let room = (MOST_READ - text.len()).min(PIECE);
        if read_piece(source, &mut piece[..room], &mut text)? == 0 {
            break;
        }
    }
    Ok(text)
}
