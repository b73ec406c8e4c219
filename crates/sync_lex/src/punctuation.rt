//! Which sign that is no reserved word stands at the front of bytes.
ghost use Rattle.std.specs.Prelude.{◌≡◌, ◌∷◌, [], Some, IfSome, map};
ghost use Rattle.sync_lex.specs.Punctuation.{begins_any, sign_len};
ghost use Rattle.sync_lex.specs.Signs.{singles, doubles, spelling_of, sign_of};

use crate::signs::Sign;

const SINGLES: [u8; 20] = *b"{}()[],;:?@$!*/%+-=<";

#[tactic(auto, unfolding(crate::specs::Signs::spelling_of))]
fn begins_single(bytes: &[u8]) -> bool
    ensures { result ≡ begins_any (map spelling_of singles) bytes.now }
{
    match bytes {
        [] => false,
        [first, ..] => SINGLES.contains(first),
    }
}

#[tactic(auto, unfolding(crate::specs::Signs::spelling_of))]
fn begins_double(bytes: &[u8]) -> bool
    ensures { result ≡ begins_any (map spelling_of doubles) bytes.now }
{
    matches!(
        bytes,
        [b'!' | b'<' | b'>' | b'+' | b'-', b'=', ..]
            | [b'-' | b'=', b'>', ..]
            | [b'&', b'&', ..]
            | [b'|', b'|', ..]
    )
}

/// The length of the longest sign at the front, 0 where there is none.
#[tactic(auto, using(crate::proofs::SignLen::sign_len_is))]
pub(crate) fn sign_len(bytes: &[u8]) -> usize
    ensures { result ≡ sign_len bytes.now }
{
    if bytes.starts_with(b"==>") {
        3
    } else if begins_double(bytes) {
        2
    } else if begins_single(bytes) {
        1
    } else {
        0
    }
}

/// The sign that a byte alone is.
#[tactic(auto, unfolding(crate::specs::Signs::sign_of, crate::specs::Signs::spelling_of))]
fn single_at(byte: u8) -> Option<Sign>
    ensures { IfSome result (λ s. sign_of (byte ∷ []) ≡ Some s) }
{
    match byte {
        b'{' => Some(Sign::OpenBrace),
        b'}' => Some(Sign::CloseBrace),
        b'(' => Some(Sign::OpenRound),
        b')' => Some(Sign::CloseRound),
        b'[' => Some(Sign::OpenSquare),
        b']' => Some(Sign::CloseSquare),
        b',' => Some(Sign::Comma),
        b';' => Some(Sign::Semicolon),
        b':' => Some(Sign::Colon),
        b'?' => Some(Sign::Question),
        b'@' => Some(Sign::Label),
        b'$' => Some(Sign::Dollar),
        b'!' => Some(Sign::Bang),
        b'*' => Some(Sign::Star),
        b'/' => Some(Sign::Slash),
        b'%' => Some(Sign::Percent),
        b'+' => Some(Sign::Plus),
        b'-' => Some(Sign::Minus),
        b'=' => Some(Sign::Equal),
        b'<' => Some(Sign::Below),
        _ => None,
    }
}

/// The sign that the bytes are, where it is of one byte. Such signs need no look-up.
pub(crate) fn single_of(bytes: &[u8]) -> Option<Sign>
    ensures { IfSome result (λ s. sign_of bytes.now ≡ Some s) }
{
    match bytes {
        [byte] => single_at(*byte),
        _ => None,
    }
}
