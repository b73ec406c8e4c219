//! What stands at the front of a text.
ghost use Rattle.std.specs.Prelude.{◌≡◌, ◌==◌, not};
ghost use Rattle.std.specs.Char.{is_ascii_digit};
ghost use Rattle.std.specs.List.{prefix_len, take_while};
ghost use Rattle.sync_lex.specs.Bytes.{continues_name};
ghost use Rattle.sync_lex.specs.Pieces.{name_piece, number_piece, piece};

use crate::bytes::{begins_name, continues_name, is_blank};
use crate::lexemes::Kind;
use crate::punctuation::sign_len;
use sync_base::{LARGEST, LONGEST_NAME, Rule};

/// How many digits 2^127 - 1 has: numbers of fewer digits are below it.
const LARGEST_DIGITS: usize = 39;

/// The longest thing at the front of a text, with its length in bytes.
pub(crate) enum Piece {
    /// A blank or a comment.
    Gap(usize),
    /// A lexeme of this kind.
    Match(Kind, usize),
    /// It breaks this rule.
    Broken(Rule),
}

fn name_len(bytes: &[u8]) -> usize
    ensures { result ≡ prefix_len continues_name bytes.now }
{
    bytes
        .iter()
        .take_while(|byte| continues_name(**byte))
        .count()
}

fn line_len(bytes: &[u8]) -> usize
    ensures { result ≡ prefix_len (λ b. not (b == 10)) bytes.now }
{
    bytes.iter().take_while(|byte| **byte != b'\n').count()
}

fn name_piece(bytes: &[u8]) -> Piece
    ensures { result ≡ name_piece (prefix_len continues_name bytes.now) }
{
    let len = name_len(bytes);
    if len > LONGEST_NAME {
        Piece::Broken(Rule::L4)
    } else {
        Piece::Match(Kind::Name, len)
    }
}

fn digits_len(bytes: &[u8]) -> usize
    ensures { result ≡ prefix_len is_ascii_digit bytes.now }
{
    bytes
        .iter()
        .take_while(|byte| byte.is_ascii_digit())
        .count()
}

fn number_piece(bytes: &[u8]) -> Piece
    ensures { result ≡ number_piece (take_while is_ascii_digit bytes.now) }
{
    let len = digits_len(bytes);
    if len < LARGEST_DIGITS {
        Piece::Match(Kind::Number, len)
    } else {
        long_number_piece(bytes)
    }
}

fn long_number_piece(bytes: &[u8]) -> Piece
    ensures { result ≡ number_piece (take_while is_ascii_digit bytes.now) }
{
    let mut value: u128 = 0;
    let mut len = 0;
    for byte in bytes {
        if !byte.is_ascii_digit() {
            break;
        }
        let digit = u128::from(*byte - b'0');
        value = value.saturating_mul(10).saturating_add(digit);
        if value > LARGEST {
            return Piece::Broken(Rule::L3);
        }
        len += 1;
    }
    Piece::Match(Kind::Number, len)
}

/// The piece at the front of the bytes. No bytes break rule L2.
#[tactic(auto, unfolding(crate::specs::Pieces::piece))]
pub(crate) fn next_piece(bytes: &[u8]) -> Piece
    ensures { result ≡ piece bytes.now }
{
    let Some(first) = bytes.first() else {
        return Piece::Broken(Rule::L2);
    };
    if is_blank(*first) {
        return Piece::Gap(1);
    }
    if begins_name(*first) {
        return name_piece(bytes);
    }
    if first.is_ascii_digit() {
        return number_piece(bytes);
    }
    if bytes.starts_with(b"//") {
        return Piece::Gap(line_len(bytes));
    }
    match sign_len(bytes) {
        0 => Piece::Broken(Rule::L2),
        len => Piece::Match(Kind::Sign, len),
    }
}
