//! From bytes to lexemes.
ghost use Rattle.std.specs.Prelude.{◌≡◌, ◌≤◌, IfOk, All, AllPairs, length};
ghost use Rattle.sync_base.specs.Outcome.{Gives};
ghost use Rattle.sync_lex.specs.Lexemes.{lexemes_of};
ghost use Rattle.sync_lex.specs.Spelling.{IsLexeme, AreParted, line_at};

use crate::lexemes::{Lexeme, Tokens};
use crate::pieces::{Piece, next_piece};
use sqlite_items::Items;
use std::alloc::Global;
use sync_base::{LONGEST_TEXT, Refusal, Rule, Stop};

/// The lexemes of a text in order, or the first of the rules L1 to L4 that it breaks.
///
/// L1: the text is longer than 1,048,576 bytes; this is told first, on line 1. L2: no lexeme begins with a byte.
/// L3: a number is above 2^127 - 1. L4: a name is longer than 64 bytes. The line is that of the first byte at fault.
#[tactic(auto, unfolding(crate::specs::Lexemes::lexemes_of))]
pub fn lex(alloc: Global, text: &[u8]) -> Result<Tokens, Stop>
    ensures exact { Gives (λ t. (t.list, t.last_line)) result (lexemes_of text.now) }
    ensures lexemes { IfOk result (λ t. All (IsLexeme text.now) t.list) }
    ensures apart { IfOk result (λ t. AllPairs (λ x y. x.end ≤ y.start) t.list) }
    ensures parted { IfOk result (λ t. AreParted text.now 0 t.list) }
    ensures last { IfOk result (λ t. t.last_line ≡ line_at text.now (length text.now)) }
{
    if text.len() > LONGEST_TEXT {
        return Err(Stop::Refused(Refusal {
            line: 1,
            rule: Rule::L1,
        }));
    }
    let mut list = Items::new(alloc);
    let mut line = 1;
    let mut at = 0;
    while at < text.len() {
        match next_piece(&text[at..]) {
            Piece::Gap(len) => {
                if text[at] == b'\n' {
                    line += 1;
                }
                at += len;
            }
            Piece::Match(kind, len) => {
                list.push(Lexeme {
                    kind,
                    start: at as u32,
                    end: (at + len) as u32,
                    line,
                })?;
                at += len;
            }
            Piece::Broken(rule) => {
                return Err(Stop::Refused(Refusal { line, rule }));
            }
        }
    }
    Ok(Tokens {
        list,
        last_line: line,
    })
}
