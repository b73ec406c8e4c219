//! From bytes to terminals.
ghost use Rattle.std.specs.Prelude.{◌≡◌, ◌≤◌, ◌<◌, ◌-◌, false, length, IfOk, OnOk};
ghost use Rattle.std.specs.HashMap.{get_by};
ghost use Rattle.std.specs.List.{list_any};
ghost use Rattle.std.specs.Str.{bytes_eq};
ghost use Rattle.sync_base.specs.Outcome.{Gives};
ghost use Rattle.sync_lex.specs.Terminals.{bytes_at, number_of, decimal_after, said, named, spells, Recalls, terminals_of, terminals_in};
ghost use Rattle.sync_lex.specs.Signs.{sign_of};

use crate::lexemes::{Kind, Lexeme};
use crate::lexer::lex;
use crate::punctuation::single_of;
use crate::signs::sign_of;
use crate::strategies::strategy_of;
use crate::terminals::{Terminal, TerminalKind, Terminals};
use sqlite_items::Items;
use std::alloc::Global;
use std::collections::HashMap;
use sync_base::{LARGEST, Name, NameList, NoMemory, Stop};

/// So many digits make a number of 64 bits, whatever bytes they are.
const SHORT: usize = 17;

#[tactic(auto, unfolding(crate::specs::Terminals::bytes_at))]
fn bytes_at<'a>(text: &'a [u8], lexeme: Lexeme) -> &'a [u8]
    ensures { result.now ≡ bytes_at text.now lexeme }
{
    let start = lexeme.start as usize;
    let end = lexeme.end as usize;
    if start <= end && end <= text.len() {
        &text[start..end]
    } else {
        &[]
    }
}

fn digit_of(byte: u8) -> u64
    ensures exact { result ≡ byte - 48 }
    ensures small { result < 256 }
{
    u64::from(byte.saturating_sub(b'0'))
}

/// The number of at most 17 digits.
fn short_number_of(digits: &[u8]) -> u64
    requires { length digits.now ≤ SHORT }
    ensures { result ≡ decimal_after 0 digits.now }
{
    let mut number = 0;
    for digit in digits {
        number = number * 10 + digit_of(*digit);
    }
    number
}

#[tactic(auto, unfolding(crate::specs::Terminals::number_of))]
fn number_of(digits: &[u8]) -> u128
    ensures { result ≡ number_of digits.now }
{
    if digits.len() <= SHORT {
        return u128::from(short_number_of(digits));
    }
    let mut number: u128 = 0;
    for digit in digits {
        let value = u128::from(digit.saturating_sub(b'0'));
        number = number.saturating_mul(10).saturating_add(value);
    }
    number.min(LARGEST)
}

/// What bytes say that are met for the first time. A name is put to the names.
fn said_first(
    alloc: Global,
    names: &mut Items<Name>,
    bytes: &[u8],
) -> Result<TerminalKind, NoMemory>
    requires { list_any (spells bytes.now) names.old ≡ false }
    ensures what { IfOk result (λ w. w ≡ (named names.old bytes.now (sign_of bytes.now)).0) }
    ensures names { OnOk result (names.new ≡ (named names.old bytes.now (sign_of bytes.now)).1) }
{
    if let Some(sign) = sign_of(bytes) {
        return Ok(TerminalKind::Sign(sign));
    }
    let Ok(number) = u32::try_from(names.len()) else {
        return Err(NoMemory);
    };
    names.push(Name {
        bytes: Items::from_slice(alloc, bytes)?,
    })?;
    Ok(TerminalKind::Name(number, strategy_of(bytes)))
}

/// What a lexeme says. Bytes that were met before are looked up; a new name is put to the names.
fn said<'a>(
    alloc: Global,
    met: &mut HashMap<&'a [u8], TerminalKind>,
    names: &mut Items<Name>,
    kind: Kind,
    bytes: &'a [u8],
) -> Result<TerminalKind, NoMemory>
    requires { Recalls names.old (λ q. get_by (λ r. bytes_eq q r.now) met.old) }
    ensures what { IfOk result (λ w. w ≡ (said names.old kind bytes.entry.now).0) }
    ensures names { OnOk result (names.new ≡ (said names.old kind bytes.entry.now).1) }
    ensures kept { OnOk result (Recalls names.new (λ q. get_by (λ r. bytes_eq q r.now) met.new)) }
{
    if kind == Kind::Number {
        return Ok(TerminalKind::Number(number_of(bytes)));
    }
    if let Some(sign) = single_of(bytes) {
        return Ok(TerminalKind::Sign(sign));
    }
    if let Some(what) = met.get(bytes) {
        return Ok(*what);
    }
    let what = said_first(alloc, names, bytes)?;
    met.insert(bytes, what)?;
    Ok(what)
}

/// The terminals of a text that falls into these lexemes, and its names.
#[tactic(auto, unfolding(crate::specs::Terminals::terminals_of, crate::specs::Terminals::terminals_after))]
fn terminals_of(
    alloc: Global,
    text: &[u8],
    lexemes: &[Lexeme],
) -> Result<(Items<Terminal>, Items<Name>), NoMemory>
    ensures { IfOk result (λ w. (w.0, w.1) ≡ terminals_of text.now lexemes.now) }
{
    let mut met: HashMap<&[u8], TerminalKind> = HashMap::new(alloc);
    let mut names = Items::new(alloc);
    let mut list = Vec::with_capacity(alloc, lexemes.len())?;
    for lexeme in lexemes {
        let bytes = bytes_at(text, *lexeme);
        let what = said(alloc, &mut met, &mut names, lexeme.kind, bytes)?;
        list.push(Terminal {
            what,
            line: lexeme.line,
        })?;
    }
    Ok((Items::from_vec(list), names))
}

/// The terminals of a text, or the first rule L that it breaks.
#[tactic(auto, unfolding(crate::specs::Terminals::terminals_in))]
pub fn read_terminals(alloc: Global, text: &[u8]) -> Result<Terminals, Stop>
    ensures { Gives (λ w. w) result (terminals_in text.now) }
{
    let tokens = lex(alloc, text)?;
    let (list, names) = terminals_of(alloc, text, tokens.list.as_slice())?;
    Ok(Terminals {
        list,
        names: NameList { list: names },
        last_line: tokens.last_line,
    })
}
