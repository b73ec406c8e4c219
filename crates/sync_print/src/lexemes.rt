//! Writing single lexemes, each with the byte behind it.
ghost use Rattle.std.specs.Prelude.{◌≡◌, [], ◌∷◌, ◌++◌, OnOk};
ghost use Rattle.sync_print.specs.Lexemes.{behind_sign, printed, one, one_name, one_number, one_strategy, needed as needed_sign};

use std::alloc::{AllocError, Global};
use sync_base::{NameList, Strategy};
use sync_lex::{Sign, strategy_name};

/// The byte behind a sign.
fn behind_sign(sign: Sign) -> u8
    ensures { result ≡ behind_sign sign }
{
    match sign {
        Sign::Semicolon | Sign::OpenBrace | Sign::CloseBrace => b'\n',
        _ => b' ',
    }
}

/// Bytes, and the byte behind them.
fn piece(out: &mut Vec<u8>, bytes: &[u8], behind: u8) -> Result<(), AllocError>
    ensures { OnOk result (out.new.items ≡ out.old.items ++ (bytes.now ++ behind ∷ [])) }
{
    out.extend_from_slice(bytes)?;
    out.push(behind)?;
    Ok(())
}

/// A sign or a reserved word.
#[tactic(auto, unfolding(crate::specs::Lexemes::printed, crate::specs::Lexemes::one))]
pub fn sign(names: &NameList, out: &mut Vec<u8>, sign: Sign) -> Result<(), AllocError>
    ensures { OnOk result (out.new.items ≡ out.old.items ++ printed names.now (one sign)) }
{
    piece(out, sign.spelling().as_bytes(), behind_sign(sign))
}

/// A sign, where it is needed.
#[tactic(auto, using(crate::proofs::Steps::nothing_more))]
pub(crate) fn needed(
    names: &NameList,
    out: &mut Vec<u8>,
    needed: bool,
    s: Sign,
) -> Result<(), AllocError>
    ensures { OnOk result (out.new.items ≡ out.old.items ++ printed names.now (needed_sign needed s)) }
{
    if needed { sign(names, out, s) } else { Ok(()) }
}

/// A name.
#[tactic(auto, unfolding(crate::specs::Lexemes::printed, crate::specs::Lexemes::one_name))]
pub fn name(names: &NameList, out: &mut Vec<u8>, number: u32) -> Result<(), AllocError>
    ensures { OnOk result (out.new.items ≡ out.old.items ++ printed names.now (one_name number)) }
{
    piece(out, names.spelling(number), b' ')
}

/// The name of a strategy.
#[tactic(auto, unfolding(crate::specs::Lexemes::printed, crate::specs::Lexemes::one_strategy))]
pub(crate) fn strategy(
    names: &NameList,
    out: &mut Vec<u8>,
    strategy: Strategy,
) -> Result<(), AllocError>
    ensures { OnOk result (out.new.items ≡ out.old.items ++ printed names.now (one_strategy strategy)) }
{
    piece(out, strategy_name(strategy).as_bytes(), b' ')
}

/// A number, without leading zeros.
#[tactic(auto, unfolding(crate::specs::Lexemes::printed, crate::specs::Lexemes::one_number))]
pub fn number(
    alloc: Global,
    names: &NameList,
    out: &mut Vec<u8>,
    number: u128,
) -> Result<(), AllocError>
    ensures { OnOk result (out.new.items ≡ out.old.items ++ printed names.now (one_number number)) }
{
    let digits = format!(in alloc; "{number}")?;
    piece(out, digits.as_bytes(), b' ')
}

/// A sign and a name.
#[tactic(auto, using(crate::proofs::Steps::joined))]
pub(crate) fn sign_and_name(
    names: &NameList,
    out: &mut Vec<u8>,
    opening: Sign,
    x: u32,
) -> Result<(), AllocError>
    ensures { OnOk result (out.new.items ≡ out.old.items ++ printed names.now (one opening ++ one_name x)) }
{
    sign(names, out, opening)?;
    name(names, out, x)?;
    Ok(())
}

/// A sign and a number.
#[tactic(auto, using(crate::proofs::Steps::joined))]
pub(crate) fn sign_and_number(
    alloc: Global,
    names: &NameList,
    out: &mut Vec<u8>,
    opening: Sign,
    n: u128,
) -> Result<(), AllocError>
    ensures { OnOk result (out.new.items ≡ out.old.items ++ printed names.now (one opening ++ one_number n)) }
{
    sign(names, out, opening)?;
    number(alloc, names, out, n)?;
    Ok(())
}
