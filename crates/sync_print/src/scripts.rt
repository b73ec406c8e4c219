//! Writing proof scripts.
ghost use Rattle.std.specs.Prelude.{◌≡◌, ◌++◌, map, OnOk};
ghost use Rattle.sync_print.specs.Scripts.{same, sum, inst, parts, cong, cut, block_of, plain_subject, plain_hyp, plain_part, plain_block, plain_step};
ghost use Rattle.sync_print.specs.Exprs.{plain};
ghost use Rattle.sync_print.specs.Lexemes.{printed, one, listed};
ghost use Rattle.sync_print.specs.ShowScripts.{show_subject, show_hyp, show_times, show_part, show_as, show_lookup, show_step, show_steps, show_block};

use crate::exprs::{expr, exprs, magnitude, special_sign};
use crate::lexemes::{name, needed, number, sign, sign_and_name, sign_and_number};
use std::alloc::{AllocError, Global};
use sync_base::NameList;
use sync_lex::Sign;
use sync_parse::{RawBlock, RawHypName, RawPart, RawScriptStep, RawStepKind, RawSubject};
use sync_parse_exprs::RawExpr;

#[tactic(auto, using(crate::proofs::Steps::joined))]
fn subject(names: &NameList, out: &mut Vec<u8>, subject: RawSubject) -> Result<(), AllocError>
    ensures { OnOk result (out.new.items ≡ out.old.items ++ printed names.now (show_subject (plain_subject subject))) }
{
    match subject {
        RawSubject::Name(named) => name(names, out, named.name),
        RawSubject::Special(special, _) => sign(names, out, special_sign(special)),
    }
}

/// `low` or `high`, and what it speaks of.
#[tactic(auto, using(crate::proofs::Steps::joined))]
fn bound(
    names: &NameList,
    out: &mut Vec<u8>,
    opening: Sign,
    x: RawSubject,
) -> Result<(), AllocError>
    ensures { OnOk result (out.new.items ≡ out.old.items ++ printed names.now (one opening ++ show_subject (plain_subject x))) }
{
    sign(names, out, opening)?;
    subject(names, out, x)?;
    Ok(())
}

/// How a script names a hypothesis.
#[tactic(auto, using(crate::proofs::Steps::joined))]
fn hyp(
    alloc: Global,
    names: &NameList,
    out: &mut Vec<u8>,
    hyp: RawHypName,
) -> Result<(), AllocError>
    ensures { OnOk result (out.new.items ≡ out.old.items ++ printed names.now (show_hyp (plain_hyp hyp))) }
{
    match hyp {
        RawHypName::Denied => sign(names, out, Sign::Denied),
        RawHypName::Label(named) => name(names, out, named.name),
        RawHypName::At(place) => sign_and_number(alloc, names, out, Sign::At, place as u128),
        RawHypName::Low(x) => bound(names, out, Sign::Low, x),
        RawHypName::High(x) => bound(names, out, Sign::High, x),
    }
}

/// A multiplier, with `-` where it is below 0.
#[tactic(auto, using(crate::proofs::Steps::joined))]
fn times(alloc: Global, names: &NameList, out: &mut Vec<u8>, times: i128) -> Result<(), AllocError>
    ensures { OnOk result (out.new.items ≡ out.old.items ++ printed names.now (show_times times)) }
{
    if times.is_negative() {
        sign_and_number(alloc, names, out, Sign::Minus, magnitude(times))
    } else {
        number(alloc, names, out, magnitude(times))
    }
}

#[tactic(auto, using(crate::proofs::Steps::joined))]
fn part(alloc: Global, names: &NameList, out: &mut Vec<u8>, part: RawPart) -> Result<(), AllocError>
    ensures { OnOk result (out.new.items ≡ out.old.items ++ printed names.now (show_part (plain_part part))) }
{
    times(alloc, names, out, part.times)?;
    hyp(alloc, names, out, part.hyp)?;
    Ok(())
}

/// The parts of a `sum`.
#[tactic(auto, using(crate::proofs::Steps::joined))]
fn parts(
    alloc: Global,
    names: &NameList,
    out: &mut Vec<u8>,
    list: &[RawPart],
) -> Result<(), AllocError>
    ensures { OnOk result (out.new.items ≡ out.old.items ++ printed names.now (listed (map show_part (map plain_part list.now)))) }
{
    let mut behind = false;
    for x in list {
        needed(names, out, behind, Sign::Comma)?;
        part(alloc, names, out, *x)?;
        behind = true;
    }
    Ok(())
}

/// `as` and the name that a step gives.
#[tactic(auto, using(crate::proofs::Steps::joined))]
fn as_name(names: &NameList, out: &mut Vec<u8>, number: u32) -> Result<(), AllocError>
    ensures { OnOk result (out.new.items ≡ out.old.items ++ printed names.now (show_as number)) }
{
    sign_and_name(names, out, Sign::As, number)
}

/// A step that looks into one map at one key.
#[tactic(auto, using(crate::proofs::Steps::joined))]
fn lookup(
    alloc: Global,
    names: &NameList,
    out: &mut Vec<u8>,
    opening: Sign,
    m: &RawExpr,
    k: &RawExpr,
    given: u32,
) -> Result<(), AllocError>
    ensures { OnOk result (out.new.items ≡ out.old.items ++ printed names.now (show_lookup opening (plain m.now) (plain k.now) given)) }
{
    sign(names, out, opening)?;
    expr(alloc, names, out, 0, m)?;
    sign(names, out, Sign::Comma)?;
    expr(alloc, names, out, 0, k)?;
    as_name(names, out, given)?;
    sign(names, out, Sign::Semicolon)?;
    Ok(())
}

/// `same`.
#[tactic(auto, using(crate::proofs::Steps::joined))]
fn same_step(names: &NameList, out: &mut Vec<u8>) -> Result<(), AllocError>
    ensures { OnOk result (out.new.items ≡ out.old.items ++ printed names.now (show_step same)) }
{
    sign(names, out, Sign::Same)?;
    sign(names, out, Sign::Semicolon)?;
    Ok(())
}

/// `sum`.
#[tactic(auto, using(crate::proofs::Steps::joined))]
fn sum_step(
    alloc: Global,
    names: &NameList,
    out: &mut Vec<u8>,
    list: &[RawPart],
) -> Result<(), AllocError>
    ensures { OnOk result (out.new.items ≡ out.old.items ++ printed names.now (show_step (sum (map plain_part list.now)))) }
{
    sign(names, out, Sign::Sum)?;
    parts(alloc, names, out, list)?;
    sign(names, out, Sign::Semicolon)?;
    Ok(())
}

/// `inst`.
#[tactic(auto, using(crate::proofs::Steps::joined))]
fn inst_step(
    alloc: Global,
    names: &NameList,
    out: &mut Vec<u8>,
    h: RawHypName,
    es: &[RawExpr],
    given: u32,
) -> Result<(), AllocError>
    ensures { OnOk result (out.new.items ≡ out.old.items ++ printed names.now (show_step (inst (plain_hyp h) (map plain es.now) given))) }
{
    sign(names, out, Sign::Inst)?;
    hyp(alloc, names, out, h)?;
    sign(names, out, Sign::OpenRound)?;
    exprs(alloc, names, out, es)?;
    sign(names, out, Sign::CloseRound)?;
    as_name(names, out, given)?;
    sign(names, out, Sign::Semicolon)?;
    Ok(())
}

/// `parts`.
#[tactic(auto, using(crate::proofs::Steps::joined))]
fn parts_step(
    alloc: Global,
    names: &NameList,
    out: &mut Vec<u8>,
    h: RawHypName,
    first: u32,
    second: u32,
) -> Result<(), AllocError>
    ensures { OnOk result (out.new.items ≡ out.old.items ++ printed names.now (show_step (parts (plain_hyp h) first second))) }
{
    sign(names, out, Sign::Parts)?;
    hyp(alloc, names, out, h)?;
    as_name(names, out, first)?;
    sign(names, out, Sign::Comma)?;
    name(names, out, second)?;
    sign(names, out, Sign::Semicolon)?;
    Ok(())
}

/// `cong`.
#[tactic(auto, using(crate::proofs::Steps::joined))]
fn cong_step(
    alloc: Global,
    names: &NameList,
    out: &mut Vec<u8>,
    m: &RawExpr,
    j: &RawExpr,
    k: &RawExpr,
    given: u32,
) -> Result<(), AllocError>
    ensures { OnOk result (out.new.items ≡ out.old.items ++ printed names.now (show_step (cong (plain m.now) (plain j.now) (plain k.now) given))) }
{
    sign(names, out, Sign::Cong)?;
    expr(alloc, names, out, 0, m)?;
    sign(names, out, Sign::Comma)?;
    expr(alloc, names, out, 0, j)?;
    sign(names, out, Sign::Comma)?;
    expr(alloc, names, out, 0, k)?;
    as_name(names, out, given)?;
    sign(names, out, Sign::Semicolon)?;
    Ok(())
}

/// `split`, up to its two blocks.
#[tactic(auto, using(crate::proofs::Steps::joined))]
fn split_head(
    alloc: Global,
    names: &NameList,
    out: &mut Vec<u8>,
    h: RawHypName,
    given: u32,
) -> Result<(), AllocError>
    ensures { OnOk result (out.new.items ≡ out.old.items ++ printed names.now (one Sign.Split ++ show_hyp (plain_hyp h) ++ show_as given)) }
{
    sign(names, out, Sign::Split)?;
    hyp(alloc, names, out, h)?;
    as_name(names, out, given)?;
    Ok(())
}

/// `cut`, with its block.
#[cycle(blocks)]
#[tactic(auto, using(crate::proofs::Steps::joined))]
fn cut_step(
    alloc: Global,
    names: &NameList,
    out: &mut Vec<u8>,
    inner: &RawBlock,
    e: &RawExpr,
    given: u32,
) -> Result<(), AllocError>
    ensures { OnOk result (out.new.items ≡ out.old.items ++ printed names.now (show_step (cut (plain e.now) given (plain_block inner.now)))) }
{
    sign(names, out, Sign::Cut)?;
    expr(alloc, names, out, 0, e)?;
    as_name(names, out, given)?;
    block(alloc, names, out, inner)?;
    Ok(())
}

/// A step.
#[cycle(blocks)]
fn step(
    alloc: Global,
    names: &NameList,
    out: &mut Vec<u8>,
    raw: &RawScriptStep,
) -> Result<(), AllocError>
    ensures { OnOk result (out.new.items ≡ out.old.items ++ printed names.now (show_step (plain_step raw.now))) }
{
    match &raw.what {
        RawStepKind::Same => same_step(names, out),
        RawStepKind::Sum(list) => sum_step(alloc, names, out, list.as_slice()),
        RawStepKind::Inst(h, es, given) => {
            inst_step(alloc, names, out, *h, es.as_slice(), given.name)
        }
        RawStepKind::Parts(h, a, b) => parts_step(alloc, names, out, *h, a.name, b.name),
        RawStepKind::Split(h, given, a, b) => {
            split_head(alloc, names, out, *h, given.name)?;
            block(alloc, names, out, a)?;
            block(alloc, names, out, b)?;
            Ok(())
        }
        RawStepKind::Cut(e, given, inner) => cut_step(alloc, names, out, inner, e, given.name),
        RawStepKind::Read(m, k, given) => lookup(alloc, names, out, Sign::Read, m, k, given.name),
        RawStepKind::Size(m, k, given) => lookup(alloc, names, out, Sign::Size, m, k, given.name),
        RawStepKind::Total(m, k, given) => lookup(alloc, names, out, Sign::Total, m, k, given.name),
        RawStepKind::Cong(m, j, k, given) => { cong_step(alloc, names, out, m, j, k, given.name) }
    }
}

/// The steps of a block, in braces.
#[cycle(blocks)]
#[tactic(auto, using(crate::proofs::Steps::joined))]
pub fn block(
    alloc: Global,
    names: &NameList,
    out: &mut Vec<u8>,
    raw: &RawBlock,
) -> Result<(), AllocError>
    ensures { OnOk result (out.new.items ≡ out.old.items ++ printed names.now (show_block (plain_block raw.now))) }
{
    sign(names, out, Sign::OpenBrace)?;
    steps(alloc, names, out, raw.steps.as_slice())?;
    sign(names, out, Sign::CloseBrace)?;
    Ok(())
}

/// Steps.
#[cycle(blocks)]
fn steps(
    alloc: Global,
    names: &NameList,
    out: &mut Vec<u8>,
    list: &[RawScriptStep],
) -> Result<(), AllocError>
    ensures { OnOk result (out.new.items ≡ out.old.items ++ printed names.now (show_steps (block_of (map plain_step list.now)))) }
{
    for x in list {
        step(alloc, names, out, x)?;
    }
    Ok(())
}
