//! Writing machines and their proofs.
ghost use Rattle.std.specs.Prelude.{◌≡◌, ◌++◌, map, OnOk, IfOk};
ghost use Rattle.std.specs.List.{flat_map};
ghost use Rattle.sync_print.specs.Exprs.{plain};
ghost use Rattle.sync_print.specs.Texts.{value, key, entry, have_variable, name_number, plain_pattern, plain_place, plain_act, plain_field, plain_operation, plain_invariant, plain_machine, plain_claim, plain_proof, plain_text};
ghost use Rattle.sync_print.specs.Lexemes.{printed, one_name, listed};
ghost use Rattle.sync_print.specs.ShowTexts.{show_pattern, show_place, show_formula_act, show_value_act, show_place_act, show_act, show_field, mode_sign, show_names, show_operation, show_invariant, show_machine, show_claim, show_proof, show_proofs, show_version, show};

use crate::exprs::expr;
use crate::lexemes::{name, needed, number, sign, sign_and_name, sign_and_number, strategy};
use crate::scripts::block;
use sqlite_items::Items;
use std::alloc::{AllocError, Global};
use sync_base::{NameList, OpMode};
use sync_lex::Sign;
use sync_parse::{
    RawAct, RawClaim, RawField, RawInvariant, RawMachine, RawOperation, RawPattern, RawPlace,
    RawProof, RawStep, RawText,
};
use sync_parse_exprs::{RawExpr, RawName};

// ---- statements

#[tactic(auto, using(crate::proofs::Steps::joined))]
fn pattern(
    alloc: Global,
    names: &NameList,
    out: &mut Vec<u8>,
    pattern: &RawPattern,
) -> Result<(), AllocError>
    ensures { OnOk result (out.new.items ≡ out.old.items ++ printed names.now (show_pattern (plain_pattern pattern.now))) }
{
    match pattern {
        RawPattern::Bind(named) => sign_and_name(names, out, Sign::Question, named.name),
        RawPattern::Term(e) => expr(alloc, names, out, 0, e),
    }
}

/// `(v)`.
#[tactic(auto, using(crate::proofs::Steps::joined))]
fn value_place(
    alloc: Global,
    names: &NameList,
    out: &mut Vec<u8>,
    p: &RawPattern,
) -> Result<(), AllocError>
    ensures { OnOk result (out.new.items ≡ out.old.items ++ printed names.now (show_place (value (plain_pattern p.now)))) }
{
    sign(names, out, Sign::OpenRound)?;
    pattern(alloc, names, out, p)?;
    sign(names, out, Sign::CloseRound)?;
    Ok(())
}

/// `[k]`.
#[tactic(auto, using(crate::proofs::Steps::joined))]
fn key_place(
    alloc: Global,
    names: &NameList,
    out: &mut Vec<u8>,
    e: &RawExpr,
) -> Result<(), AllocError>
    ensures { OnOk result (out.new.items ≡ out.old.items ++ printed names.now (show_place (key (plain e.now)))) }
{
    sign(names, out, Sign::OpenSquare)?;
    expr(alloc, names, out, 0, e)?;
    sign(names, out, Sign::CloseSquare)?;
    Ok(())
}

/// `[k => v]`.
#[tactic(auto, using(crate::proofs::Steps::joined))]
fn entry_place(
    alloc: Global,
    names: &NameList,
    out: &mut Vec<u8>,
    e: &RawExpr,
    p: &RawPattern,
) -> Result<(), AllocError>
    ensures { OnOk result (out.new.items ≡ out.old.items ++ printed names.now (show_place (entry (plain e.now) (plain_pattern p.now)))) }
{
    sign(names, out, Sign::OpenSquare)?;
    expr(alloc, names, out, 0, e)?;
    sign(names, out, Sign::MapsTo)?;
    pattern(alloc, names, out, p)?;
    sign(names, out, Sign::CloseSquare)?;
    Ok(())
}

#[tactic(auto, using(crate::proofs::Steps::joined))]
fn place(
    alloc: Global,
    names: &NameList,
    out: &mut Vec<u8>,
    place: &RawPlace,
) -> Result<(), AllocError>
    ensures { OnOk result (out.new.items ≡ out.old.items ++ printed names.now (show_place (plain_place place.now))) }
{
    match place {
        RawPlace::Value(p) => value_place(alloc, names, out, p),
        RawPlace::Key(e) => key_place(alloc, names, out, e),
        RawPlace::Entry(e, p) => entry_place(alloc, names, out, e, p),
    }
}

/// A terminal and a formula.
#[tactic(auto, using(crate::proofs::Steps::joined))]
fn formula_act(
    alloc: Global,
    names: &NameList,
    out: &mut Vec<u8>,
    opening: Sign,
    e: &RawExpr,
) -> Result<(), AllocError>
    ensures { OnOk result (out.new.items ≡ out.old.items ++ printed names.now (show_formula_act opening (plain e.now))) }
{
    sign(names, out, opening)?;
    expr(alloc, names, out, 0, e)?;
    sign(names, out, Sign::Semicolon)?;
    Ok(())
}

/// A terminal, a field and its value.
#[tactic(auto, using(crate::proofs::Steps::joined))]
fn value_act(
    alloc: Global,
    names: &NameList,
    out: &mut Vec<u8>,
    opening: Sign,
    field: RawName,
    e: &RawExpr,
) -> Result<(), AllocError>
    ensures { OnOk result (out.new.items ≡ out.old.items ++ printed names.now (show_value_act opening field.name (plain e.now))) }
{
    sign(names, out, opening)?;
    name(names, out, field.name)?;
    sign(names, out, Sign::Equal)?;
    expr(alloc, names, out, 0, e)?;
    sign(names, out, Sign::Semicolon)?;
    Ok(())
}

/// A terminal, a field, a sign and what is said of the field.
#[tactic(auto, using(crate::proofs::Steps::joined))]
fn place_act(
    alloc: Global,
    names: &NameList,
    out: &mut Vec<u8>,
    opening: Sign,
    field: RawName,
    symbol: Sign,
    p: &RawPlace,
) -> Result<(), AllocError>
    ensures { OnOk result (out.new.items ≡ out.old.items ++ printed names.now (show_place_act opening field.name symbol (plain_place p.now))) }
{
    sign(names, out, opening)?;
    name(names, out, field.name)?;
    sign(names, out, symbol)?;
    place(alloc, names, out, p)?;
    sign(names, out, Sign::Semicolon)?;
    Ok(())
}

/// `have f;`
#[tactic(auto, using(crate::proofs::Steps::joined))]
fn have_act(names: &NameList, out: &mut Vec<u8>, x: u32) -> Result<(), AllocError>
    ensures { OnOk result (out.new.items ≡ out.old.items ++ printed names.now (show_act (have_variable x))) }
{
    sign(names, out, Sign::Have)?;
    name(names, out, x)?;
    sign(names, out, Sign::Semicolon)?;
    Ok(())
}

/// A statement.
#[tactic(auto, using(crate::proofs::Steps::joined))]
fn act(alloc: Global, names: &NameList, out: &mut Vec<u8>, act: &RawStep) -> Result<(), AllocError>
    ensures { OnOk result (out.new.items ≡ out.old.items ++ printed names.now (show_act (plain_act act.now))) }
{
    match &act.what {
        RawAct::Init(x, e) => value_act(alloc, names, out, Sign::Init, *x, e),
        RawAct::Require(e) => formula_act(alloc, names, out, Sign::Require, e),
        RawAct::Assert(e) => formula_act(alloc, names, out, Sign::Assert, e),
        RawAct::Update(x, e) => value_act(alloc, names, out, Sign::Update, *x, e),
        RawAct::HaveVariable(x) => have_act(names, out, x.name),
        RawAct::Have(x, p) => place_act(alloc, names, out, Sign::Have, *x, Sign::AtLeast, p),
        RawAct::Guard(x, p) => place_act(alloc, names, out, Sign::Guard, *x, Sign::AtLeast, p),
        RawAct::Add(x, p) => place_act(alloc, names, out, Sign::Add, *x, Sign::PlusEqual, p),
        RawAct::Deposit(x, p) => {
            place_act(alloc, names, out, Sign::Deposit, *x, Sign::PlusEqual, p)
        }
        RawAct::Remove(x, p) => {
            place_act(alloc, names, out, Sign::Remove, *x, Sign::MinusEqual, p)
        }
        RawAct::Withdraw(x, p) => {
            place_act(alloc, names, out, Sign::Withdraw, *x, Sign::MinusEqual, p)
        }
    }
}

/// Statements.
#[tactic(auto, using(crate::proofs::Steps::joined))]
fn acts(
    alloc: Global,
    names: &NameList,
    out: &mut Vec<u8>,
    list: &[RawStep],
) -> Result<(), AllocError>
    ensures { OnOk result (out.new.items ≡ out.old.items ++ printed names.now (flat_map show_act (map plain_act list.now))) }
{
    for x in list {
        act(alloc, names, out, x)?;
    }
    Ok(())
}

// ---- machines

#[tactic(auto, using(crate::proofs::Steps::joined))]
fn field(names: &NameList, out: &mut Vec<u8>, field: RawField) -> Result<(), AllocError>
    ensures { OnOk result (out.new.items ≡ out.old.items ++ printed names.now (show_field (plain_field field))) }
{
    sign(names, out, Sign::Field)?;
    name(names, out, field.name.name)?;
    sign(names, out, Sign::Colon)?;
    strategy(names, out, field.strategy)?;
    sign(names, out, Sign::Semicolon)?;
    Ok(())
}

#[tactic(auto, using(crate::proofs::Steps::joined))]
fn fields(names: &NameList, out: &mut Vec<u8>, list: &[RawField]) -> Result<(), AllocError>
    ensures { OnOk result (out.new.items ≡ out.old.items ++ printed names.now (flat_map show_field (map plain_field list.now))) }
{
    for x in list {
        field(names, out, *x)?;
    }
    Ok(())
}

fn mode_sign(mode: OpMode) -> Sign
    ensures { result ≡ mode_sign mode }
{
    match mode {
        OpMode::Init => Sign::Init,
        OpMode::Transition => Sign::Transition,
        OpMode::Property => Sign::Property,
    }
}

/// Names with commas between.
#[tactic(auto, using(crate::proofs::Steps::joined))]
fn name_series(names: &NameList, out: &mut Vec<u8>, list: &[RawName]) -> Result<(), AllocError>
    ensures { OnOk result (out.new.items ≡ out.old.items ++ printed names.now (listed (map one_name (map name_number list.now)))) }
{
    let mut behind = false;
    for x in list {
        needed(names, out, behind, Sign::Comma)?;
        name(names, out, x.name)?;
        behind = true;
    }
    Ok(())
}

/// Names in round brackets.
#[tactic(auto, using(crate::proofs::Steps::joined))]
fn params(names: &NameList, out: &mut Vec<u8>, list: &[RawName]) -> Result<(), AllocError>
    ensures { OnOk result (out.new.items ≡ out.old.items ++ printed names.now (show_names (map name_number list.now))) }
{
    sign(names, out, Sign::OpenRound)?;
    name_series(names, out, list)?;
    sign(names, out, Sign::CloseRound)?;
    Ok(())
}

#[tactic(auto, using(crate::proofs::Steps::joined))]
fn operation(
    alloc: Global,
    names: &NameList,
    out: &mut Vec<u8>,
    operation: &RawOperation,
) -> Result<(), AllocError>
    ensures { OnOk result (out.new.items ≡ out.old.items ++ printed names.now (show_operation (plain_operation operation.now))) }
{
    sign(names, out, mode_sign(operation.mode))?;
    name(names, out, operation.name.name)?;
    params(names, out, operation.params.as_slice())?;
    sign(names, out, Sign::OpenBrace)?;
    acts(alloc, names, out, operation.steps.as_slice())?;
    sign(names, out, Sign::CloseBrace)?;
    Ok(())
}

#[tactic(auto, using(crate::proofs::Steps::joined))]
fn operations(
    alloc: Global,
    names: &NameList,
    out: &mut Vec<u8>,
    list: &[RawOperation],
) -> Result<(), AllocError>
    ensures { OnOk result (out.new.items ≡ out.old.items ++ printed names.now (flat_map show_operation (map plain_operation list.now))) }
{
    for x in list {
        operation(alloc, names, out, x)?;
    }
    Ok(())
}

#[tactic(auto, using(crate::proofs::Steps::joined))]
fn invariant(
    alloc: Global,
    names: &NameList,
    out: &mut Vec<u8>,
    raw: &RawInvariant,
) -> Result<(), AllocError>
    ensures { OnOk result (out.new.items ≡ out.old.items ++ printed names.now (show_invariant (plain_invariant raw.now))) }
{
    sign(names, out, Sign::Invariant)?;
    name(names, out, raw.name.name)?;
    params(names, out, raw.params.as_slice())?;
    sign(names, out, Sign::Colon)?;
    expr(alloc, names, out, 0, &raw.form)?;
    sign(names, out, Sign::Semicolon)?;
    Ok(())
}

#[tactic(auto, using(crate::proofs::Steps::joined))]
fn invariants(
    alloc: Global,
    names: &NameList,
    out: &mut Vec<u8>,
    list: &[RawInvariant],
) -> Result<(), AllocError>
    ensures { OnOk result (out.new.items ≡ out.old.items ++ printed names.now (flat_map show_invariant (map plain_invariant list.now))) }
{
    for x in list {
        invariant(alloc, names, out, x)?;
    }
    Ok(())
}

/// A machine.
#[tactic(auto, using(crate::proofs::Steps::joined))]
pub fn machine(
    alloc: Global,
    names: &NameList,
    out: &mut Vec<u8>,
    machine: &RawMachine,
) -> Result<(), AllocError>
    ensures { OnOk result (out.new.items ≡ out.old.items ++ printed names.now (show_machine (plain_machine machine.now))) }
{
    sign(names, out, Sign::Machine)?;
    name(names, out, machine.name.name)?;
    sign(names, out, Sign::OpenBrace)?;
    fields(names, out, machine.fields.as_slice())?;
    operations(alloc, names, out, machine.operations.as_slice())?;
    invariants(alloc, names, out, machine.invariants.as_slice())?;
    sign(names, out, Sign::CloseBrace)?;
    Ok(())
}

// ---- proofs

#[tactic(auto, using(crate::proofs::Steps::joined))]
fn claim(
    alloc: Global,
    names: &NameList,
    out: &mut Vec<u8>,
    claim: RawClaim,
) -> Result<(), AllocError>
    ensures { OnOk result (out.new.items ≡ out.old.items ++ printed names.now (show_claim (plain_claim claim))) }
{
    match claim {
        RawClaim::Keeps(named) => sign_and_name(names, out, Sign::Keeps, named.name),
        RawClaim::At(place) => sign_and_number(alloc, names, out, Sign::At, place as u128),
    }
}

#[tactic(auto, using(crate::proofs::Steps::joined))]
fn proof(
    alloc: Global,
    names: &NameList,
    out: &mut Vec<u8>,
    proof: &RawProof,
) -> Result<(), AllocError>
    ensures { OnOk result (out.new.items ≡ out.old.items ++ printed names.now (show_proof (plain_proof proof.now))) }
{
    name(names, out, proof.operation.name)?;
    claim(alloc, names, out, proof.claim)?;
    sign(names, out, Sign::By)?;
    block(alloc, names, out, &proof.script.block)?;
    Ok(())
}

#[tactic(auto, using(crate::proofs::Steps::joined))]
fn proof_row(
    alloc: Global,
    names: &NameList,
    out: &mut Vec<u8>,
    list: &[RawProof],
) -> Result<(), AllocError>
    ensures { OnOk result (out.new.items ≡ out.old.items ++ printed names.now (flat_map show_proof (map plain_proof list.now))) }
{
    for x in list {
        proof(alloc, names, out, x)?;
    }
    Ok(())
}

/// The proofs, if there are any.
#[tactic(auto, using(crate::proofs::Steps::joined))]
pub fn proofs(
    alloc: Global,
    names: &NameList,
    out: &mut Vec<u8>,
    list: &[RawProof],
) -> Result<(), AllocError>
    ensures { OnOk result (out.new.items ≡ out.old.items ++ printed names.now (show_proofs (map plain_proof list.now))) }
{
    if list.is_empty() {
        return Ok(());
    }
    sign(names, out, Sign::Proofs)?;
    sign(names, out, Sign::OpenBrace)?;
    proof_row(alloc, names, out, list)?;
    sign(names, out, Sign::CloseBrace)?;
    Ok(())
}

// ---- texts

/// What stands before the machine.
#[tactic(auto, using(crate::proofs::Steps::joined))]
pub fn version(alloc: Global, names: &NameList, out: &mut Vec<u8>) -> Result<(), AllocError>
    ensures { OnOk result (out.new.items ≡ out.old.items ++ printed names.now show_version) }
{
    sign(names, out, Sign::Version)?;
    number(alloc, names, out, 1)?;
    sign(names, out, Sign::Semicolon)?;
    Ok(())
}

/// A text.
#[tactic(auto, using(crate::proofs::Steps::joined))]
fn write(
    alloc: Global,
    names: &NameList,
    out: &mut Vec<u8>,
    text: &RawText,
) -> Result<(), AllocError>
    ensures { OnOk result (out.new.items ≡ out.old.items ++ printed names.now (show (plain_text text.now))) }
{
    version(alloc, names, out)?;
    machine(alloc, names, out, &text.machine)?;
    proofs(alloc, names, out, text.proofs.as_slice())?;
    Ok(())
}

/// The canonical bytes of a text: its lexemes in order, each with a line feed behind it if it is `;`, `{` or `}`, else with
/// a space. Brackets stand only where their place would not spell its tree without them.
///
/// The names are those of the text. Fails only for want of memory.
pub fn print(alloc: Global, text: &RawText) -> Result<Items<u8>, AllocError>
    ensures exact { IfOk result (λ bytes. bytes ≡ printed text.now.names (show (plain_text text.now))) }
{
    let mut out = Vec::new(alloc);
    write(alloc, &text.names, &mut out, text)?;
    Ok(Items::from_vec(out))
}
