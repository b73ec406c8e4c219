//! Writing operands, conditions, calculations and word operations.
ghost use Rattle.std.specs.Prelude.{◌≡◌, ◌++◌, OnOk};
ghost use Rattle.sync_parse_programs.specs.Operands.{operand, relation, condition, calculated, index, load, change, stored, cas, word_operation};
ghost use Rattle.sync_print_programs.specs.Written.{written_of};

use crate::lexemes::{name, sign};
use crate::lists::{numbered, scripts};
use std::alloc::{AllocError, Global};
use sync_base::NameList;
use sync_lex::Sign;
use sync_parse_programs::{
    RawCalculation, RawCas, RawChange, RawCondition, RawIndex, RawLoad, RawOperand, RawRelation,
    RawWordOperation,
};

/// A number or a local.
#[tactic(auto, unfolding(sync_parse_programs::specs::Operands::operand))]
pub fn operand(
    alloc: Global,
    names: &NameList,
    out: &mut Vec<u8>,
    x: RawOperand,
) -> Result<(), AllocError>
    ensures { OnOk result (out.new.items ≡ out.old.items ++ written_of names.now operand x) }
{
    match x {
        RawOperand::Number(n) => numbered(alloc, names, out, n),
        RawOperand::Local(local) => name(names, out, local),
    }
}

/// How the two operands of a condition compare.
#[tactic(auto, unfolding(sync_parse_programs::specs::Operands::relation))]
fn relation(names: &NameList, out: &mut Vec<u8>, x: RawRelation) -> Result<(), AllocError>
    ensures { OnOk result (out.new.items ≡ out.old.items ++ written_of names.now relation x) }
{
    match x {
        RawRelation::Equal => sign(names, out, Sign::Equal),
        RawRelation::NotEqual => sign(names, out, Sign::NotEqual),
        RawRelation::Below => sign(names, out, Sign::Below),
        RawRelation::AtMost => sign(names, out, Sign::AtMost),
    }
}

/// Two operands and the relation between them.
#[tactic(auto, unfolding(sync_parse_programs::specs::Operands::condition))]
pub fn condition(
    alloc: Global,
    names: &NameList,
    out: &mut Vec<u8>,
    x: RawCondition,
) -> Result<(), AllocError>
    ensures { OnOk result (out.new.items ≡ out.old.items ++ written_of names.now condition x) }
{
    operand(alloc, names, out, x.left)?;
    relation(names, out, x.relation)?;
    operand(alloc, names, out, x.right)?;
    Ok(())
}

/// What a local is set to by arithmetic.
#[tactic(auto, unfolding(sync_parse_programs::specs::Operands::calculated))]
pub fn calculated(
    alloc: Global,
    names: &NameList,
    out: &mut Vec<u8>,
    x: RawCalculation,
) -> Result<(), AllocError>
    ensures { OnOk result (out.new.items ≡ out.old.items ++ written_of names.now calculated x) }
{
    match x {
        RawCalculation::Plain(a) => operand(alloc, names, out, a),
        RawCalculation::Plus(a, b) => {
            operand(alloc, names, out, a)?;
            sign(names, out, Sign::Plus)?;
            operand(alloc, names, out, b)?;
            Ok(())
        }
        RawCalculation::Minus(a, b) => {
            operand(alloc, names, out, a)?;
            sign(names, out, Sign::Minus)?;
            operand(alloc, names, out, b)?;
            Ok(())
        }
        RawCalculation::Times(a, b) => {
            operand(alloc, names, out, a)?;
            sign(names, out, Sign::Star)?;
            numbered(alloc, names, out, b)?;
            Ok(())
        }
        RawCalculation::Over(a, b) => {
            operand(alloc, names, out, a)?;
            sign(names, out, Sign::Slash)?;
            numbered(alloc, names, out, b)?;
            Ok(())
        }
        RawCalculation::Modulo(a, b) => {
            operand(alloc, names, out, a)?;
            sign(names, out, Sign::Percent)?;
            numbered(alloc, names, out, b)?;
            Ok(())
        }
    }
}

/// An operand and its scripts, in square brackets.
#[tactic(auto, unfolding(sync_parse_programs::specs::Operands::index))]
pub fn index(
    alloc: Global,
    names: &NameList,
    out: &mut Vec<u8>,
    x: &RawIndex,
) -> Result<(), AllocError>
    ensures { OnOk result (out.new.items ≡ out.old.items ++ written_of names.now index x.now) }
{
    sign(names, out, Sign::OpenSquare)?;
    operand(alloc, names, out, x.operand)?;
    scripts(alloc, names, out, x.scripts.as_slice())?;
    sign(names, out, Sign::CloseSquare)?;
    Ok(())
}

#[tactic(auto, unfolding(sync_parse_programs::specs::Operands::load))]
fn load(alloc: Global, names: &NameList, out: &mut Vec<u8>, x: &RawLoad) -> Result<(), AllocError>
    ensures { OnOk result (out.new.items ≡ out.old.items ++ written_of names.now load x.now) }
{
    name(names, out, x.word)?;
    index(alloc, names, out, &x.index)?;
    Ok(())
}

#[tactic(auto, unfolding(sync_parse_programs::specs::Operands::change))]
fn change(
    alloc: Global,
    names: &NameList,
    out: &mut Vec<u8>,
    x: &RawChange,
) -> Result<(), AllocError>
    ensures { OnOk result (out.new.items ≡ out.old.items ++ written_of names.now change x.now) }
{
    name(names, out, x.word)?;
    index(alloc, names, out, &x.index)?;
    operand(alloc, names, out, x.operand)?;
    Ok(())
}

/// A word that is set to an operand.
#[tactic(auto, unfolding(sync_parse_programs::specs::Operands::stored))]
pub fn stored(
    alloc: Global,
    names: &NameList,
    out: &mut Vec<u8>,
    x: &RawChange,
) -> Result<(), AllocError>
    ensures { OnOk result (out.new.items ≡ out.old.items ++ written_of names.now stored x.now) }
{
    name(names, out, x.word)?;
    index(alloc, names, out, &x.index)?;
    sign(names, out, Sign::Equal)?;
    operand(alloc, names, out, x.operand)?;
    Ok(())
}

#[tactic(auto, unfolding(sync_parse_programs::specs::Operands::cas))]
fn cas(alloc: Global, names: &NameList, out: &mut Vec<u8>, x: &RawCas) -> Result<(), AllocError>
    ensures { OnOk result (out.new.items ≡ out.old.items ++ written_of names.now cas x.now) }
{
    name(names, out, x.word)?;
    index(alloc, names, out, &x.index)?;
    operand(alloc, names, out, x.expected)?;
    operand(alloc, names, out, x.changed)?;
    Ok(())
}

/// An operation on a word that gives a value.
#[tactic(auto, unfolding(sync_parse_programs::specs::Operands::word_operation))]
pub fn word_operation(
    alloc: Global,
    names: &NameList,
    out: &mut Vec<u8>,
    x: &RawWordOperation,
) -> Result<(), AllocError>
    ensures { OnOk result (out.new.items ≡ out.old.items ++ written_of names.now word_operation x.now) }
{
    match x {
        RawWordOperation::Load(operation) => {
            sign(names, out, Sign::Load)?;
            load(alloc, names, out, operation)?;
            Ok(())
        }
        RawWordOperation::Swap(operation) => {
            sign(names, out, Sign::Swap)?;
            change(alloc, names, out, operation)?;
            Ok(())
        }
        RawWordOperation::Add(operation) => {
            sign(names, out, Sign::Add)?;
            change(alloc, names, out, operation)?;
            Ok(())
        }
        RawWordOperation::Sub(operation) => {
            sign(names, out, Sign::Sub)?;
            change(alloc, names, out, operation)?;
            Ok(())
        }
        RawWordOperation::Cas(operation) => {
            sign(names, out, Sign::Cas)?;
            cas(alloc, names, out, operation)?;
            Ok(())
        }
    }
}
