//! Operands, conditions, calculations, indices and scripts of a program.
ghost use Rattle.std.specs.Prelude.{◌≡◌, []};
ghost use Rattle.sync_base.specs.Outcome.{Gives};
ghost use Rattle.sync_terms.specs.Stored.{Stored, Extends};
ghost use Rattle.sync_thread.specs.Views.{script_tree, scripts_tree, index_tree};
ghost use Rattle.sync_read_programs.specs.Operands.{place_of, token_name, token_name_if, label_of, word_number, divisor, local_in, operand_in, two_operands, operand_and_divisor, relation_of, condition_in, calculation_in, one_script, scripts_from, index_in};

use crate::scopes::ProgramScope;
use sqlite_items::Items;
use std::alloc::Global;
use sync_base::{LONGEST_TEXT, Rule, Stop};
use sync_parse::RawScript;
use sync_parse_exprs::RawName;
use sync_parse_programs::{
    RawCalculation, RawCondition, RawIndex, RawNumber, RawOperand, RawRelation,
};
use sync_read::{few_before, script};
use sync_read_names::refused;
use sync_terms::{Script, Terms};
use sync_thread::{Calc, Cond, Idx, Opd, Rel};

/// A number that is a place; what is above 4,294,967,295 is kept as that.
pub(crate) fn place_of(number: u128) -> u32
    ensures { result ≡ place_of number }
{
    number.min(u32::MAX as u128) as u32
}

/// The number of the name of a token; a text has fewer names than bytes.
pub(crate) fn token_name(named: RawName) -> u32
    ensures { result ≡ token_name named }
{
    named.name.min(LONGEST_TEXT as u32 - 1)
}

/// The same, where there is a name.
pub(crate) fn token_name_if(named: Option<RawName>) -> Option<u32>
    ensures { result ≡ token_name_if named }
{
    match named {
        Some(named) => Some(token_name(named)),
        None => None,
    }
}

/// The name of a label.
pub(crate) fn label_of(label: Option<RawName>) -> Option<u32>
    ensures { result ≡ label_of label }
{
    match label {
        Some(named) => Some(named.name),
        None => None,
    }
}

/// A number of a word.
pub(crate) fn word_number(raw: RawNumber) -> Result<u64, Stop>
    ensures { Gives (λ n. n) result (word_number raw) }
{
    if raw.number <= u64::MAX as u128 {
        Ok(raw.number as u64)
    } else {
        Err(refused(Rule::N5, raw.line))
    }
}

/// A factor or a divisor.
fn divisor(raw: RawNumber) -> Result<u64, Stop>
    ensures { Gives (λ n. n) result (divisor raw) }
{
    if raw.number == 0 {
        return Err(refused(Rule::N5, raw.line));
    }
    word_number(raw)
}

/// A local that is known here.
fn local(scope: &ProgramScope, raw: RawName) -> Result<u32, Stop>
    ensures { Gives (λ n. n) result (local_in scope.now raw) }
{
    if scope.scope.is_assigned(raw.name) {
        Ok(raw.name)
    } else {
        Err(refused(Rule::N1, raw.line))
    }
}

pub(crate) fn operand(scope: &ProgramScope, raw: RawOperand) -> Result<Opd, Stop>
    ensures { Gives (λ x. x) result (operand_in scope.now raw) }
{
    match raw {
        RawOperand::Number(number) => Ok(Opd::Number(word_number(number)?)),
        RawOperand::Local(named) => Ok(Opd::Local(local(scope, named)?)),
    }
}

pub(crate) fn two_operands(
    scope: &ProgramScope,
    a: RawOperand,
    b: RawOperand,
) -> Result<(Opd, Opd), Stop>
    ensures { Gives (λ x. x) result (two_operands scope.now a b) }
{
    let a = operand(scope, a)?;
    let b = operand(scope, b)?;
    Ok((a, b))
}

fn operand_and_divisor(
    scope: &ProgramScope,
    a: RawOperand,
    n: RawNumber,
) -> Result<(Opd, u64), Stop>
    ensures { Gives (λ x. x) result (operand_and_divisor scope.now a n) }
{
    let a = operand(scope, a)?;
    let n = divisor(n)?;
    Ok((a, n))
}

fn relation_of(raw: RawRelation) -> Rel
    ensures { result ≡ relation_of raw }
{
    match raw {
        RawRelation::Equal => Rel::Eq,
        RawRelation::NotEqual => Rel::Ne,
        RawRelation::Below => Rel::Lt,
        RawRelation::AtMost => Rel::Le,
    }
}

#[tactic(auto, unfolding(crate::specs::Operands::condition_in))]
pub(crate) fn condition(scope: &ProgramScope, raw: RawCondition) -> Result<Cond, Stop>
    ensures { Gives (λ x. x) result (condition_in scope.now raw) }
{
    let (left, right) = two_operands(scope, raw.left, raw.right)?;
    Ok(Cond {
        left,
        rel: relation_of(raw.relation),
        right,
    })
}

#[tactic(auto, unfolding(crate::specs::Operands::calculation_in))]
pub(crate) fn calculation(scope: &ProgramScope, raw: RawCalculation) -> Result<Calc, Stop>
    ensures { Gives (λ x. x) result (calculation_in scope.now raw) }
{
    match raw {
        RawCalculation::Plain(a) => Ok(Calc::Plain(operand(scope, a)?)),
        RawCalculation::Plus(a, b) => {
            let (a, b) = two_operands(scope, a, b)?;
            Ok(Calc::Plus(a, b))
        }
        RawCalculation::Minus(a, b) => {
            let (a, b) = two_operands(scope, a, b)?;
            Ok(Calc::Minus(a, b))
        }
        RawCalculation::Times(a, n) => {
            let (a, n) = operand_and_divisor(scope, a, n)?;
            Ok(Calc::Times(a, n))
        }
        RawCalculation::Over(a, n) => {
            let (a, n) = operand_and_divisor(scope, a, n)?;
            Ok(Calc::Over(a, n))
        }
        RawCalculation::Modulo(a, n) => {
            let (a, n) = operand_and_divisor(scope, a, n)?;
            Ok(Calc::Modulo(a, n))
        }
    }
}

/// One more script; a text has at most 65,536.
#[tactic(auto, using(sync_read_names::proofs::Kept::stays), unfolding(crate::specs::Operands::one_script))]
fn one_script(
    alloc: Global,
    terms: &mut Terms,
    scope: &mut ProgramScope,
    raw: &RawScript,
) -> Result<Script, Stop>
    ensures exact { (t : Stored) → Extends terms.new t →
        Gives (λ x. (script_tree t x, scope.new)) result (one_script scope.old raw.now) }
    ensures keeps { Extends terms.old terms.new }
{
    let before = few_before(65536, scope.scripts, raw.line)?;
    let made = script(alloc, terms, &scope.scope, raw)?;
    scope.scripts = before + 1;
    Ok(made)
}

#[tactic(auto, using(sync_read_names::proofs::Kept::along, sync_read_names::proofs::Kept::stays), unfolding(crate::specs::Operands::scripts_from))]
pub(crate) fn scripts(
    alloc: Global,
    terms: &mut Terms,
    scope: &mut ProgramScope,
    raw: &[RawScript],
) -> Result<Items<Script>, Stop>
    ensures exact { (t : Stored) → Extends terms.new t →
        Gives (λ xs. (scripts_tree t xs, scope.new)) result (scripts_from [] scope.old raw.now) }
    ensures keeps { Extends terms.old terms.new }
{
    let mut held = Items::new(alloc);
    for x in raw {
        let made = one_script(alloc, terms, scope, x)?;
        held.push(made)?;
    }
    Ok(held)
}

#[tactic(auto, using(sync_read_names::proofs::Kept::along, sync_read_names::proofs::Kept::stays), unfolding(crate::specs::Operands::index_in))]
pub(crate) fn index(
    alloc: Global,
    terms: &mut Terms,
    scope: &mut ProgramScope,
    raw: &RawIndex,
) -> Result<Idx, Stop>
    ensures exact { (t : Stored) → Extends terms.new t →
        Gives (λ x. (index_tree t x, scope.new)) result (index_in scope.old raw.now) }
    ensures keeps { Extends terms.old terms.new }
{
    let opd = operand(scope, raw.operand)?;
    let scripts = scripts(alloc, terms, scope, raw.scripts.as_slice())?;
    Ok(Idx { opd, scripts })
}
