//! What statements owe at a line: tests, terms that are made, and formulas that are clear or that a script proves.
ghost use Rattle.std.specs.Prelude.{◌≡◌, ◌∷◌, [], OnOk, IfOk, Ok, map};
ghost use Rattle.std.specs.List.{All};
ghost use Rattle.sync_base.specs.Outcome.{Gives, Passes};
ghost use Rattle.sync_base.specs.declared.stops.Rule.TheVariants.{T1};
ghost use Rattle.sync_base.specs.declared.stops.Stop.TheVariants.{Refused};
ghost use Rattle.sync_terms.specs.Building.{BuildsForm, BuildsTerm, HasTerm};
ghost use Rattle.sync_terms.specs.Trees.{Formula, Lit, Name, Tree};
ghost use Rattle.sync_terms.specs.Stored.{tree, formula, IsForm, IsTerm, Extends, Stored};
ghost use Rattle.sync_thread.specs.Views.{script_tree, scripts_tree};
ghost use Rattle.sync_typing.specs.Dues.{script_rule, show};
ghost use Rattle.sync_typing.specs.Environments.{is_at_hand};
ghost use Rattle.sync_typing.specs.Symbols.{scripts_name_only};
ghost use Rattle.sync_terms.specs.Plans.{IsScriptOf};
ghost use Rattle.sync_typing_places.specs.Places.{all_at_hand, env_of, none_left, wanted, AreScriptsOf, Becomes, IsOwn, MakesForm, MakesTerm};

use crate::clearing::is_clear;
use crate::naming::{Named, all_at_hand, scripts_at_hand};
use crate::places::Place;
use std::alloc::Global;
use sync_base::{NoMemory, Refusal, Rule, Stop};
use sync_kernel::prove_by_names;
use sync_kernel_facts::Literal;
use sync_terms::{FormId, MOST_NODES, Node, Script, Sym, TermId, TermStop, Terms, building};

/// A refusal at a line.
pub fn refused(line: u32, rule: Rule) -> Stop
    ensures { result ≡ Refused (record { line = line; rule = rule }) }
{
    Stop::Refused(Refusal { line, rule })
}

/// A test is true, or the rule is broken.
pub fn wants(line: u32, rule: Rule, test: bool) -> Result<(), Stop>
    ensures { result ≡ wanted line rule test }
{
    if test {
        Ok(())
    } else {
        Err(refused(line, rule))
    }
}

/// A term that was to be made at a line.
pub fn made(line: u32, built: Result<TermId, TermStop>) -> Result<TermId, Stop>
    ensures { (s : Stored) (t : Tree) → BuildsTerm s t built → MakesTerm s line t result }
{
    match built {
        Ok(id) => Ok(id),
        Err(TermStop::TooLarge) => Err(refused(line, Rule::K8)),
        Err(TermStop::Memory) => Err(Stop::Memory),
    }
}

/// A formula that was to be made at a line.
pub fn form_made(line: u32, built: Result<FormId, TermStop>) -> Result<FormId, Stop>
    ensures { (s : Stored) (f : Formula) → BuildsForm s f built → MakesForm s line f result }
{
    match built {
        Ok(id) => Ok(id),
        Err(TermStop::TooLarge) => Err(refused(line, Rule::K8)),
        Err(TermStop::Memory) => Err(Stop::Memory),
    }
}

/// The term of a number. One node is never too large.
pub fn literal(terms: &mut Terms, number: i128) -> Result<TermId, NoMemory>
    ensures value { IfOk result (HasTerm terms.new (Lit number)) }
    ensures keeps { Extends terms.old terms.new }
{
    building::term(terms, Node::Lit(number)).map_err(|_| NoMemory)
}

/// The term that names a symbol. One node is never too large.
pub fn name_of(terms: &mut Terms, symbol: Sym) -> Result<TermId, NoMemory>
    ensures value { IfOk result (HasTerm terms.new (Name symbol.0)) }
    ensures keeps { Extends terms.old terms.new }
{
    building::term(terms, Node::Name(symbol)).map_err(|_| NoMemory)
}

/// The scripts that a statement has left, the first first.
#[derive(Clone, Copy)]
pub struct Scripts<'a> {
    pub left: &'a [Script],
}

/// No script is left over, or that is a broken rule at the line of the first.
pub fn spare(scripts: &Scripts) -> Result<(), Stop>
    ensures { (s : Stored) → Gives (λ u. u) result (none_left (scripts_tree s scripts.now.left.now)) }
{
    let Some((script, _)) = scripts.left.split_first() else {
        return Ok(());
    };
    Err(refused(script.line, Rule::I2))
}

impl Place {
    /// What the terms, the formulas and the scripts of a statement name is at hand, or T1.
    pub fn at_hand(
        &self,
        terms: &Terms,
        line: u32,
        list: &[TermId],
        forms: &[FormId],
        scripts: &[Script],
    ) -> Result<(), Stop>
        requires own { IsOwn terms.now self.now }
        requires list { All (IsTerm terms.now) list.now }
        requires forms { All (IsForm terms.now) forms.now }
        requires scripts { AreScriptsOf terms.now scripts.now }
        ensures { result ≡ wanted line T1 (all_at_hand (env_of terms.now self.now) (map (tree terms.now) list.now)
            (map (formula terms.now) forms.now) (scripts_tree terms.now scripts.now)) }
    {
        let named = Named {
            list,
            forms,
            scripts,
        };
        let known = all_at_hand(terms, &self.hand.names, &named);
        wants(line, Rule::T1, known)
    }

    /// Whether all that some scripts name is at hand.
    pub fn has_names_in(&self, terms: &Terms, scripts: &[Script]) -> bool
        requires own { IsOwn terms.now self.now }
        requires scripts { AreScriptsOf terms.now scripts.now }
        ensures { result ≡ scripts_name_only (is_at_hand (env_of terms.now self.now)) (scripts_tree terms.now scripts.now) }
    {
        scripts_at_hand(terms, &self.hand.names, scripts)
    }

    /// A script proves a claim from what is known, its names standing for their terms here.
    fn prove(
        &mut self,
        terms: &mut Terms,
        line: u32,
        claim: FormId,
        script: &Script,
    ) -> Result<(), Stop>
        requires own { IsOwn terms.old self.old }
        requires claim { IsForm terms.old claim }
        requires script { IsScriptOf terms.old script.now.block }
        ensures proves { Passes result (script_rule (env_of terms.old self.old) line (formula terms.old claim) (script_tree terms.old script.now)) }
        ensures same { OnOk result (Becomes terms.old terms.new self.old self.new (env_of terms.old self.old)) }
        ensures keeps { Extends terms.old terms.new }
    {
        if !self.known.fit(Literal::denial(terms, claim).size(terms)) {
            return Err(refused(line, Rule::K8));
        }
        prove_by_names(
            self.alloc,
            terms,
            &self.hand.names,
            &mut self.known,
            claim,
            script,
        )
    }

    /// A claim is clear, or the first script that is left proves it, or the rule is broken.
    pub fn owes(
        &mut self,
        terms: &mut Terms,
        line: u32,
        rule: Rule,
        claim: FormId,
        scripts: &mut Scripts,
    ) -> Result<(), Stop>
        requires own { IsOwn terms.old self.old }
        requires claim { IsForm terms.old claim }
        requires scripts { AreScriptsOf terms.old scripts.old.left.now }
        ensures shows { Gives (λ u. scripts_tree terms.old scripts.new.left.now) result
            (show (env_of terms.old self.old) line rule (formula terms.old claim) (scripts_tree terms.old scripts.old.left.now)) }
        ensures scripts { OnOk result (AreScriptsOf terms.old scripts.new.left.now) }
        ensures same { OnOk result (Becomes terms.old terms.new self.old self.new (env_of terms.old self.old)) }
        ensures keeps { Extends terms.old terms.new }
    {
        prove!(terms.size_of(claim) <= MOST_NODES);
        if is_clear(self.alloc, terms, claim)? {
            return Ok(());
        }
        let Some((script, left)) = scripts.left.split_first() else {
            return Err(refused(line, rule));
        };
        self.prove(terms, line, claim, script)?;
        scripts.left = left;
        Ok(())
    }
}
