//! The slots of variables and the statements of an operation, one at a time.
ghost use Rattle.std.specs.Prelude.{◌≡◌, pos, OnOk};
ghost use Rattle.std.specs.List.{AllByRecursion};
ghost use Rattle.sync_terms.specs.Stored.{tree, formula, IsTerm, IsForm};
ghost use Rattle.sync_machine.specs.Machines as acts;
ghost use Rattle.sync_machine.specs.States as states;
ghost use Rattle.sync_machine.specs.Views.{step_tree, steps_tree, act_tree, place_tree, HasActIds, HasPlaceIds};
ghost use Rattle.sync_machine.specs.declared.machine.Step.{Step as Statement};
ghost use Rattle.sync_join.specs.Join as shards;
ghost use Rattle.sync_join.specs.Views.{value_tree};
ghost use Rattle.sync_rules.specs.Views.{slots_tree};
ghost use Rattle.sync_exchange.specs.Exchange as exchanges;
ghost use Rattle.sync_exchange.specs.Outcomes.{Leaves};
ghost use Rattle.sync_exchange.specs.Works.{now_of, changed, StartsAs, ChangesAs, UsesAs, ActsAt, ActsAs, ActsAll};

use crate::cases::{Asked, Case};
use crate::changes::Change;
use crate::evaluation::{Found, binds, is_of_variable};
use crate::hands::XStop;
use crate::works::Work;
use sync_base::NoMemory;
use sync_join::{PERM, Token, Value};
use sync_machine::{Act, Place, Step, Strategy, strategy_at};
use sync_rules::{Role, Slot};
use sync_terms::{FormId, TermId};

/// A value as a number; a map counts as 0.
fn number(value: &Value) -> i128
    ensures { result ≡ shards.number_of (value_tree value.now) }
{
    match value {
        Value::Number(n) => *n,
        Value::Map(_) => 0,
    }
}

/// A token of a field with a value as its amount.
fn amount(field: u32, value: &Value) -> Token
    ensures { result ≡ record { field = field; key = pos 0; value = shards.number_of (value_tree value.now) } }
{
    Token {
        field,
        key: 0,
        value: number(value),
    }
}

/// The permission of an object that was found.
fn permission(found: Found) -> Token
    ensures { result ≡ exchanges.permission found.asked.key found.token.value }
{
    Token {
        field: PERM,
        key: found.asked.key,
        value: found.token.value,
    }
}

/// That a record becomes this value.
fn becomes(value: Value) -> Change
    ensures { (old : states.Value) → changed result old ≡ value_tree value }
{
    match value {
        Value::Number(n) => Change::Number(n),
        Value::Map(entries) => Change::Map(entries),
    }
}

impl Work {
    /// The slot of a variable.
    fn use_variable(&mut self, case: &Case<'_>, slot: &Slot) -> Result<(), XStop>
        ensures { Leaves result (now_of case.now self.new) (exchanges.use_variable slot.now.field slot.now.role (now_of case.now self.old)) }
    {
        match slot.role {
            Role::Given => self.give_variable(case, slot.field),
            Role::Change | Role::Taken | Role::Read | Role::In | Role::Out | Role::Seen => {
                self.read_variable(case, slot.field)
            }
        }
    }

    /// A variable's token is given, whose value its statement sets.
    fn give_variable(&mut self, case: &Case<'_>, field: u32) -> Result<(), XStop>
        ensures { Leaves result (now_of case.now self.new) (exchanges.use_variable field Role.Given (now_of case.now self.old)) }
    {
        let name = self.given_name(case);
        let token = Token {
            field,
            key: 0,
            value: 0,
        };
        self.give(case, token)?;
        self.know(field, name, token)?;
        Ok(())
    }

    /// A variable's token is used.
    fn read_variable(&mut self, case: &Case<'_>, field: u32) -> Result<(), XStop>
        ensures { Leaves result (now_of case.now self.new) (exchanges.use_variable field Role.Read (now_of case.now self.old)) }
    {
        let token = self.named(case)?;
        if !is_of_variable(token, field) {
            return Err(XStop::Differs(self.slot));
        }
        let name = self.token_name(case);
        self.read()?;
        self.know(field, name, token)?;
        Ok(())
    }

    /// The slots of variables, one after another.
    pub(crate) fn use_variables(&mut self, case: &Case<'_>, slots: &[Slot]) -> Result<(), XStop>
        ensures { UsesAs result case.now (slots_tree case.now.m.now.terms slots.now) self.old self.new }
    {
        for slot in slots {
            self.use_variable(case, slot)?;
        }
        Ok(())
    }

    /// A require: it has to be true.
    fn require(&mut self, case: &Case<'_>, form: FormId, line: u32) -> Result<(), XStop>
        requires { IsForm case.now.m.now.terms form }
        ensures { ActsAt result case.now (record { act = acts.Require (formula case.now.m.now.terms form); line = line }) self.old self.new }
    {
        if !self.truth(case, form)? {
            return Err(XStop::RequireFalse(line));
        }
        Ok(())
    }

    /// A field has its first value.
    fn start(&mut self, case: &Case<'_>, field: u32, value: Value) -> Result<(), NoMemory>
        ensures { StartsAs result case.now field value self.old self.new }
    {
        match strategy_at(case.outer.fields, field) {
            Strategy::Variable => self.revalue(case, field, number(&value)),
            Strategy::Count => self.give(case, amount(field, &value)),
            Strategy::PersistentCount => {
                self.give(case, amount(field, &value))?;
                self.record(field, becomes(value))
            }
            Strategy::Constant
            | Strategy::NotTokenized
            | Strategy::PersistentOption
            | Strategy::PersistentMap
            | Strategy::PersistentSet => self.record(field, becomes(value)),
            Strategy::Option
            | Strategy::Map
            | Strategy::Set
            | Strategy::Multiset
            | Strategy::StorageMap => Ok(()),
        }
    }

    /// A variable or a field without tokens has a new value.
    fn change(&mut self, case: &Case<'_>, field: u32, value: Value) -> Result<(), NoMemory>
        ensures { ChangesAs result case.now field value self.old self.new }
    {
        match strategy_at(case.outer.fields, field) {
            Strategy::Variable => self.revalue(case, field, number(&value)),
            Strategy::NotTokenized => self.record(field, becomes(value)),
            Strategy::Constant
            | Strategy::Option
            | Strategy::Map
            | Strategy::Set
            | Strategy::Multiset
            | Strategy::Count
            | Strategy::PersistentOption
            | Strategy::PersistentMap
            | Strategy::PersistentSet
            | Strategy::PersistentCount
            | Strategy::StorageMap => Ok(()),
        }
    }

    /// The first value of a field.
    fn init(&mut self, case: &Case<'_>, field: u32, t: TermId) -> Result<(), XStop>
        requires { IsTerm case.now.m.now.terms t }
        ensures { ActsAs result case.now (acts.Init field (tree case.now.m.now.terms t)) self.old self.new }
    {
        let value = self.value(case, field, t)?;
        self.start(case, field, value)?;
        Ok(())
    }

    /// A new value of a variable or of a field without tokens.
    fn update(&mut self, case: &Case<'_>, field: u32, t: TermId) -> Result<(), XStop>
        requires { IsTerm case.now.m.now.terms t }
        ensures { ActsAs result case.now (acts.Update field (tree case.now.m.now.terms t)) self.old self.new }
    {
        let value = self.value(case, field, t)?;
        self.change(case, field, value)?;
        Ok(())
    }

    /// A token is taken.
    fn remove(&mut self, case: &Case<'_>, field: u32, place: Place) -> Result<(), XStop>
        requires { HasPlaceIds case.now.m.now.terms place }
        ensures { ActsAs result case.now (acts.Remove field (place_tree case.now.m.now.terms place)) self.old self.new }
    {
        let found = self.asked_token(case, field, place)?;
        self.take(case)?;
        self.bind(binds(place), found.token)?;
        Ok(())
    }

    /// A token is shown.
    fn have(&mut self, case: &Case<'_>, field: u32, place: Place) -> Result<(), XStop>
        requires { HasPlaceIds case.now.m.now.terms place }
        ensures { ActsAs result case.now (acts.Have field (place_tree case.now.m.now.terms place)) self.old self.new }
    {
        let found = self.asked_token(case, field, place)?;
        self.read()?;
        self.bind(binds(place), found.token)?;
        Ok(())
    }

    /// The record of a field behind an addition.
    fn raise(&mut self, case: &Case<'_>, field: u32, asked: Asked) -> Result<(), NoMemory>
        ensures { OnOk result (now_of case.now self.new ≡ exchanges.raising case.now.outer.fields.now field asked.key asked.value (now_of case.now self.old)) }
    {
        match strategy_at(case.outer.fields, field) {
            Strategy::PersistentOption | Strategy::PersistentMap => {
                self.record(field, asked.entry())
            }
            Strategy::PersistentSet => self.record(field, asked.element()),
            Strategy::PersistentCount => self.record(field, asked.mark()),
            Strategy::Variable
            | Strategy::Constant
            | Strategy::NotTokenized
            | Strategy::Option
            | Strategy::Map
            | Strategy::Set
            | Strategy::Multiset
            | Strategy::Count
            | Strategy::StorageMap => Ok(()),
        }
    }

    /// A token is given.
    fn add(&mut self, case: &Case<'_>, field: u32, place: Place) -> Result<(), XStop>
        requires { HasPlaceIds case.now.m.now.terms place }
        ensures { ActsAs result case.now (acts.Add field (place_tree case.now.m.now.terms place)) self.old self.new }
    {
        let asked = self.asked(case, place)?;
        self.give(case, asked.token(field))?;
        self.raise(case, field, asked)?;
        Ok(())
    }

    /// A permission is taken, and its object is stored.
    fn deposit(&mut self, case: &Case<'_>, field: u32, place: Place) -> Result<(), XStop>
        requires { HasPlaceIds case.now.m.now.terms place }
        ensures { ActsAs result case.now (acts.Deposit field (place_tree case.now.m.now.terms place)) self.old self.new }
    {
        let found = self.asked_token(case, PERM, place)?;
        self.take(case)?;
        self.store(found.asked.token(field))?;
        Ok(())
    }

    /// An object is no longer stored, and its permission is given.
    fn take_out(&mut self, case: &Case<'_>, field: u32, place: Place) -> Result<(), XStop>
        requires { HasPlaceIds case.now.m.now.terms place }
        ensures { ActsAs result case.now (acts.Withdraw field (place_tree case.now.m.now.terms place)) self.old self.new }
    {
        let found = self.asked_object(case, field, place)?;
        self.give(case, permission(found))?;
        self.withdraw(case, field, found.asked)?;
        self.bind(binds(place), found.token)?;
        Ok(())
    }

    /// A stored object is shown.
    fn guard(&mut self, case: &Case<'_>, field: u32, place: Place) -> Result<(), XStop>
        requires { HasPlaceIds case.now.m.now.terms place }
        ensures { ActsAs result case.now (acts.Guard field (place_tree case.now.m.now.terms place)) self.old self.new }
    {
        let found = self.asked_object(case, field, place)?;
        self.see()?;
        self.bind(binds(place), found.token)?;
        Ok(())
    }

    /// A statement.
    #[tactic(auto, unfolding(crate::specs::Exchange::does))]
    fn act(&mut self, case: &Case<'_>, step: &Step) -> Result<(), XStop>
        requires { HasActIds case.now.m.now.terms step.now.act }
        ensures { ActsAt result case.now (step_tree case.now.m.now.terms step.now) self.old self.new }
    {
        match step.act {
            Act::Require(form) => self.require(case, form, step.line),
            Act::Assert(_) | Act::HaveVariable(_) => Ok(()),
            Act::Init(field, t) => self.init(case, field, t),
            Act::Update(field, t) => self.update(case, field, t),
            Act::Remove(field, place) => self.remove(case, field, place),
            Act::Have(field, place) => self.have(case, field, place),
            Act::Add(field, place) => self.add(case, field, place),
            Act::Deposit(field, place) => self.deposit(case, field, place),
            Act::Withdraw(field, place) => self.take_out(case, field, place),
            Act::Guard(field, place) => self.guard(case, field, place),
        }
    }

    /// The statements of an operation, one after another.
    pub(crate) fn act_all(&mut self, case: &Case<'_>, steps: &[Step]) -> Result<(), XStop>
        requires { AllByRecursion (λ (s : Statement). HasActIds case.now.m.now.terms s.act) steps.now }
        ensures { ActsAll result case.now (steps_tree case.now.m.now.terms steps.now) self.old self.new }
    {
        for step in steps {
            self.act(case, step)?;
        }
        Ok(())
    }
}
