//! What the names of a program stand for at a place.
ghost use Rattle.std.specs.Prelude.{◌≡◌, ℕ, ◌<◌, map, length, count_by, get_or, IfOk};
ghost use Rattle.sync_base.specs.Outcome.{Gives};
ghost use Rattle.sync_terms.specs.Stored.{Stored};
ghost use Rattle.sync_machine.specs.Views.{act_tree, operation_tree, machine_tree, HasOwnIds};
ghost use Rattle.sync_machine.specs.declared.fields.Field.{Field};
ghost use Rattle.sync_rules.specs.declared.slots.Slot.{Slot};
ghost use Rattle.sync_machine.specs.declared.machine.Step.{Step};
ghost use Rattle.sync_read_names.specs.Scopes.{with_flag};
ghost use Rattle.sync_read_programs.specs.Scopes.{is_constant, constants_from, names_token, gives_token, is_guard, is_cell, calls_of, call_of, scope_behind, as_many, as_many_if, may_call, with_local, has_proof, word_sight, thread_sight};

use sqlite_items::{Items, at};
use std::alloc::Global;
use sync_base::{NoMemory, Rule, Stop, place_number};
use sync_machine::{Act, Field, Machine, OpMode, Operation, Step, Strategy};
use sync_parse_exprs::RawName;
use sync_read_names::{Meaning, Owner, Owners, Scope, Sight, refused, with_flag};
use sync_rules::{Role, Slot, signature};

/// How many names a word has for values, how many clauses, and how many of these without a guard.
#[derive(Clone, Copy, PartialEq, Eq, Debug)]
pub struct WordCounts {
    pub names: usize,
    pub clauses: usize,
    pub unguarded: usize,
}

/// What a name was declared as in a program.
#[derive(Clone, Copy, PartialEq, Eq, Debug)]
pub enum Declared {
    Nothing,
    Word(WordCounts),
    Cell,
}

/// A thread: its number, from 0, and how many names it takes.
#[derive(Clone, Copy, PartialEq, Eq, Debug)]
pub struct Entrance {
    pub number: usize,
    pub names: usize,
}

/// What a name stands for in a program apart from terms.
#[derive(Clone, Copy, PartialEq, Eq, Debug)]
pub struct Standing {
    pub declared: Declared,
    /// The first thread of this name.
    pub thread: Option<Entrance>,
    /// Whether a keep that a thread ends with has a token of this name.
    pub ends_token: bool,
    /// The last list of names in which it stands, by its number from 1.
    pub listed: u32,
}

/// What whoever calls an operation brings: so many arguments, tokens, and names for what it is given.
#[derive(Clone, Copy, PartialEq, Eq, Debug)]
pub struct Call {
    pub mode: OpMode,
    pub args: usize,
    pub tokens: usize,
    pub given: usize,
    pub guards: usize,
}

/// For what an operation is called.
#[derive(Clone, Copy, PartialEq, Eq, Debug)]
pub enum Purpose {
    Start,
    Do,
    Via,
}

/// How many names the keep has to which a jump goes, where there is one.
#[derive(Clone, Copy, PartialEq, Eq, Debug)]
pub struct Aims {
    pub next: Option<usize>,
    pub breaks: Option<usize>,
    pub meet: Option<usize>,
    pub end: Option<usize>,
}

/// How many elements of words and of cells may still come.
#[derive(Clone, Copy, PartialEq, Eq, Debug)]
pub struct Room {
    pub words: u32,
    pub cells: u32,
}

/// What each name of the text stands for, and the place.
#[derive(Drop)]
pub struct ProgramScope {
    /// Names in terms.
    pub scope: Scope,
    /// By the number of the name.
    pub standings: Items<Standing>,
    /// By the number of the operation.
    pub calls: Items<Call>,
    /// By the number of the field.
    pub strategies: Items<Strategy>,
    /// A bit for each field that is a constant.
    pub constants: u64,
    /// Whether the place is in the start.
    pub starts: bool,
    /// So many lists of names, and so many scripts, come before.
    pub lists: u32,
    pub scripts: usize,
}

/// As many as are wanted, or N3 at the called name.
pub(crate) fn as_many(found: usize, wanted: usize, line: u32) -> Result<usize, Stop>
    ensures { Gives (λ n. n) result (as_many found wanted line) }
{
    if found == wanted {
        Ok(found)
    } else {
        Err(refused(Rule::N3, line))
    }
}

/// The same, where something is wanted.
pub(crate) fn as_many_if(wanted: Option<usize>, found: usize, line: u32) -> Result<usize, Stop>
    ensures { Gives (λ n. n) result (as_many_if wanted found line) }
{
    match wanted {
        Some(wanted) => as_many(found, wanted, line),
        None => Ok(found),
    }
}

fn is_constant(strategy: Strategy) -> bool
    ensures { result ≡ is_constant strategy }
{
    match strategy {
        Strategy::Constant => true,
        Strategy::Variable
        | Strategy::NotTokenized
        | Strategy::Count
        | Strategy::PersistentCount
        | Strategy::Option
        | Strategy::Map
        | Strategy::Set
        | Strategy::Multiset
        | Strategy::PersistentOption
        | Strategy::PersistentMap
        | Strategy::PersistentSet
        | Strategy::StorageMap => false,
    }
}

/// The same flags with one of them up.
fn flagged(flags: u64, number: usize) -> u64
    ensures { result ≡ with_flag flags number }
{
    if number < 64 {
        with_flag(flags, number as u32)
    } else {
        flags
    }
}

/// A flag for each constant among the first 64 fields.
#[tactic(auto, unfolding(crate::specs::Scopes::constants_from))]
fn constants(fields: &[Field]) -> u64
    ensures { result ≡ constants_from 0 0 fields.now }
{
    let mut flags = 0;
    for (number, field) in fields.iter().enumerate() {
        if is_constant(field.strategy) {
            flags = flagged(flags, number);
        }
    }
    flags
}

fn names_token(role: Role) -> bool
    ensures { result ≡ names_token role }
{
    match role {
        Role::Change | Role::Read | Role::Taken | Role::In => true,
        Role::Given | Role::Out | Role::Seen => false,
    }
}

fn gives_token(role: Role) -> bool
    ensures { result ≡ gives_token role }
{
    match role {
        Role::Given | Role::Out => true,
        Role::Change | Role::Read | Role::Taken | Role::In | Role::Seen => false,
    }
}

fn is_guard(act: Act) -> bool
    ensures { (s : Stored) → result ≡ is_guard (act_tree s act) }
{
    match act {
        Act::Guard(_, _) => true,
        Act::Init(_, _)
        | Act::Require(_)
        | Act::Assert(_)
        | Act::Update(_, _)
        | Act::HaveVariable(_)
        | Act::Have(_, _)
        | Act::Add(_, _)
        | Act::Deposit(_, _)
        | Act::Remove(_, _)
        | Act::Withdraw(_, _) => false,
    }
}

/// How many of the slots want the name of a token.
fn named_slots(slots: &[Slot]) -> usize
    ensures { result ≡ count_by (λ (x : Slot). names_token x.role) slots.now }
{
    slots.iter().filter(|slot| names_token(slot.role)).count()
}

/// How many of the slots give a token.
fn given_slots(slots: &[Slot]) -> usize
    ensures { result ≡ count_by (λ (x : Slot). gives_token x.role) slots.now }
{
    slots.iter().filter(|slot| gives_token(slot.role)).count()
}

/// How many statements are guards.
fn guards(steps: &[Step]) -> usize
    ensures { (s : Stored) → result ≡ count_by (λ (x : Step). is_guard (act_tree s x.act)) steps.now }
{
    steps.iter().filter(|step| is_guard(step.act)).count()
}

/// What whoever calls the operation with this number brings.
fn called_so(
    alloc: Global,
    machine: &Machine,
    number: u32,
    operation: &Operation,
) -> Result<Call, NoMemory>
    requires ids { HasOwnIds machine.now }
    requires low { number < length machine.now.ops }
    requires there { operation.now ≡ get_or machine.now.ops number operation.now }
    ensures { IfOk result (λ c. c ≡ call_of machine.now.fields (operation_tree machine.now.terms operation.now)) }
{
    let slots = signature(alloc, machine, number)?;
    Ok(Call {
        mode: operation.mode,
        args: operation.params.len(),
        tokens: named_slots(slots.as_slice()),
        given: given_slots(slots.as_slice()),
        guards: guards(operation.steps.as_slice()),
    })
}

/// The calls of a machine's operations.
fn calls(alloc: Global, machine: &Machine) -> Result<Items<Call>, NoMemory>
    requires ids { HasOwnIds machine.now }
    ensures { IfOk result (λ cs. cs ≡ calls_of (machine_tree machine.now)) }
{
    let mut held = Items::new(alloc);
    for (number, operation) in machine.ops.as_slice().iter().enumerate() {
        let made = called_so(alloc, machine, place_number(number)?, operation)?;
        held.push(made)?;
    }
    Ok(held)
}

/// The strategies of fields.
fn strategies(alloc: Global, fields: &[Field]) -> Result<Items<Strategy>, NoMemory>
    ensures { IfOk result (λ xs. xs ≡ map (λ (f : Field). f.strategy) fields.now) }
{
    let mut held = Items::new(alloc);
    for field in fields {
        held.push(field.strategy)?;
    }
    Ok(held)
}

/// The scope behind a machine and its proofs, which have so many scripts.
pub fn scope_behind(
    alloc: Global,
    machine: &Machine,
    scope: Scope,
    scripts: usize,
) -> Result<ProgramScope, NoMemory>
    requires ids { HasOwnIds machine.now }
    ensures { IfOk result (λ s. s ≡ scope_behind (machine_tree machine.now) scope scripts) }
{
    let none = Standing {
        declared: Declared::Nothing,
        thread: None,
        ends_token: false,
        listed: 0,
    };
    let standings = Items::from_vec(vec![in alloc; none; scope.meanings.len()]?);
    Ok(ProgramScope {
        standings,
        calls: calls(alloc, machine)?,
        strategies: strategies(alloc, machine.fields.as_slice())?,
        constants: constants(machine.fields.as_slice()),
        starts: false,
        lists: 0,
        scripts,
        scope,
    })
}

/// Whether an operation may be called so.
pub(crate) fn may_call(purpose: Purpose, call: Call) -> bool
    ensures { result ≡ may_call purpose call }
{
    match purpose {
        Purpose::Start => call.mode == OpMode::Init,
        Purpose::Do => call.mode == OpMode::Transition || call.mode == OpMode::Property,
        Purpose::Via => call.mode == OpMode::Property && call.guards == 1,
    }
}

/// Whether the owner has the name as a proof name.
fn has_proof(owners: Owners, owner: Owner) -> bool
    ensures { result ≡ has_proof owners owner }
{
    match owner {
        Owner::Thread(number) => owners.proof == number,
        Owner::Last(number) => owners.proof == number || owners.ends,
        Owner::Nobody | Owner::Operation(_) | Owner::Invariant(_) | Owner::Word(_) => false,
    }
}

/// The owners, with the name as a local of the owner.
fn with_local(owners: Owners, owner: Owner) -> Owners
    ensures { result ≡ with_local owners owner }
{
    let mut more = owners;
    match owner {
        Owner::Thread(number) | Owner::Last(number) => more.local = number,
        Owner::Nobody | Owner::Operation(_) | Owner::Invariant(_) | Owner::Word(_) => {}
    }
    more
}

/// What is known in a word's clauses and fact.
fn word_sight(constants: u64) -> Sight
    ensures { result ≡ word_sight constants }
{
    Sight {
        fields: Some(constants),
        held: false,
        clause: true,
        atomic: false,
        wrap: false,
    }
}

/// What is known among statements.
fn thread_sight(constants: u64) -> Sight
    ensures { result ≡ thread_sight constants }
{
    Sight {
        fields: Some(constants),
        held: true,
        clause: false,
        atomic: false,
        wrap: false,
    }
}

impl ProgramScope {
    ghost use Rattle.sync_read_programs.specs.Scopes.{entered, in_word, in_start, in_thread, in_ends, in_last, with_constants, with_atomic, with_wrap, knows_wrap, is_constant_name, is_proof_name, may_prove, may_assign, prove_name, assign_name, end_name, word_name, standing_of, with_standing, declare_name, word_in, cell_in, thread_named, note_thread, first_of_name, next_list, list_name, end_token};

    fn enter(&mut self, starts: bool, owner: Owner, sight: Sight)
        ensures { self.new ≡ entered starts owner sight self.old }
    {
        self.scope.owner = owner;
        self.scope.claim = Owner::Nobody;
        self.scope.sight = sight;
        self.starts = starts;
    }

    /// In the clauses of a word.
    pub(crate) fn enter_word(&mut self, name: u32)
        ensures { self.new ≡ in_word name self.old }
    {
        self.enter(false, Owner::Word(name), word_sight(self.constants));
    }

    /// In the start, whose arguments know no constant.
    pub(crate) fn enter_start(&mut self)
        ensures { self.new ≡ in_start self.old }
    {
        self.enter(true, Owner::Thread(1), thread_sight(0));
    }

    /// In the thread with this number.
    pub(crate) fn enter_thread(&mut self, number: usize)
        requires { number < 16 }
        ensures { self.new ≡ in_thread number self.old }
    {
        self.enter(
            false,
            Owner::Thread(2 + number as u32),
            thread_sight(self.constants),
        );
    }

    /// In the keep that the thread with this number ends with.
    pub(crate) fn enter_ends(&mut self, number: usize)
        requires { number < 16 }
        ensures { self.new ≡ in_ends number self.old }
    {
        self.enter(
            false,
            Owner::Thread(20 + number as u32),
            thread_sight(self.constants),
        );
    }

    /// In the final block.
    pub(crate) fn enter_last(&mut self)
        ensures { self.new ≡ in_last self.old }
    {
        self.enter(false, Owner::Last(18), thread_sight(self.constants));
    }

    /// From here on constants are known.
    pub(crate) fn know_constants(&mut self)
        ensures { self.new ≡ with_constants self.old }
    {
        self.scope.sight.fields = Some(self.constants);
    }

    /// Whether `old` and `new` are known.
    pub(crate) fn set_atomic(&mut self, known: bool)
        ensures { self.new ≡ with_atomic known self.old }
    {
        self.scope.sight.atomic = known;
    }

    /// Whether `wrap` is known.
    pub(crate) fn set_wrap(&mut self, known: bool)
        ensures { self.new ≡ with_wrap known self.old }
    {
        self.scope.sight.wrap = known;
    }

    pub(crate) fn knows_wrap(&self) -> bool
        ensures { result ≡ knows_wrap self.now }
    {
        self.scope.sight.wrap
    }

    fn is_constant_name(&self, name: u32) -> bool
        ensures { result ≡ is_constant_name self.now name }
    {
        match self.scope.seen_as(name) {
            Meaning::Field(_, _) => true,
            Meaning::Nothing | Meaning::Operation(_) | Meaning::Invariant(_) => false,
        }
    }

    fn is_proof_name(&self, name: u32) -> bool
        ensures { result ≡ is_proof_name self.now name }
    {
        match at(self.scope.owners.as_slice(), name as usize) {
            Some(owners) => has_proof(*owners, self.scope.owner),
            None => false,
        }
    }

    /// A name that may be a proof name.
    pub(crate) fn may_prove(&self, named: RawName) -> Result<u32, Stop>
        ensures { Gives (λ n. n) result (may_prove self.now named) }
    {
        if self.is_constant_name(named.name) || self.scope.is_assigned(named.name) {
            Err(refused(Rule::N2, named.line))
        } else {
            Ok(named.name)
        }
    }

    /// A name that may be a local.
    pub(crate) fn may_assign(&self, named: RawName) -> Result<u32, Stop>
        ensures { Gives (λ n. n) result (may_assign self.now named) }
    {
        if self.is_constant_name(named.name) || self.is_proof_name(named.name) {
            Err(refused(Rule::N2, named.line))
        } else {
            Ok(named.name)
        }
    }

    /// A proof name, known from here on.
    pub(crate) fn prove_name(&mut self, named: RawName) -> Result<(), Stop>
        ensures { Gives (λ _. self.new) result (prove_name self.old named) }
    {
        let owners = match at(self.scope.owners.as_slice(), named.name as usize) {
            Some(owners) => *owners,
            None => return Err(refused(Rule::N1, named.line)),
        };
        let more = owners.with(self.scope.owner);
        self.scope.owners.set(named.name as usize, more);
        Ok(())
    }

    /// A local, known from here on.
    pub(crate) fn assign_name(&mut self, named: RawName) -> Result<(), Stop>
        ensures { Gives (λ _. self.new) result (assign_name self.old named) }
    {
        let owners = match at(self.scope.owners.as_slice(), named.name as usize) {
            Some(owners) => *owners,
            None => return Err(refused(Rule::N1, named.line)),
        };
        let more = with_local(owners, self.scope.owner);
        self.scope.owners.set(named.name as usize, more);
        Ok(())
    }

    /// A proof name of a keep that a thread ends with, which no other such keep has.
    pub(crate) fn end_name(&mut self, named: RawName) -> Result<(), Stop>
        ensures { Gives (λ _. self.new) result (end_name self.old named) }
    {
        let owners = match at(self.scope.owners.as_slice(), named.name as usize) {
            Some(owners) => *owners,
            None => return Err(refused(Rule::N1, named.line)),
        };
        if owners.ends {
            return Err(refused(Rule::N2, named.line));
        }
        let mut more = owners.with(self.scope.owner);
        more.ends = true;
        self.scope.owners.set(named.name as usize, more);
        Ok(())
    }

    /// A name that a word has for a value, once.
    pub(crate) fn word_name(&mut self, named: RawName) -> Result<(), Stop>
        ensures { Gives (λ _. self.new) result (word_name self.old named) }
    {
        if self.scope.is_local(named.name) {
            return Err(refused(Rule::N2, named.line));
        }
        self.prove_name(named)
    }

    fn standing(&self, name: u32) -> Standing
        ensures { result ≡ standing_of self.now name }
    {
        match at(self.standings.as_slice(), name as usize) {
            Some(standing) => *standing,
            None => Standing {
                declared: Declared::Nothing,
                thread: None,
                ends_token: false,
                listed: 0,
            },
        }
    }

    fn set_standing(&mut self, name: u32, standing: Standing)
        ensures { self.new ≡ with_standing self.old name standing }
    {
        if (name as usize) < self.standings.len() {
            self.standings.set(name as usize, standing);
        }
    }

    /// A word or cell of a new name.
    pub(crate) fn declare_name(&mut self, declared: Declared, named: RawName) -> Result<(), Stop>
        ensures { Gives (λ _. self.new) result (declare_name declared self.old named) }
    {
        if named.name as usize >= self.standings.len() {
            return Err(refused(Rule::N1, named.line));
        }
        let mut standing = self.standing(named.name);
        match standing.declared {
            Declared::Nothing => {
                standing.declared = declared;
                self.set_standing(named.name, standing);
                Ok(())
            }
            Declared::Word(_) | Declared::Cell => Err(refused(Rule::N2, named.line)),
        }
    }

    /// The counts of a word.
    pub(crate) fn word(&self, named: RawName) -> Result<WordCounts, Stop>
        ensures { Gives (λ c. c) result (word_in self.now named) }
    {
        match self.standing(named.name).declared {
            Declared::Word(counts) => Ok(counts),
            Declared::Nothing | Declared::Cell => Err(refused(Rule::N1, named.line)),
        }
    }

    /// Whether a name is that of a cell.
    pub(crate) fn is_cell(&self, name: u32) -> bool
        ensures { result ≡ is_cell (standing_of self.now name).declared }
    {
        match self.standing(name).declared {
            Declared::Cell => true,
            Declared::Nothing | Declared::Word(_) => false,
        }
    }

    /// The name of a cell.
    pub(crate) fn cell(&self, named: RawName) -> Result<u32, Stop>
        ensures { Gives (λ n. n) result (cell_in self.now named) }
    {
        if self.is_cell(named.name) {
            Ok(named.name)
        } else {
            Err(refused(Rule::N1, named.line))
        }
    }

    /// A thread.
    pub(crate) fn thread_named(&self, named: RawName) -> Result<Entrance, Stop>
        ensures { Gives (λ e. e) result (thread_named self.now named) }
    {
        match self.standing(named.name).thread {
            Some(entrance) => Ok(entrance),
            None => Err(refused(Rule::N1, named.line)),
        }
    }

    /// The thread with this number, which takes so many names; the first of a name counts.
    pub(crate) fn note_thread(&mut self, number: usize, names: usize, named: RawName)
        ensures { self.new ≡ note_thread number names self.old named }
    {
        let mut standing = self.standing(named.name);
        let entrance = match standing.thread {
            Some(entrance) => entrance,
            None => Entrance { number, names },
        };
        standing.thread = Some(entrance);
        self.set_standing(named.name, standing);
    }

    /// The number of a thread whose name no earlier one has.
    pub(crate) fn first_of_name(&self, number: usize, named: RawName) -> Result<usize, Stop>
        ensures { Gives (λ n. n) result (first_of_name number self.now named) }
    {
        if let Some(entrance) = self.standing(named.name).thread {
            if entrance.number == number {
                return Ok(number);
            }
        }
        Err(refused(Rule::N2, named.line))
    }

    /// Another list of names begins.
    pub(crate) fn next_list(&mut self)
        ensures { self.new ≡ next_list self.old }
    {
        self.lists = self.lists.saturating_add(1);
    }

    /// A name stands in a list once.
    pub(crate) fn list_name(&mut self, named: RawName) -> Result<(), Stop>
        ensures { Gives (λ _. self.new) result (list_name self.old named) }
    {
        if named.name as usize >= self.standings.len() {
            return Err(refused(Rule::N1, named.line));
        }
        let mut standing = self.standing(named.name);
        if standing.listed == self.lists {
            return Err(refused(Rule::N2, named.line));
        }
        standing.listed = self.lists;
        self.set_standing(named.name, standing);
        Ok(())
    }

    /// A token name of a keep that a thread ends with, which no other such keep has.
    pub(crate) fn end_token(&mut self, named: RawName) -> Result<(), Stop>
        ensures { Gives (λ _. self.new) result (end_token self.old named) }
    {
        let mut standing = self.standing(named.name);
        if standing.ends_token {
            return Err(refused(Rule::N2, named.line));
        }
        standing.ends_token = true;
        self.set_standing(named.name, standing);
        Ok(())
    }
}
