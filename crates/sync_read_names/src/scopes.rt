//! What the names of a text stand for at a place.
ghost use Rattle.std.specs.Prelude.{◌≡◌};
ghost use Rattle.sync_base.specs.Outcome.{Gives};
ghost use Rattle.sync_read_names.specs.Scopes.{number_in, symbol_of, param_symbol_of, held_symbol_of, special_number, flag, with_flag};

use sqlite_items::{Items, at};
use sync_base::{LONGEST_TEXT, Refusal, Rule, Stop};
use sync_parse_exprs::{RawName, Special};
use sync_terms::Sym;

/// The sort of an expression.
#[derive(Clone, Copy, PartialEq, Eq, Debug)]
pub enum Sort {
    Number,
    Map,
    Formula,
}

/// What a name was declared as, with its number among the fields, the operations or the invariants.
#[derive(Clone, Copy, PartialEq, Eq, Debug)]
pub enum Meaning {
    Nothing,
    Field(u32, Sort),
    Operation(u32),
    Invariant(u32),
}

/// Of which operations a name is a parameter or bound name, and of which invariants it is a parameter: a bit for each
/// of 64. Then who has it last in a program, by numbers that are not 0.
#[derive(Clone, Copy, PartialEq, Eq, Debug)]
pub struct Owners {
    pub operations: u64,
    pub invariants: u64,
    /// The word, by its name, that has it for a value.
    pub word: Option<u32>,
    /// The thread that has assigned to it.
    pub local: u32,
    /// The thread that has it as a proof name.
    pub proof: u32,
    /// Whether a keep that a thread ends with has it as a proof name.
    pub ends: bool,
}

/// Whose names are known at a place: the parameters and bound names of an operation or an invariant; the names that a
/// word has for values; the locals and proof names of a thread, and of the final block, by their numbers.
#[derive(Clone, Copy, PartialEq, Eq, Debug)]
pub enum Owner {
    Nobody,
    Operation(u32),
    Invariant(u32),
    Word(u32),
    Thread(u32),
    Last(u32),
}

/// What is known at a place besides names.
#[derive(Clone, Copy, PartialEq, Eq, Debug)]
pub struct Sight {
    /// A bit for each field that is known; all are where there is none.
    pub fields: Option<u64>,
    /// `held`.
    pub held: bool,
    /// `value` and `index`.
    pub clause: bool,
    /// `old` and `new`.
    pub atomic: bool,
    /// `wrap`.
    pub wrap: bool,
}

/// What each name of the text stands for, by its number: what it was declared as, and who has it as a parameter or
/// bound name; and the place.
#[derive(Drop)]
pub struct Scope {
    pub meanings: Items<Meaning>,
    pub owners: Items<Owners>,
    /// Whose names are known here.
    pub owner: Owner,
    /// The invariant whose parameters are known behind `$`; `Nobody` where `$` is not.
    pub claim: Owner,
    pub sight: Sight,
}

/// A broken rule at a line.
pub fn broken(rule: Rule, line: u32) -> Refusal
    ensures { result ≡ record { line = line; rule = rule } }
{
    Refusal { line, rule }
}

/// A broken rule at a line, as the reason to stop.
pub fn refused(rule: Rule, line: u32) -> Stop
    ensures { result ≡ Stop.Refused (record { line = line; rule = rule }) }
{
    Stop::Refused(broken(rule, line))
}

/// The number of a name; a text has fewer names than bytes.
fn number_in(name: u32) -> u32
    ensures { result ≡ number_in name }
{
    name.min(LONGEST_TEXT as u32 - 1)
}

/// The symbol of a name as a parameter or bound name.
pub fn symbol_of(name: u32) -> Sym
    ensures { result.0 ≡ symbol_of name }
{
    Sym::of_name(number_in(name))
}

/// The symbol of `$` before a name.
fn param_symbol_of(name: u32) -> Sym
    ensures { result.0 ≡ param_symbol_of name }
{
    symbol_of(name).dollar()
}

/// The symbol of `held` of a name.
pub(crate) fn held_symbol_of(name: u32) -> Sym
    ensures { result.0 ≡ held_symbol_of name }
{
    symbol_of(name).held()
}

/// The symbol of a word of programs.
fn special_number(word: Special) -> u32
    ensures { result ≡ special_number word }
{
    match word {
        Special::Value => 32,
        Special::Index => 33,
        Special::Old => 34,
        Special::New => 35,
        Special::Wrap => 36,
    }
}

/// Whether one of 64 flags is up.
#[tactic(auto, using(std::proofs::lemmas::Nat::Bits::shr_and_one))]
fn flag(flags: u64, number: u32) -> bool
    ensures { result ≡ flag flags number }
{
    number < 64 && (flags >> number) & 1 == 1
}

/// The same flags with one of them up.
#[tactic(auto, using(crate::proofs::Flags::one_flag))]
pub fn with_flag(flags: u64, number: u32) -> u64
    ensures { result ≡ with_flag flags number }
{
    if number < 64 {
        flags | (1 << number)
    } else {
        flags
    }
}

impl Owners {
    ghost use Rattle.sync_read_names.specs.Scopes.{has_owner, with_owner, has_local};

    pub fn has(self, owner: Owner) -> bool
        ensures { result ≡ has_owner self owner }
    {
        match owner {
            Owner::Nobody => false,
            Owner::Operation(number) => flag(self.operations, number),
            Owner::Invariant(number) => flag(self.invariants, number),
            Owner::Word(name) => self.word == Some(name),
            Owner::Thread(number) => self.local == number || self.proof == number,
            Owner::Last(number) => self.local == number || self.proof == number || self.ends,
        }
    }

    /// Whether the owner has it as a local.
    pub fn has_local(self, owner: Owner) -> bool
        ensures { result ≡ has_local self owner }
    {
        match owner {
            Owner::Nobody | Owner::Operation(_) | Owner::Invariant(_) | Owner::Word(_) => false,
            Owner::Thread(number) | Owner::Last(number) => self.local == number,
        }
    }

    pub fn with(self, owner: Owner) -> Owners
        ensures { result ≡ with_owner self owner }
    {
        let mut more = self;
        match owner {
            Owner::Nobody => {}
            Owner::Operation(number) => more.operations = with_flag(self.operations, number),
            Owner::Invariant(number) => more.invariants = with_flag(self.invariants, number),
            Owner::Word(name) => more.word = Some(name),
            Owner::Thread(number) | Owner::Last(number) => more.proof = number,
        }
        more
    }
}

impl Sight {
    ghost use Rattle.sync_read_names.specs.Scopes.{knows_special, seen};

    /// Whether a word of programs is known.
    pub fn knows_special(self, word: Special) -> bool
        ensures { result ≡ knows_special self word }
    {
        match word {
            Special::Value | Special::Index => self.clause,
            Special::Old | Special::New => self.atomic,
            Special::Wrap => self.wrap,
        }
    }

    /// What was declared, or nothing if it is a field that is not known.
    fn seen(self, meaning: Meaning) -> Meaning
        ensures { result ≡ seen self meaning }
    {
        if let Meaning::Field(number, _) = meaning
            && let Some(flags) = self.fields
        {
            if !flag(flags, number) {
                return Meaning::Nothing;
            }
        }
        meaning
    }
}

impl Scope {
    ghost use Rattle.sync_read_names.specs.Scopes.{meaning_of, is_owned, is_local, is_taken, seen_as, name_sort, known_symbol, knows_params, param_symbol, declare, own, is_assigned, local_symbol, word_symbol};

    /// What a name was declared as.
    pub fn meaning(&self, name: u32) -> Meaning
        ensures { result ≡ meaning_of self.now name }
    {
        match at(self.meanings.as_slice(), name as usize) {
            Some(meaning) => *meaning,
            None => Meaning::Nothing,
        }
    }

    /// Declares a name, which is new.
    pub fn declare(&mut self, named: RawName, meaning: Meaning) -> Result<(), Stop>
        ensures { Gives (λ _. self.new) result (declare self.old named meaning) }
    {
        if named.name as usize >= self.meanings.len() {
            return Err(refused(Rule::N1, named.line));
        }
        match self.meaning(named.name) {
            Meaning::Nothing => {
                self.meanings.set(named.name as usize, meaning);
                Ok(())
            }
            Meaning::Field(_, _) | Meaning::Operation(_) | Meaning::Invariant(_) => {
                Err(refused(Rule::N2, named.line))
            }
        }
    }

    /// Whether somebody has this name as a parameter or bound name.
    pub fn is_owned(&self, owner: Owner, name: u32) -> bool
        ensures { result ≡ is_owned self.now owner name }
    {
        match at(self.owners.as_slice(), name as usize) {
            Some(owners) => owners.has(owner),
            None => false,
        }
    }

    /// Whether a name is a parameter or bound name here.
    pub fn is_local(&self, name: u32) -> bool
        ensures { result ≡ is_local self.now name }
    {
        self.is_owned(self.owner, name)
    }

    /// Whether a name is a parameter or bound name here, or a field.
    fn is_taken(&self, name: u32) -> bool
        ensures { result ≡ is_taken self.now name }
    {
        match self.meaning(name) {
            Meaning::Field(_, _) => true,
            Meaning::Nothing | Meaning::Operation(_) | Meaning::Invariant(_) => self.is_local(name),
        }
    }

    /// Makes a new name a parameter or bound name of the owner.
    pub fn own(&mut self, named: RawName) -> Result<(), Stop>
        ensures { Gives (λ _. self.new) result (own self.old named) }
    {
        let owners = match self.owners.get(named.name as usize) {
            Some(owners) => *owners,
            None => return Err(refused(Rule::N1, named.line)),
        };
        if self.is_taken(named.name) {
            return Err(refused(Rule::N2, named.line));
        }
        let more = owners.with(self.owner);
        self.owners.set(named.name as usize, more);
        Ok(())
    }

    /// What a name was declared as, where it is no field that is not known here.
    pub fn seen_as(&self, name: u32) -> Meaning
        ensures { result ≡ seen_as self.now name }
    {
        self.sight.seen(self.meaning(name))
    }

    /// The sort of a name in a term, where it is known.
    pub fn name_sort(&self, name: u32) -> Option<Sort>
        ensures { result ≡ name_sort self.now name }
    {
        if self.is_local(name) {
            return Some(Sort::Number);
        }
        match self.seen_as(name) {
            Meaning::Field(_, sort) => Some(sort),
            Meaning::Nothing | Meaning::Operation(_) | Meaning::Invariant(_) => None,
        }
    }

    /// The symbol of a name in a term.
    pub fn known_symbol(&self, named: RawName) -> Result<Sym, Stop>
        ensures { Gives (λ x. x.0) result (known_symbol self.now named) }
    {
        if self.is_local(named.name) {
            return Ok(symbol_of(named.name));
        }
        match self.seen_as(named.name) {
            Meaning::Field(number, _) => Ok(Sym(number)),
            Meaning::Nothing | Meaning::Operation(_) | Meaning::Invariant(_) => {
                Err(refused(Rule::N1, named.line))
            }
        }
    }

    /// Whether `$` is known here.
    pub fn knows_params(&self) -> bool
        ensures { result ≡ knows_params self.now.claim }
    {
        match self.claim {
            Owner::Nobody => false,
            Owner::Operation(_)
            | Owner::Invariant(_)
            | Owner::Word(_)
            | Owner::Thread(_)
            | Owner::Last(_) => true,
        }
    }

    /// Whether a name is a local of the thread here.
    pub fn is_assigned(&self, name: u32) -> bool
        ensures { result ≡ is_assigned self.now name }
    {
        match at(self.owners.as_slice(), name as usize) {
            Some(owners) => owners.has_local(self.owner),
            None => false,
        }
    }

    /// The symbol of a local.
    pub fn local_symbol(&self, named: RawName) -> Result<u32, Stop>
        ensures { Gives (λ x. x) result (local_symbol self.now named) }
    {
        if self.is_assigned(named.name) {
            Ok(symbol_of(named.name).0)
        } else {
            Err(refused(Rule::N1, named.line))
        }
    }

    /// The symbol of a word of programs, which stands at a line.
    pub fn word_symbol(&self, word: Special, line: u32) -> Result<u32, Stop>
        ensures { Gives (λ x. x) result (word_symbol self.now word line) }
    {
        if self.sight.knows_special(word) {
            Ok(special_number(word))
        } else {
            Err(refused(Rule::N1, line))
        }
    }

    /// The symbol of `$`, which stands at a line, before a name.
    pub fn param_symbol(&self, line: u32, named: RawName) -> Result<Sym, Stop>
        ensures { Gives (λ x. x.0) result (param_symbol self.now line named) }
    {
        if !self.knows_params() {
            return Err(refused(Rule::N1, line));
        }
        if !self.is_owned(self.claim, named.name) {
            return Err(refused(Rule::N1, named.line));
        }
        Ok(param_symbol_of(named.name))
    }
}
