//! The formulas on maps.
ghost use Rattle.std.specs.Prelude.{◌≡◌};
ghost use Rattle.sync_terms.specs.Stored.{Extends, IsTerm, tree};
ghost use Rattle.sync_terms.specs.Trees.{Add, And, Get};
ghost use Rattle.sync_terms.specs.Building.{BuildsForm};
ghost use Rattle.sync_kernel_facts.specs.Changes.{IsChange, change_form};
ghost use Rattle.sync_kernel_facts.specs.Drafts.{draft_formula, IsDraft};
ghost use Rattle.sync_kernel_facts.specs.Lemmas.{is_found, is_gone, is_raised, is_present_within, small_sums, cong_fact as cong_form, any_read as any_form, read_fact as read_form, size_fact as size_form, size_law as size_law_form, sum_law as sum_law_form, total_fact as total_form};

use crate::drafts::{Connective, Draft, Part, Relation, Value, formula};
use Connective::{And, Implies, Or};
use Part::{Get, Has, Number, Size, Stored, Sum};
use Relation::{AtMost, Below, Equal};
use Value::{Minus, Only, Plus, PlusMinus};
use sync_terms::{FormId, Node, TermId, TermStop, Terms};

/// At equal keys a map has the same.
pub fn cong_fact(
    terms: &mut Terms,
    map: TermId,
    left: TermId,
    right: TermId,
) -> Result<FormId, TermStop>
    requires map { IsTerm terms.old map }
    requires left { IsTerm terms.old left }
    requires right { IsTerm terms.old right }
    ensures built { BuildsForm terms.new (cong_form (tree terms.old map) (tree terms.old left) (tree terms.old right)) result }
    ensures keeps { Extends terms.old terms.new }
{
    let same = Draft::Test(Equal, Only(Stored(left)), Only(Stored(right)));
    let values = Draft::Test(Equal, Only(Get(map, left)), Only(Get(map, right)));
    let presence = Draft::Test(Equal, Only(Has(map, left)), Only(Has(map, right)));
    let alike = Draft::Join(And, &values, &presence);
    formula(terms, &Draft::Join(Implies, &same, &alike))
}

/// What any map has at a key.
fn any_read(terms: &mut Terms, map: TermId, key: TermId) -> Result<FormId, TermStop>
    requires map { IsTerm terms.old map }
    requires key { IsTerm terms.old key }
    ensures built { BuildsForm terms.new (any_form (tree terms.old map) (tree terms.old key)) result }
    ensures keeps { Extends terms.old terms.new }
{
    let has = Only(Has(map, key));
    let low = Draft::Test(AtMost, Only(Number(0)), has);
    let high = Draft::Test(AtMost, has, Only(Number(1)));
    let there = Draft::Test(Equal, has, Only(Number(1)));
    let nothing = Draft::Test(Equal, Only(Get(map, key)), Only(Number(0)));
    let bounds = Draft::Join(And, &low, &high);
    let either = Draft::Join(Or, &there, &nothing);
    formula(terms, &Draft::Join(And, &bounds, &either))
}

/// What the empty map has at a key.
fn nil_read(terms: &mut Terms, map: TermId, key: TermId) -> Result<FormId, TermStop>
    requires map { IsTerm terms.old map }
    requires key { IsTerm terms.old key }
    ensures built { BuildsForm terms.new (is_gone (tree terms.old map) (tree terms.old key)) result }
    ensures keeps { Extends terms.old terms.new }
{
    let nothing = Draft::Test(Equal, Only(Get(map, key)), Only(Number(0)));
    let absent = Draft::Test(Equal, Only(Has(map, key)), Only(Number(0)));
    formula(terms, &Draft::Join(And, &nothing, &absent))
}

/// A change of a map at one key: the map, the key that is read, and the map and the key of the change.
#[derive(Clone, Copy)]
struct Change {
    map: TermId,
    key: TermId,
    inner: TermId,
    at: TermId,
}

/// What a map has at a key, where it was changed at one key so that there the draft holds.
fn changed_read(terms: &mut Terms, of: Change, change: &Draft<'_>) -> Result<FormId, TermStop>
    requires of { IsChange terms.old of }
    requires change { IsDraft terms.old change.now }
    ensures built { BuildsForm terms.new (change_form terms.old of (draft_formula terms.old change.now)) result }
    ensures keeps { Extends terms.old terms.new }
{
    let same = Draft::Test(Equal, Only(Stored(of.key)), Only(Stored(of.at)));
    let values = Draft::Test(
        Equal,
        Only(Get(of.map, of.key)),
        Only(Get(of.inner, of.key)),
    );
    let presence = Draft::Test(
        Equal,
        Only(Has(of.map, of.key)),
        Only(Has(of.inner, of.key)),
    );
    let here = Draft::Join(And, &same, change);
    let apart = Draft::Not(&same);
    let alike = Draft::Join(And, &values, &presence);
    let elsewhere = Draft::Join(And, &apart, &alike);
    formula(terms, &Draft::Join(Or, &here, &elsewhere))
}

/// A map behind `put`, at a key.
fn put_read(terms: &mut Terms, of: Change, value: TermId) -> Result<FormId, TermStop>
    requires of { IsChange terms.old of }
    requires value { IsTerm terms.old value }
    ensures built { BuildsForm terms.new (change_form terms.old of (is_found (tree terms.old of.map) (tree terms.old of.key) (tree terms.old value))) result }
    ensures keeps { Extends terms.old terms.new }
{
    let agrees = Draft::Test(Equal, Only(Get(of.map, of.key)), Only(Stored(value)));
    let there = Draft::Test(Equal, Only(Has(of.map, of.key)), Only(Number(1)));
    changed_read(terms, of, &Draft::Join(And, &agrees, &there))
}

/// A map behind `del`, at a key.
fn del_read(terms: &mut Terms, of: Change) -> Result<FormId, TermStop>
    requires { IsChange terms.old of }
    ensures built { BuildsForm terms.new (change_form terms.old of (is_gone (tree terms.old of.map) (tree terms.old of.key))) result }
    ensures keeps { Extends terms.old terms.new }
{
    let nothing = Draft::Test(Equal, Only(Get(of.map, of.key)), Only(Number(0)));
    let absent = Draft::Test(Equal, Only(Has(of.map, of.key)), Only(Number(0)));
    changed_read(terms, of, &Draft::Join(And, &nothing, &absent))
}

/// A map behind `bump`, at a key.
fn bump_read(terms: &mut Terms, of: Change, count: TermId) -> Result<FormId, TermStop>
    requires of { IsChange terms.old of }
    requires count { IsTerm terms.old count }
    ensures built { BuildsForm terms.new (change_form terms.old of (is_raised (tree terms.old of.map) (tree terms.old of.key) (Add (Get (tree terms.old of.inner) (tree terms.old of.at)) (tree terms.old count)))) result }
    ensures keeps { Extends terms.old terms.new }
{
    let raised = Plus(Get(of.inner, of.at), Stored(count));
    let positive = Draft::Test(Below, Only(Number(0)), raised);
    let agrees = Draft::Test(Equal, Only(Get(of.map, of.key)), raised);
    let there = Draft::Test(Equal, Only(Has(of.map, of.key)), Only(Number(1)));
    let with_it = Draft::Join(And, &agrees, &there);
    let stays = Draft::Join(And, &positive, &with_it);
    let not_positive = Draft::Test(AtMost, raised, Only(Number(0)));
    let nothing = Draft::Test(Equal, Only(Get(of.map, of.key)), Only(Number(0)));
    let absent = Draft::Test(Equal, Only(Has(of.map, of.key)), Only(Number(0)));
    let without_it = Draft::Join(And, &nothing, &absent);
    let goes = Draft::Join(And, &not_positive, &without_it);
    changed_read(terms, of, &Draft::Join(Or, &stays, &goes))
}

/// What a map has at a key.
pub fn read_fact(terms: &mut Terms, map: TermId, key: TermId) -> Result<FormId, TermStop>
    requires map { IsTerm terms.old map }
    requires key { IsTerm terms.old key }
    ensures built { BuildsForm terms.new (read_form (tree terms.old map) (tree terms.old key)) result }
    ensures keeps { Extends terms.old terms.new }
{
    match terms.term(map) {
        Node::Nil => nil_read(terms, map, key),
        Node::Put(inner, at, value) => put_read(
            terms,
            Change {
                map,
                key,
                inner,
                at,
            },
            value,
        ),
        Node::Del(inner, at) => del_read(
            terms,
            Change {
                map,
                key,
                inner,
                at,
            },
        ),
        Node::Bump(inner, at, count) => bump_read(
            terms,
            Change {
                map,
                key,
                inner,
                at,
            },
            count,
        ),
        Node::Lit(_)
        | Node::Name(_)
        | Node::Add(_, _)
        | Node::Sub(_, _)
        | Node::Scale(_, _)
        | Node::Get(_, _)
        | Node::Has(_, _)
        | Node::Size(_)
        | Node::Sum(_) => any_read(terms, map, key),
    }
}

/// A law of the number of a map's keys, which is at least 1 where it has this key.
fn size_with(
    terms: &mut Terms,
    map: TermId,
    key: TermId,
    law: &Draft<'_>,
) -> Result<FormId, TermStop>
    requires map { IsTerm terms.old map }
    requires key { IsTerm terms.old key }
    requires law { IsDraft terms.old law.now }
    ensures built { BuildsForm terms.new (And (is_present_within (tree terms.old map) (tree terms.old key)) (draft_formula terms.old law.now)) result }
    ensures keeps { Extends terms.old terms.new }
{
    let within = Draft::Test(AtMost, Only(Has(map, key)), Only(Size(map)));
    let both = Draft::Join(And, &within, law);
    formula(terms, &both)
}

/// How many keys a map has, by those of the map that it was before.
fn size_law(terms: &Terms, map: TermId) -> Draft<'static>
    requires { IsTerm terms.now map }
    ensures law { draft_formula terms.now result ≡ size_law_form (tree terms.now map) }
    ensures stored { IsDraft terms.now result }
{
    let size = Only(Size(map));
    match terms.term(map) {
        Node::Nil => Draft::Test(Equal, size, Only(Number(0))),
        Node::Put(inner, at, _) => Draft::Test(
            Equal,
            size,
            PlusMinus(Size(inner), Number(1), Has(inner, at)),
        ),
        Node::Del(inner, at) => Draft::Test(Equal, size, Minus(Size(inner), Has(inner, at))),
        Node::Bump(inner, at, _) => Draft::Test(
            Equal,
            size,
            PlusMinus(Size(inner), Has(map, at), Has(inner, at)),
        ),
        Node::Lit(_)
        | Node::Name(_)
        | Node::Add(_, _)
        | Node::Sub(_, _)
        | Node::Scale(_, _)
        | Node::Get(_, _)
        | Node::Has(_, _)
        | Node::Size(_)
        | Node::Sum(_) => Draft::Test(AtMost, Only(Number(0)), size),
    }
}

/// How many keys a map has, at least 1 where it has this key.
pub fn size_fact(terms: &mut Terms, map: TermId, key: TermId) -> Result<FormId, TermStop>
    requires map { IsTerm terms.old map }
    requires key { IsTerm terms.old key }
    ensures built { BuildsForm terms.new (size_form (tree terms.old map) (tree terms.old key)) result }
    ensures keeps { Extends terms.old terms.new }
{
    let law = size_law(terms, map);
    size_with(terms, map, key, &law)
}

/// The sum of a map's values beside a law of it.
fn total_with(
    terms: &mut Terms,
    map: TermId,
    key: TermId,
    law: &Draft<'_>,
) -> Result<FormId, TermStop>
    requires map { IsTerm terms.old map }
    requires key { IsTerm terms.old key }
    requires law { IsDraft terms.old law.now }
    ensures built { BuildsForm terms.new (And (small_sums (tree terms.old map) (tree terms.old key)) (draft_formula terms.old law.now)) result }
    ensures keeps { Extends terms.old terms.new }
{
    let (size, sum) = (Only(Size(map)), Only(Sum(map)));
    let no_key = Draft::Test(Equal, size, Only(Number(0)));
    let no_sum = Draft::Test(Equal, sum, Only(Number(0)));
    let empty = Draft::Join(Implies, &no_key, &no_sum);
    let one_key = Draft::Test(Equal, size, Only(Number(1)));
    let this_key = Draft::Test(Equal, Only(Has(map, key)), Only(Number(1)));
    let alone = Draft::Join(And, &one_key, &this_key);
    let its_value = Draft::Test(Equal, sum, Only(Get(map, key)));
    let single = Draft::Join(Implies, &alone, &its_value);
    let small = Draft::Join(And, &empty, &single);
    let both = Draft::Join(And, &small, law);
    formula(terms, &both)
}

/// The sum of a map's values, by that of the map that it was before.
fn sum_law(terms: &Terms, map: TermId) -> Draft<'static>
    requires { IsTerm terms.now map }
    ensures law { draft_formula terms.now result ≡ sum_law_form (tree terms.now map) }
    ensures stored { IsDraft terms.now result }
{
    let sum = Only(Sum(map));
    match terms.term(map) {
        Node::Nil => Draft::Test(Equal, sum, Only(Number(0))),
        Node::Put(inner, at, value) => Draft::Test(
            Equal,
            sum,
            PlusMinus(Sum(inner), Stored(value), Get(inner, at)),
        ),
        Node::Del(inner, at) => Draft::Test(Equal, sum, Minus(Sum(inner), Get(inner, at))),
        Node::Bump(inner, at, _) => Draft::Test(
            Equal,
            sum,
            PlusMinus(Sum(inner), Get(map, at), Get(inner, at)),
        ),
        Node::Lit(_)
        | Node::Name(_)
        | Node::Add(_, _)
        | Node::Sub(_, _)
        | Node::Scale(_, _)
        | Node::Get(_, _)
        | Node::Has(_, _)
        | Node::Size(_)
        | Node::Sum(_) => Draft::Test(Equal, Only(Number(0)), Only(Number(0))),
    }
}

/// The sum of a map's values.
pub fn total_fact(terms: &mut Terms, map: TermId, key: TermId) -> Result<FormId, TermStop>
    requires map { IsTerm terms.old map }
    requires key { IsTerm terms.old key }
    ensures built { BuildsForm terms.new (total_form (tree terms.old map) (tree terms.old key)) result }
    ensures keeps { Extends terms.old terms.new }
{
    let law = sum_law(terms, map);
    total_with(terms, map, key, &law)
}
