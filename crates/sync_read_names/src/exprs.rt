//! Expressions, made into terms and formulas of a store.
ghost use Rattle.std.specs.Prelude.{◌≡◌, ◌+◌, ◌≤◌, ◌<◌, min, map, length, slice_get, get_or, MatchOption, IfSome, IfOk, Ok, pos};
ghost use Rattle.sync_base.specs.Outcome.{Gives};
ghost use Rattle.sync_terms.specs.Stored.{tree, formula, shape, form_shape, IsTerm, IsForm, HasChildren, HasParts, Extends};
ghost use Rattle.sync_terms.specs.Trees.{Sub, Lit, tree_size, formula_size, most_nodes};
ghost use Rattle.sync_read_names.specs.Exprs.{Reading, reading, clashes, misfit, held_term, counted_call, call_nodes, call_fault, function_sort, operator_sort, operator_nodes, term_as, form_as, argument, map_and_key, map_and_two, call_term, applied, two_terms, two_forms, compared, joins_forms, all_nodes, nodes_at, start_fault, term_of, form_of};

use crate::scopes::{Scope, Sight, Sort, broken, held_symbol_of, refused};
use sync_base::{Refusal, Rule, Stop};
use sync_parse_exprs::{Function, Operator, RawExpr, RawExprKind, RawName};
use sync_terms::{FormId, FormNode, MOST_NODES, Node, Sym, TermId, TermStop, Terms};

/// Adds a term, which is small enough.
fn added(terms: &mut Terms, node: Node) -> Result<TermId, Stop>
    requires children { HasChildren terms.old node }
    requires small { tree_size (shape terms.old node) ≤ most_nodes }
    ensures exact { Gives (tree terms.new) result (Ok (shape terms.old node)) }
    ensures id { IfOk result (IsTerm terms.new) }
    ensures keeps { Extends terms.old terms.new }
{
    match terms.add_term(node) {
        Ok(id) => Ok(id),
        Err(TermStop::Memory) => Err(Stop::Memory),
        Err(TermStop::TooLarge) => unreachable!(),
    }
}

/// Adds a formula, which is small enough.
fn added_form(terms: &mut Terms, node: FormNode) -> Result<FormId, Stop>
    requires parts { HasParts terms.old node }
    requires small { formula_size (form_shape terms.old node) ≤ most_nodes }
    ensures exact { Gives (formula terms.new) result (Ok (form_shape terms.old node)) }
    ensures id { IfOk result (IsForm terms.new) }
    ensures keeps { Extends terms.old terms.new }
{
    match terms.add_form(node) {
        Ok(id) => Ok(id),
        Err(TermStop::Memory) => Err(Stop::Memory),
        Err(TermStop::TooLarge) => unreachable!(),
    }
}

/// The rule that a function's name breaks beside so many arguments.
fn call_fault(sight: Sight, function: Function, line: u32, count: usize) -> Option<Refusal>
    ensures { result ≡ call_fault sight function line count }
{
    let arity = match function {
        Function::Size | Function::Sum => 1,
        Function::Get | Function::Has | Function::Del => 2,
        Function::Put | Function::Bump => 3,
        Function::Held => {
            if !sight.held {
                return Some(broken(Rule::N1, line));
            }
            1
        }
    };
    if count == arity {
        None
    } else {
        Some(broken(Rule::N3, line))
    }
}

/// The sort of what a function gives.
fn function_sort(sight: Sight, function: Function) -> Option<Sort>
    ensures { result ≡ function_sort sight function }
{
    match function {
        Function::Get | Function::Has | Function::Size | Function::Sum => Some(Sort::Number),
        Function::Put | Function::Del | Function::Bump => Some(Sort::Map),
        Function::Held => if sight.held { Some(Sort::Number) } else { None },
    }
}

fn operator_sort(operator: Operator) -> Sort
    ensures { result ≡ operator_sort operator }
{
    match operator {
        Operator::Plus | Operator::Minus => Sort::Number,
        Operator::Implies
        | Operator::Or
        | Operator::And
        | Operator::Equal
        | Operator::NotEqual
        | Operator::AtMost
        | Operator::Below => Sort::Formula,
    }
}

/// The sort of an expression, where its name is known.
fn sort_of(scope: &Scope, e: &RawExpr) -> Option<Sort>
    ensures { result ≡ (reading e.now).sort scope.now }
{
    match &e.what {
        RawExprKind::Number(_) | RawExprKind::Minus(_) | RawExprKind::Times(_, _) => Some(
            Sort::Number,
        ),
        RawExprKind::Name(named) => scope.name_sort(named.name),
        RawExprKind::Param(_, _) if scope.knows_params() => Some(Sort::Number),
        RawExprKind::Param(_, _) => None,
        RawExprKind::Special(word, _) => {
            if scope.sight.knows_special(*word) {
                Some(Sort::Number)
            } else {
                None
            }
        }
        RawExprKind::Nil => Some(Sort::Map),
        RawExprKind::Bracketed(a) => sort_of(scope, a.get()),
        RawExprKind::Call(function, _, _) => function_sort(scope.sight, *function),
        RawExprKind::Not(_) => Some(Sort::Formula),
        RawExprKind::Two(operator, _, _) => Some(operator_sort(*operator)),
    }
}

/// Whether another sort is wanted.
fn clashes(wanted: Sort, found: Option<Sort>) -> bool
    ensures { result ≡ clashes wanted found }
{
    match found {
        Some(found) => found != wanted,
        None => false,
    }
}

/// The rule that the first lexeme of an expression breaks as a name, or as the name of a function.
fn opening(scope: &Scope, e: &RawExpr) -> Option<Refusal>
    ensures { result ≡ (reading e.now).opening scope.now }
{
    match &e.what {
        RawExprKind::Name(named) => match scope.name_sort(named.name) {
            Some(_) => None,
            None => Some(broken(Rule::N1, named.line)),
        },
        RawExprKind::Param(line, _) => {
            if scope.knows_params() {
                None
            } else {
                Some(broken(Rule::N1, *line))
            }
        }
        RawExprKind::Special(word, line) => {
            if scope.sight.knows_special(*word) {
                None
            } else {
                Some(broken(Rule::N1, *line))
            }
        }
        RawExprKind::Call(function, line, args) => {
            call_fault(scope.sight, *function, *line, args.len())
        }
        RawExprKind::Bracketed(_) => None,
        RawExprKind::Two(_, a, _) => opening(scope, a.get()),
        RawExprKind::Number(_)
        | RawExprKind::Nil
        | RawExprKind::Not(_)
        | RawExprKind::Minus(_)
        | RawExprKind::Times(_, _) => None,
    }
}

/// The refusal of an expression of another sort than is wanted.
fn misfit(scope: &Scope, e: &RawExpr) -> Stop
    ensures { result ≡ Stop.Refused (misfit (reading e.now) scope.now) }
{
    match opening(scope, e) {
        Some(refusal) => Stop::Refused(refusal),
        None => Stop::Refused(broken(Rule::N6, e.line)),
    }
}

fn operator_nodes(operator: Operator) -> u64
    ensures { result ≡ operator_nodes operator }
{
    match operator {
        Operator::NotEqual => 2,
        Operator::Plus
        | Operator::Minus
        | Operator::Implies
        | Operator::Or
        | Operator::And
        | Operator::Equal
        | Operator::AtMost
        | Operator::Below => 1,
    }
}

/// A number of nodes, or one more than a term may have.
fn capped(count: u64) -> u64
    ensures { result ≡ min count (most_nodes + 1) }
{
    count.min(MOST_NODES + 1)
}

/// The nodes of a call whose arguments have so many, or one more than a term may have.
fn counted_call(function: Function, count: u64) -> u64
    requires { count ≤ most_nodes + 1 }
    ensures { result ≡ min (counted_call function count) (most_nodes + 1) }
{
    match function {
        Function::Held => 1,
        Function::Get
        | Function::Has
        | Function::Size
        | Function::Sum
        | Function::Put
        | Function::Del
        | Function::Bump => capped(1 + count),
    }
}

/// The nodes of an expression as a tree, or one more than a term may have.
#[cycle(counting)]
fn nodes(e: &RawExpr) -> u64
    ensures { result ≡ min (reading e.now).nodes (most_nodes + 1) }
{
    match &e.what {
        RawExprKind::Number(_)
        | RawExprKind::Name(_)
        | RawExprKind::Param(_, _)
        | RawExprKind::Nil
        | RawExprKind::Special(_, _) => 1,
        RawExprKind::Call(function, _, args) => counted_call(*function, nodes_of(args.as_slice())),
        RawExprKind::Bracketed(a) => nodes(a.get()),
        RawExprKind::Not(a) => capped(1 + nodes(a.get())),
        RawExprKind::Minus(a) => capped(2 + nodes(a.get())),
        RawExprKind::Times(_, a) => capped(1 + nodes(a.get())),
        RawExprKind::Two(operator, a, b) => {
            capped(operator_nodes(*operator) + nodes(a.get()) + nodes(b.get()))
        }
    }
}

/// The nodes of expressions, or one more than a term may have.
#[cycle(counting)]
#[tactic(auto, unfolding(crate::specs::Exprs::all_nodes))]
fn nodes_of(es: &[RawExpr]) -> u64
    ensures { result ≡ min (all_nodes (map reading es.now)) (most_nodes + 1) }
{
    let mut count = 0;
    for e in es {
        count = capped(count + nodes(e));
    }
    count
}

/// The rule that the first lexeme of an expression that stands by itself breaks, but for its sort.
fn start_fault(scope: &Scope, e: &RawExpr) -> Option<Refusal>
    ensures { result ≡ start_fault (reading e.now) scope.now }
{
    if let Some(refusal) = opening(scope, e) {
        return Some(refusal);
    }
    if nodes(e) > MOST_NODES {
        return Some(broken(Rule::N5, e.line));
    }
    None
}

/// The name that an expression is, in brackets or not.
fn bare(e: &RawExpr) -> Option<RawName>
    ensures { result ≡ (reading e.now).bare }
{
    match &e.what {
        RawExprKind::Name(named) => Some(*named),
        RawExprKind::Bracketed(a) => bare(a.get()),
        RawExprKind::Number(_)
        | RawExprKind::Param(_, _)
        | RawExprKind::Nil
        | RawExprKind::Special(_, _)
        | RawExprKind::Call(_, _, _)
        | RawExprKind::Not(_)
        | RawExprKind::Minus(_)
        | RawExprKind::Times(_, _)
        | RawExprKind::Two(_, _, _) => None,
    }
}

/// The term `0 - x`.
#[tactic(auto, using(crate::proofs::Kept::kept_tree, crate::proofs::Kept::kept_term, crate::proofs::Kept::along, crate::proofs::Kept::stays), unfolding(sync_terms::specs::Stored::shape, sync_terms::specs::Stored::tree, sync_terms::specs::Trees::tree_size))]
fn negated(terms: &mut Terms, x: TermId) -> Result<TermId, Stop>
    requires id { IsTerm terms.old x }
    requires small { 2 + tree_size (tree terms.old x) ≤ most_nodes }
    ensures exact { Gives (tree terms.new) result (Ok (Sub (Lit (pos 0)) (tree terms.old x))) }
    ensures id { IfOk result (IsTerm terms.new) }
    ensures keeps { Extends terms.old terms.new }
{
    let zero = added(terms, Node::Lit(0))?;
    added(terms, Node::Sub(zero, x))
}

/// A sum or a difference.
#[tactic(auto, unfolding(sync_terms::specs::Stored::shape, sync_terms::specs::Stored::tree, sync_terms::specs::Trees::tree_size))]
fn counted(terms: &mut Terms, operator: Operator, x: TermId, y: TermId) -> Result<TermId, Stop>
    requires x { IsTerm terms.old x }
    requires y { IsTerm terms.old y }
    requires small { 1 + tree_size (tree terms.old x) + tree_size (tree terms.old y) ≤ most_nodes }
    ensures exact { Gives (tree terms.new) result (Ok (two_terms operator (tree terms.old x) (tree terms.old y))) }
    ensures id { IfOk result (IsTerm terms.new) }
    ensures keeps { Extends terms.old terms.new }
{
    match operator {
        Operator::Plus => added(terms, Node::Add(x, y)),
        Operator::Minus
        | Operator::Implies
        | Operator::Or
        | Operator::And
        | Operator::Equal
        | Operator::NotEqual
        | Operator::AtMost
        | Operator::Below => added(terms, Node::Sub(x, y)),
    }
}

/// The argument at a place.
#[tactic(auto, using(crate::proofs::Nodes::one_small, crate::proofs::Nodes::one_at))]
fn argument_at(args: &[RawExpr], at: usize) -> Option<&RawExpr>
    requires small { all_nodes (map reading args.now) ≤ most_nodes }
    ensures item { MatchOption result (length args.now ≤ at) (λ e. (at < length args.now) × (e.now ≡ get_or args.now at e.now)) }
    ensures nodes { IfSome result (λ e. (reading e.now).nodes ≡ nodes_at (map reading args.now) at) }
    ensures small { IfSome result (λ e. (reading e.now).nodes ≤ most_nodes) }
{
    args.get(at)
}

/// The argument at a place, as a term of a sort.
#[cycle(terms)]
#[tactic(auto, using(crate::proofs::Kept::along, crate::proofs::Kept::stays))]
fn argument(
    terms: &mut Terms,
    scope: &Scope,
    args: &[RawExpr],
    at: usize,
    line: u32,
    wanted: Sort,
) -> Result<TermId, Stop>
    requires small { all_nodes (map reading args.now) ≤ most_nodes }
    ensures exact { Gives (tree terms.new) result (argument wanted (map reading args.now) at line scope.now) }
    ensures id { IfOk result (IsTerm terms.new) }
    ensures size { IfOk result (λ t. tree_size (tree terms.new t) ≤ nodes_at (map reading args.now) at) }
    ensures keeps { Extends terms.old terms.new }
{
    let Some(e) = argument_at(args, at) else {
        return Err(refused(Rule::N3, line));
    };
    term(terms, scope, e, wanted)
}

/// A map and a number, as arguments.
#[cycle(terms)]
#[tactic(auto, using(crate::proofs::Kept::kept_tree, crate::proofs::Kept::kept_term, crate::proofs::Kept::along, crate::proofs::Kept::stays))]
fn map_and_key(
    terms: &mut Terms,
    scope: &Scope,
    args: &[RawExpr],
    line: u32,
) -> Result<(TermId, TermId), Stop>
    requires small { all_nodes (map reading args.now) ≤ most_nodes }
    ensures exact { Gives (λ p. (tree terms.new p.0, tree terms.new p.1)) result (map_and_key (map reading args.now) line scope.now) }
    ensures ids { IfOk result (λ p. IsTerm terms.new p.0 × IsTerm terms.new p.1) }
    ensures size { IfOk result (λ p. tree_size (tree terms.new p.0) + tree_size (tree terms.new p.1)
        ≤ nodes_at (map reading args.now) 0 + nodes_at (map reading args.now) 1) }
    ensures keeps { Extends terms.old terms.new }
{
    let m = argument(terms, scope, args, 0, line, Sort::Map)?;
    let k = argument(terms, scope, args, 1, line, Sort::Number)?;
    Ok((m, k))
}

/// A map and two numbers, as arguments.
#[cycle(terms)]
#[tactic(auto, using(crate::proofs::Nodes::three_small, crate::proofs::Kept::kept_tree, crate::proofs::Kept::kept_term, crate::proofs::Kept::along, crate::proofs::Kept::stays))]
fn map_and_two(
    terms: &mut Terms,
    scope: &Scope,
    args: &[RawExpr],
    line: u32,
) -> Result<(TermId, TermId, TermId), Stop>
    requires small { all_nodes (map reading args.now) ≤ most_nodes }
    ensures exact { Gives (λ p. (tree terms.new p.0, tree terms.new p.1, tree terms.new p.2)) result (map_and_two (map reading args.now) line scope.now) }
    ensures ids { IfOk result (λ p. IsTerm terms.new p.0 × IsTerm terms.new p.1 × IsTerm terms.new p.2) }
    ensures size { IfOk result (λ p. tree_size (tree terms.new p.0) + tree_size (tree terms.new p.1) + tree_size (tree terms.new p.2)
        ≤ all_nodes (map reading args.now)) }
    ensures keeps { Extends terms.old terms.new }
{
    let (m, k) = map_and_key(terms, scope, args, line)?;
    let v = argument(terms, scope, args, 2, line, Sort::Number)?;
    Ok((m, k, v))
}

/// `held` of its argument, which is a name.
#[tactic(auto, using(crate::proofs::Nodes::one_reading, crate::proofs::Kept::stays), unfolding(sync_terms::specs::Stored::shape, sync_terms::specs::Trees::tree_size))]
fn held(terms: &mut Terms, args: &[RawExpr], line: u32) -> Result<TermId, Stop>
    ensures exact { Gives (tree terms.new) result (held_term (slice_get (map reading args.now) 0) line) }
    ensures id { IfOk result (IsTerm terms.new) }
    ensures size { IfOk result (λ t. tree_size (tree terms.new t) ≤ 1) }
    ensures keeps { Extends terms.old terms.new }
{
    let Some(e) = args.get(0) else {
        return Err(refused(Rule::N3, line));
    };
    match bare(e) {
        Some(named) => added(terms, Node::Name(held_symbol_of(named.name))),
        None => Err(refused(Rule::N6, e.line)),
    }
}

/// A function of arguments of which there are as many as it takes.
#[cycle(terms)]
#[tactic(auto, using(crate::proofs::Nodes::three_small, crate::proofs::Kept::along, crate::proofs::Kept::stays), unfolding(crate::specs::Exprs::applied, sync_terms::specs::Stored::shape, sync_terms::specs::Stored::tree, sync_terms::specs::Trees::tree_size))]
fn applied(
    terms: &mut Terms,
    scope: &Scope,
    function: Function,
    args: &[RawExpr],
    line: u32,
) -> Result<TermId, Stop>
    requires small { call_nodes function (map reading args.now) ≤ most_nodes }
    ensures exact { Gives (tree terms.new) result (applied function (map reading args.now) line scope.now) }
    ensures id { IfOk result (IsTerm terms.new) }
    ensures size { IfOk result (λ t. tree_size (tree terms.new t) ≤ call_nodes function (map reading args.now)) }
    ensures keeps { Extends terms.old terms.new }
{
    match function {
        Function::Get => {
            let (m, k) = map_and_key(terms, scope, args, line)?;
            added(terms, Node::Get(m, k))
        }
        Function::Has => {
            let (m, k) = map_and_key(terms, scope, args, line)?;
            added(terms, Node::Has(m, k))
        }
        Function::Del => {
            let (m, k) = map_and_key(terms, scope, args, line)?;
            added(terms, Node::Del(m, k))
        }
        Function::Size => {
            let m = argument(terms, scope, args, 0, line, Sort::Map)?;
            added(terms, Node::Size(m))
        }
        Function::Sum => {
            let m = argument(terms, scope, args, 0, line, Sort::Map)?;
            added(terms, Node::Sum(m))
        }
        Function::Put => {
            let (m, k, v) = map_and_two(terms, scope, args, line)?;
            added(terms, Node::Put(m, k, v))
        }
        Function::Bump => {
            let (m, k, v) = map_and_two(terms, scope, args, line)?;
            added(terms, Node::Bump(m, k, v))
        }
        Function::Held => held(terms, args, line),
    }
}

/// A function of its arguments.
#[cycle(terms)]
#[tactic(auto, using(crate::proofs::Kept::stays), unfolding(crate::specs::Exprs::call_term))]
fn call(
    terms: &mut Terms,
    scope: &Scope,
    function: Function,
    args: &[RawExpr],
    line: u32,
) -> Result<TermId, Stop>
    requires small { call_nodes function (map reading args.now) ≤ most_nodes }
    ensures exact { Gives (tree terms.new) result (call_term function (map reading args.now) line scope.now) }
    ensures id { IfOk result (IsTerm terms.new) }
    ensures size { IfOk result (λ t. tree_size (tree terms.new t) ≤ call_nodes function (map reading args.now)) }
    ensures keeps { Extends terms.old terms.new }
{
    if let Some(refusal) = call_fault(scope.sight, function, line, args.len()) {
        return Err(Stop::Refused(refusal));
    }
    applied(terms, scope, function, args, line)
}

/// An expression as a term of a sort.
#[cycle(terms)]
#[tactic(auto, using(crate::proofs::Kept::kept_tree, crate::proofs::Kept::kept_term, crate::proofs::Kept::along, crate::proofs::Kept::stays), unfolding(sync_terms::specs::Stored::shape, sync_terms::specs::Stored::tree, sync_terms::specs::Trees::tree_size))]
fn term(terms: &mut Terms, scope: &Scope, e: &RawExpr, wanted: Sort) -> Result<TermId, Stop>
    requires small { (reading e.now).nodes ≤ most_nodes }
    ensures exact { Gives (tree terms.new) result (term_as wanted (reading e.now) scope.now) }
    ensures id { IfOk result (IsTerm terms.new) }
    ensures size { IfOk result (λ t. tree_size (tree terms.new t) ≤ (reading e.now).nodes) }
    ensures keeps { Extends terms.old terms.new }
{
    if clashes(wanted, sort_of(scope, e)) {
        return Err(misfit(scope, e));
    }
    match &e.what {
        RawExprKind::Number(n) => added(terms, Node::Lit(*n)),
        RawExprKind::Name(named) => {
            let symbol = scope.known_symbol(*named)?;
            added(terms, Node::Name(symbol))
        }
        RawExprKind::Param(line, named) => {
            let symbol = scope.param_symbol(*line, *named)?;
            added(terms, Node::Name(symbol))
        }
        RawExprKind::Nil => added(terms, Node::Nil),
        RawExprKind::Bracketed(a) => term(terms, scope, a.get(), wanted),
        RawExprKind::Special(word, line) => {
            let symbol = scope.word_symbol(*word, *line)?;
            added(terms, Node::Name(Sym(symbol)))
        }
        RawExprKind::Call(function, line, args) => {
            call(terms, scope, *function, args.as_slice(), *line)
        }
        RawExprKind::Minus(a) => {
            let x = term(terms, scope, a.get(), Sort::Number)?;
            negated(terms, x)
        }
        RawExprKind::Times(n, a) => {
            let x = term(terms, scope, a.get(), Sort::Number)?;
            added(terms, Node::Scale(*n, x))
        }
        RawExprKind::Two(operator, a, b) => {
            let x = term(terms, scope, a.get(), Sort::Number)?;
            let y = term(terms, scope, b.get(), Sort::Number)?;
            counted(terms, *operator, x, y)
        }
        RawExprKind::Not(_) => Err(refused(Rule::N6, e.line)),
    }
}

/// Two terms, compared.
#[tactic(auto, using(crate::proofs::Kept::along, crate::proofs::Kept::stays), unfolding(sync_terms::specs::Stored::form_shape, sync_terms::specs::Stored::tree, sync_terms::specs::Stored::formula, sync_terms::specs::Trees::tree_size, sync_terms::specs::Trees::formula_size))]
fn compared(terms: &mut Terms, operator: Operator, x: TermId, y: TermId) -> Result<FormId, Stop>
    requires x { IsTerm terms.old x }
    requires y { IsTerm terms.old y }
    requires small { operator_nodes operator + tree_size (tree terms.old x) + tree_size (tree terms.old y) ≤ most_nodes }
    ensures exact { Gives (formula terms.new) result (Ok (compared operator (tree terms.old x) (tree terms.old y))) }
    ensures id { IfOk result (IsForm terms.new) }
    ensures keeps { Extends terms.old terms.new }
{
    match operator {
        Operator::AtMost => added_form(terms, FormNode::Le(x, y)),
        Operator::Below => added_form(terms, FormNode::Lt(x, y)),
        Operator::NotEqual => {
            let equal = added_form(terms, FormNode::Eq(x, y))?;
            added_form(terms, FormNode::Not(equal))
        }
        Operator::Equal
        | Operator::Implies
        | Operator::Or
        | Operator::And
        | Operator::Plus
        | Operator::Minus => added_form(terms, FormNode::Eq(x, y)),
    }
}

/// Two formulas, joined.
#[tactic(auto, unfolding(sync_terms::specs::Stored::form_shape, sync_terms::specs::Stored::tree, sync_terms::specs::Stored::formula, sync_terms::specs::Trees::tree_size, sync_terms::specs::Trees::formula_size))]
fn combined(terms: &mut Terms, operator: Operator, f: FormId, g: FormId) -> Result<FormId, Stop>
    requires f { IsForm terms.old f }
    requires g { IsForm terms.old g }
    requires small { 1 + formula_size (formula terms.old f) + formula_size (formula terms.old g) ≤ most_nodes }
    ensures exact { Gives (formula terms.new) result (Ok (two_forms operator (formula terms.old f) (formula terms.old g))) }
    ensures id { IfOk result (IsForm terms.new) }
    ensures keeps { Extends terms.old terms.new }
{
    match operator {
        Operator::Implies => added_form(terms, FormNode::Imp(f, g)),
        Operator::Or => added_form(terms, FormNode::Or(f, g)),
        Operator::And
        | Operator::Plus
        | Operator::Minus
        | Operator::Equal
        | Operator::NotEqual
        | Operator::AtMost
        | Operator::Below => added_form(terms, FormNode::And(f, g)),
    }
}

fn joins_forms(operator: Operator) -> bool
    ensures { result ≡ joins_forms operator }
{
    match operator {
        Operator::Implies | Operator::Or | Operator::And => true,
        Operator::Plus
        | Operator::Minus
        | Operator::Equal
        | Operator::NotEqual
        | Operator::AtMost
        | Operator::Below => false,
    }
}

/// An expression as a formula.
#[tactic(auto, using(crate::proofs::Kept::kept_tree, crate::proofs::Kept::kept_term, crate::proofs::Kept::kept_formula, crate::proofs::Kept::kept_form, crate::proofs::Kept::along, crate::proofs::Kept::stays), unfolding(sync_terms::specs::Stored::form_shape, sync_terms::specs::Stored::tree, sync_terms::specs::Stored::formula, sync_terms::specs::Trees::tree_size, sync_terms::specs::Trees::formula_size))]
fn form(terms: &mut Terms, scope: &Scope, e: &RawExpr) -> Result<FormId, Stop>
    requires small { (reading e.now).nodes ≤ most_nodes }
    ensures exact { Gives (formula terms.new) result (form_as (reading e.now) scope.now) }
    ensures id { IfOk result (IsForm terms.new) }
    ensures size { IfOk result (λ f. formula_size (formula terms.new f) ≤ (reading e.now).nodes) }
    ensures keeps { Extends terms.old terms.new }
{
    if clashes(Sort::Formula, sort_of(scope, e)) {
        return Err(misfit(scope, e));
    }
    match &e.what {
        RawExprKind::Not(a) => {
            let f = form(terms, scope, a.get())?;
            added_form(terms, FormNode::Not(f))
        }
        RawExprKind::Bracketed(a) => form(terms, scope, a.get()),
        RawExprKind::Two(operator, a, b) => {
            if joins_forms(*operator) {
                let f = form(terms, scope, a.get())?;
                let g = form(terms, scope, b.get())?;
                combined(terms, *operator, f, g)
            } else {
                let x = term(terms, scope, a.get(), Sort::Number)?;
                let y = term(terms, scope, b.get(), Sort::Number)?;
                compared(terms, *operator, x, y)
            }
        }
        RawExprKind::Name(named) => Err(refused(Rule::N1, named.line)),
        RawExprKind::Param(line, _)
        | RawExprKind::Special(_, line)
        | RawExprKind::Call(_, line, _) => { Err(refused(Rule::N1, *line)) }
        RawExprKind::Number(_)
        | RawExprKind::Nil
        | RawExprKind::Minus(_)
        | RawExprKind::Times(_, _) => { Err(refused(Rule::N6, e.line)) }
    }
}

/// An expression that stands by itself, as a term of a sort.
#[tactic(auto, using(crate::proofs::Kept::stays))]
pub fn term_of(terms: &mut Terms, scope: &Scope, e: &RawExpr, wanted: Sort) -> Result<TermId, Stop>
    ensures exact { Gives (tree terms.new) result (term_of wanted e.now scope.now) }
    ensures id { IfOk result (IsTerm terms.new) }
    ensures keeps { Extends terms.old terms.new }
{
    if let Some(refusal) = start_fault(scope, e) {
        return Err(Stop::Refused(refusal));
    }
    term(terms, scope, e, wanted)
}

/// An expression that stands by itself, as a formula.
#[tactic(auto, using(crate::proofs::Kept::stays))]
pub fn form_of(terms: &mut Terms, scope: &Scope, e: &RawExpr) -> Result<FormId, Stop>
    ensures exact { Gives (formula terms.new) result (form_of e.now scope.now) }
    ensures id { IfOk result (IsForm terms.new) }
    ensures keeps { Extends terms.old terms.new }
{
    if let Some(refusal) = start_fault(scope, e) {
        return Err(Stop::Refused(refusal));
    }
    form(terms, scope, e)
}
