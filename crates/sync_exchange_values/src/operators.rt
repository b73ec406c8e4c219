//! What terms and formulas make of the values of their parts.
ghost use Rattle.std.specs.Prelude.{◌≡◌, ℤ, Bool, ◌&&◌, not, SomeIff, FitsSigned};
ghost use Rattle.std.specs.Int.{w128};
ghost use Rattle.sync_entries.specs.Narrow.{is_narrow};
ghost use Rattle.sync_exchange_values.specs.Steps.{Evaluates, operated, related, connected};

use crate::stops::EvalStop;

/// What is done with two numbers.
#[derive(Clone, Copy, Debug)]
pub(crate) enum Operator {
    Plus,
    Minus,
    Times,
}

impl Operator {
    fn of(self, left: i128, right: i128) -> Option<i128>
        ensures { SomeIff result (FitsSigned w128 (operated self left right)) (operated self left right) }
    {
        match self {
            Operator::Plus => left.checked_add(right),
            Operator::Minus => left.checked_sub(right),
            Operator::Times => left.checked_mul(right),
        }
    }

    /// The number that comes of the values of two terms.
    pub(crate) fn apply(
        self,
        left: Result<i128, EvalStop>,
        right: Result<i128, EvalStop>,
    ) -> Result<i128, EvalStop>
        ensures { (x y : ℤ) (f g : Bool) → Evaluates left x f → Evaluates right y g → Evaluates result (operated self x y) (f && g && is_narrow (operated self x y)) }
    {
        match left {
            Err(stop) => Err(stop),
            Ok(first) => match right {
                Err(stop) => Err(stop),
                Ok(second) => match self.of(first, second) {
                    Some(n) => Ok(n),
                    None => Err(EvalStop::Width),
                },
            },
        }
    }
}

/// How two numbers are compared.
#[derive(Clone, Copy, Debug)]
pub(crate) enum Relation {
    Le,
    Lt,
    Eq,
}

impl Relation {
    fn of(self, left: i128, right: i128) -> bool
        ensures { result ≡ related self left right }
    {
        match self {
            Relation::Le => left <= right,
            Relation::Lt => left < right,
            Relation::Eq => left == right,
        }
    }

    /// Whether the values of two terms are so related.
    pub(crate) fn apply(
        self,
        left: Result<i128, EvalStop>,
        right: Result<i128, EvalStop>,
    ) -> Result<bool, EvalStop>
        ensures { (x y : ℤ) (f g : Bool) → Evaluates left x f → Evaluates right y g → Evaluates result (related self x y) (f && g) }
    {
        match left {
            Err(stop) => Err(stop),
            Ok(first) => match right {
                Err(stop) => Err(stop),
                Ok(second) => Ok(self.of(first, second)),
            },
        }
    }
}

/// How two formulas are joined.
#[derive(Clone, Copy, Debug)]
pub(crate) enum Connective {
    And,
    Or,
    Imp,
}

impl Connective {
    fn of(self, left: bool, right: bool) -> bool
        ensures { result ≡ connected self left right }
    {
        match self {
            Connective::And => left && right,
            Connective::Or => left || right,
            Connective::Imp => !left || right,
        }
    }

    /// The truth that comes of that of two formulas.
    pub(crate) fn apply(
        self,
        left: Result<bool, EvalStop>,
        right: Result<bool, EvalStop>,
    ) -> Result<bool, EvalStop>
        ensures { (x y : Bool) (f g : Bool) → Evaluates left x f → Evaluates right y g → Evaluates result (connected self x y) (f && g) }
    {
        match left {
            Err(stop) => Err(stop),
            Ok(first) => match right {
                Err(stop) => Err(stop),
                Ok(second) => Ok(self.of(first, second)),
            },
        }
    }
}

/// The truth of a negation.
pub(crate) fn negated(truth: Result<bool, EvalStop>) -> Result<bool, EvalStop>
    ensures { (x f : Bool) → Evaluates truth x f → Evaluates result (not x) f }
{
    match truth {
        Err(stop) => Err(stop),
        Ok(truth) => Ok(!truth),
    }
}
