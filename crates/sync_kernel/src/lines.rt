//! The lines of the facts that sums have used, each computed once.
ghost use Rattle.std.specs.Prelude.{◌≡◌, Err, Some, OnOk, IsSome};
ghost use Rattle.sync_linear.specs.declared.stops.LinearStop.TheVariants.{Width};
ghost use Rattle.sync_linear.specs.Forms.{Narrow};
ghost use Rattle.sync_terms.specs.Stored.{Stored};
ghost use Rattle.sync_kernel_facts.specs.Literals.{literal_form, IsLiteral};
ghost use Rattle.sync_kernel.specs.Rows.{row_of};
ghost use Rattle.sync_kernel.specs.Shapes.{shaped, row_shaped};

use crate::rows::Shape;
use std::alloc::Global;
use std::collections::HashMap;
use sync_kernel_facts::Literal;
use sync_linear::{Linear, LinearStop};
use sync_terms::Terms;

/// The most nodes of formulas whose lines one sum leaves to the next.
const MOST_KEPT: u64 = 262_144;

/// The lines that are kept, and the number of nodes of their formulas, as far as the type goes.
#[derive(Drop)]
pub(crate) struct Lines {
    pub kept: HashMap<Literal, Linear>,
    pub nodes: u64,
}

impl Lines {
    ghost use Rattle.sync_kernel.specs.SumLines.{line_in, WereLines};

    /// No lines.
    pub(crate) fn new(alloc: Global) -> Lines
        ensures { (s : Stored) → WereLines s result }
    {
        Lines {
            kept: HashMap::new(alloc),
            nodes: 0,
        }
    }

    /// Drops the lines where they are large together.
    pub(crate) fn limit(&mut self, alloc: Global)
        ensures { (s : Stored) → WereLines s self.old → WereLines s self.new }
    {
        if self.nodes > MOST_KEPT {
            *self = Lines::new(alloc);
        }
    }

    /// Computes the line of what is said, if it was not computed before.
    pub(crate) fn keep(
        &mut self,
        alloc: Global,
        terms: &Terms,
        says: Literal,
        shape: Shape,
    ) -> Result<(), LinearStop>
        requires stored { IsLiteral terms.now says }
        requires shape { shaped terms.now shape }
        requires row { row_of (literal_form terms.now says) ≡ Some (row_shaped terms.now shape) }
        requires lines { WereLines terms.now self.old }
        ensures lines { WereLines terms.now self.new }
        ensures there { OnOk result (IsSome (line_in self.new says)) }
        ensures width { result ≡ Err Width → Narrow (row_shaped terms.now shape).line → ⊥ }
    {
        if self.kept.contains_key(&says) {
            return Ok(());
        }
        let line = match shape.line(alloc, terms) {
            Ok(line) => line,
            Err(stop) => return Err(stop),
        };
        let size = says.size(terms);
        self.nodes = self.nodes.saturating_add(size);
        match self.kept.insert(says, line) {
            Ok(_) => Ok(()),
            Err(_) => Err(LinearStop::Memory),
        }
    }
}
