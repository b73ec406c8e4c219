//! What symbols stand for.
ghost use Rattle.std.specs.Prelude.{◌≡◌, IfOk, IfSome};
ghost use Rattle.sync_terms.specs.Values.{Valuation};

use std::alloc::Global;
use sync_base::NoMemory;
use sync_entries::Entries;
use sync_terms::Sym;

/// What each symbol stands for: a number where a number is wanted, and a finite map where a map is.
pub trait Meanings {
    ghost meaning: { Self → Valuation };

    /// The number that a symbol stands for.
    fn number(&self, x: Sym) -> i128
        ensures { result ≡ (meaning self.now).number x.0 };

    /// The map that a symbol stands for, where it is at hand.
    fn map(&self, x: Sym) -> Option<&Entries>
        ensures { IfSome result (λ m. m.now ≡ (meaning self.now).mapping x.0) };

    /// The map that a symbol stands for, made anew.
    fn made(&self, alloc: Global, x: Sym) -> Result<Entries, NoMemory>
        ensures { IfOk result (λ m. m ≡ (meaning self.now).mapping x.0) };
}
