//! Places behind a keep: names stand for themselves, and the first facts are put back at a list's end.
ghost use Rattle.std.specs.Prelude.{◌≡◌, ◌<◌, IfOk, OnOk};
ghost use Rattle.std.specs.List.{All};
ghost use Rattle.sync_kernel.specs.Hypotheses.{AreReady};
ghost use Rattle.sync_terms.specs.Stored.{tree, Extends, IsTerm, Stored};
ghost use Rattle.sync_thread.specs.Arrays.{name_limit};
ghost use Rattle.sync_typing.specs.Environments.{bounds, know, top};
ghost use Rattle.sync_typing.specs.Keeps.{with_own};
ghost use Rattle.sync_typing_places.specs.Places.{env_of, own_bounds, with_hand, Becomes, IsOwn, IsRenewed};

use crate::dues::name_of;
use crate::places::{Place, bounds_made};
use sync_base::NoMemory;
use sync_kernel::Hypotheses;
use sync_terms::{HypName, Sym, TermId, Terms};

impl Place {
    /// Names stand for themselves from now on.
    pub fn own_names(&mut self, terms: &mut Terms, names: &[u32]) -> Result<(), NoMemory>
        requires own { IsOwn terms.old self.old }
        requires names { All (λ n. n < name_limit) names.now }
        ensures becomes { OnOk result (Becomes terms.old terms.new self.old self.new
            (with_hand (env_of terms.old self.old) (with_own names.now (env_of terms.old self.old).terms)
            (env_of terms.old self.old).hand)) }
        ensures keeps { Extends terms.old terms.new }
    {
        for name in names {
            let symbol = Sym::of_name(*name);
            let term = name_of(terms, symbol)?;
            self.name_as(terms, symbol, term)?;
        }
        Ok(())
    }

    /// That a symbol's term, a small one, is a word is known from now on.
    fn know_word(&mut self, terms: &mut Terms, symbol: Sym, term: TermId) -> Result<(), NoMemory>
        requires own { IsOwn terms.old self.old }
        requires term { IsTerm terms.old term }
        ensures becomes { OnOk result (Becomes terms.old terms.new self.old self.new
            (know (bounds symbol.0 (tree terms.old term) top) (env_of terms.old self.old))) }
        ensures keeps { Extends terms.old terms.new }
    {
        let Ok(bounds) = bounds_made(terms, 0, term, u64::MAX) else {
            return Err(NoMemory);
        };
        self.learn(terms, HypName::Low(symbol.0), bounds.low)?;
        self.learn(terms, HypName::High(symbol.0), bounds.high)
    }

    /// Locals stand for themselves, and each is a word: that is known from now on.
    fn know_locals(&mut self, terms: &mut Terms, locals: &[u32]) -> Result<(), NoMemory>
        requires own { IsOwn terms.old self.old }
        requires locals { All (λ n. n < name_limit) locals.now }
        ensures becomes { OnOk result (Becomes terms.old terms.new self.old self.new
            (know (own_bounds locals.now) (env_of terms.old self.old))) }
        ensures keeps { Extends terms.old terms.new }
    {
        for local in locals {
            let symbol = Sym::of_name(*local);
            let term = name_of(terms, symbol)?;
            self.know_word(terms, symbol, term)?;
        }
        Ok(())
    }

    /// Behind a keep: names stand for themselves, those of the keep too, no token is at hand, and that locals are words
    /// is known. What was known is handed out.
    pub fn renew(
        &mut self,
        terms: &mut Terms,
        own: &[u32],
        locals: &[u32],
    ) -> Result<Hypotheses, NoMemory>
        requires own { IsOwn terms.old self.old }
        requires names { All (λ n. n < name_limit) own.now }
        requires locals { All (λ n. n < name_limit) locals.now }
        ensures renewed { IfOk result (IsRenewed terms.old terms.new self.old self.new own.now locals.now) }
        ensures keeps { Extends terms.old terms.new }
    {
        self.hand.renew();
        let known = std::mem::replace(&mut self.known, Hypotheses::new(self.alloc));
        self.own_names(terms, own)?;
        self.know_locals(terms, locals)?;
        Ok(known)
    }

    /// Other facts are known from now on: those that were known before a keep.
    pub fn put_back(&mut self, known: Hypotheses)
        ensures place { self.new ≡ record self.old { known = known } }
        ensures own { (s : Stored) → IsOwn s self.old → AreReady s known → IsOwn s self.new }
    {
        self.known = known;
    }
}
