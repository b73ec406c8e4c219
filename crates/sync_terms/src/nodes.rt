//! Symbols, ids and stored nodes.
ghost use Rattle.std.specs.Prelude.{◌≡◌, ◌<◌, ◌^◌, ◌+◌};
ghost use Rattle.sync_terms.specs.Symbols.{name_symbol, dollar_symbol, held_symbol};

/// A symbol: a field, a parameter, a local, or another name of a number or a map.
///
/// The symbol of field number f is f, below 32. `value`, `index`, `old`, `new` and `wrap` are 32 to 36. For the
/// name with number n in the text's list, 64 + 4n is it as a parameter, bound name, local or proof name,
/// 64 + 4n + 1 is `$` before it, and 64 + 4n + 2 is `held` of it as a token name.
#[derive(Clone, Copy, PartialEq, Eq, PartialOrd, Ord, Hash, Debug)]
pub struct Sym(pub u32);

impl Sym {
    /// The name with this number, as a parameter, bound name, local or proof name.
    pub fn of_name(name: u32) -> Sym
        requires { name_symbol name < 2 ^ 32 }
        ensures { result.0 ≡ name_symbol name }
    {
        Sym(64 + 4 * name)
    }

    /// `$` before the name of this symbol.
    pub fn dollar(self) -> Sym
        requires { dollar_symbol self.0 < 2 ^ 32 }
        ensures { result.0 ≡ dollar_symbol self.0 }
    {
        Sym(self.0 + 1)
    }

    /// `held` of the name of this symbol, as a token's name.
    pub fn held(self) -> Sym
        requires { held_symbol self.0 < 2 ^ 32 }
        ensures { result.0 ≡ held_symbol self.0 }
    {
        Sym(self.0 + 2)
    }
}

/// The place of a term in its store.
#[derive(Clone, Copy, PartialEq, Eq, PartialOrd, Ord, Hash, Debug)]
pub struct TermId(pub u32);

/// The place of a formula in its store.
#[derive(Clone, Copy, PartialEq, Eq, PartialOrd, Ord, Hash, Debug)]
pub struct FormId(pub u32);

/// A term whose parts are ids of the same store.
#[derive(Clone, Copy, PartialEq, Eq, Hash, Debug)]
pub enum Node {
    Lit(i128),
    Name(Sym),
    Add(TermId, TermId),
    Sub(TermId, TermId),
    Scale(i128, TermId),
    Get(TermId, TermId),
    Has(TermId, TermId),
    Size(TermId),
    Sum(TermId),
    Nil,
    Put(TermId, TermId, TermId),
    Del(TermId, TermId),
    Bump(TermId, TermId, TermId),
}

/// A formula whose parts are ids of the same store.
#[derive(Clone, Copy, PartialEq, Eq, Hash, Debug)]
pub enum FormNode {
    Le(TermId, TermId),
    Lt(TermId, TermId),
    Eq(TermId, TermId),
    Not(FormId),
    And(FormId, FormId),
    Or(FormId, FormId),
    Imp(FormId, FormId),
}
