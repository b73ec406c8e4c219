//! Laws of seats and lists of entries.
ghost use Rattle.std.specs.Prelude.{ℕ, Bool, List};
ghost use Rattle.sync_words.specs.declared.entries.Entry.{Entry as OneEntry};
ghost use Rattle.sync_words.specs.declared.rule.View.{View as OneView};
ghost use Rattle.sync_words.specs.Views.{IsListOf};
ghost use Rattle.sync_words.specs.Agreeing.{HasLogsOf, AreSome};

/// A list that has a seat has its logs.
pub fn logs_agree()
    ensures { (v : OneView) (es : List OneEntry) → IsListOf es v → HasLogsOf v es }
{}

/// What a cut of a seat asks for: that it has a number on each side.
pub fn numbers_agree()
    ensures { (test : ℕ → Bool) (numbers : List ℕ) → AreSome test numbers }
{}
