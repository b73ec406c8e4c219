//! The way from the rules on single statements to programs that never fail.
#![tactic(auto)]

ghost use Rattle.sync_typing_laws.specs.Laws.{NamesPassToParts, TypedListsGoOn, TypedProgramsRest};
ghost use Rattle.sync_typing_laws.specs.RowLaws.{SingleRowsGoOn};
ghost use Rattle.sync_typing_laws.specs.Ruling.{Meanings};
ghost use Rattle.sync_typing_laws.specs.Soundness.{CaseStands, CloseStands, OpenStands};

/// Where a typed block opens a kept word, what is known then is so.
pub fn open_stands()
    ensures { OpenStands }
{}

/// Where it decides a guarded clause, what is known then is so.
pub fn case_stands()
    ensures { CaseStands }
{}

/// Where it closes the word, the word is kept at its new value.
pub fn close_stands()
    ensures { CloseStands }
{}

/// What environments mean: what they say of a thread, and what is true of the state as a whole.
pub trait Meant {
    ghost meanings: { Meanings };
}

/// A list without fault goes on where its single rows do.
pub fn typed_lists_go_on<T: Meant>()
    ensures { TypedListsGoOn T.meanings }
{}

/// The rules on names pass from a list to its parts.
pub fn names_pass_to_parts<T: Meant>()
    ensures { NamesPassToParts T.meanings }
{}

/// A program whose threads may begin rests at each moment of each schedule.
pub fn typed_programs_rest<T: Meant>()
    ensures { TypedProgramsRest T.meanings }
{}

/// Rows of local statements without exchanges, and of cells that are read and written, are sound.
pub fn single_rows_go_on<T: Meant>()
    ensures { SingleRowsGoOn T.meanings }
{}
