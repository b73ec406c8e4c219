//! Texts that are read keep the names.
#![tactic(auto)]

ghost use Rattle.sync_read_laws.specs.Laws.{ReadProgramsKeepNames, ReadTextsKeepNames};

/// A program that is read behind a machine keeps the names with it, as typing takes for granted.
pub fn read_programs_keep_names()
    ensures { ReadProgramsKeepNames }
{}

/// The program of a text that is read keeps the names with the text's machine.
pub fn read_texts_keep_names()
    ensures { ReadTextsKeepNames }
{}
