//! A machine with a program of threads over it, and the symbols that the program's terms name.
#![tactic(auto)]

ghost use Rattle.sync_thread_machine.specs.ProgramSymbols.{SymbolsDiffer};

/// The symbols of names, of their tokens, of words and of what is new to a text differ.
pub fn symbols_differ()
    ensures { SymbolsDiffer }
{}
