//! What programs spell, by their productions, and what reading them says of it.

ghost use Rattle.sync_parse_texts.specs.Laws.{OneProgram, ReadIsSpelled, SpelledIsRead};

/// A program that is read is spelled by its terminals.
pub fn what_is_read_is_spelled()
    ensures { ReadIsSpelled }
{}

/// A program that terminals spell up to the end of a text is read of them, or is too deep.
pub fn what_is_spelled_is_read()
    ensures { SpelledIsRead }
{}

/// No terminals spell two programs.
pub fn no_terminals_spell_two_programs()
    ensures { OneProgram }
{}
