//! The commands, and the words that ask for them.
ghost use Rattle.std.specs.Prelude.{◌≡◌, ◌≢◌, ◌↔◌, IsTrue, MatchOption};
ghost use Rattle.sync_cli.specs.Commands.{word_of, Asks, AsksNothing};
ghost use Rattle.sync_cli.specs.declared.commands.Command.{Command as Job};

/// What the program is asked to do.
#[derive(Clone, Copy)]
pub enum Command {
    /// Checks a text with its proofs.
    Check,
    /// Lists what has to be proved of a text's machine.
    Obligations,
}

impl Command {
    /// The word that asks for the command.
    fn word(self) -> &'static str
        ensures { result.now ≡ word_of self }
    {
        match self {
            Command::Check => "check",
            Command::Obligations => "obligations",
        }
    }
}

/// The command that a word asks for.
fn command_named(word: &str) -> Option<Command>
    ensures { MatchOption result ((command : Job) → word.now ≢ word_of command) (λ command. word.now ≡ word_of command) }
{
    if word == Command::Check.word() {
        return Some(Command::Check);
    }
    if word == Command::Obligations.word() {
        return Some(Command::Obligations);
    }
    None
}

/// The command that the words ask for: they are its one word.
pub fn command_of(words: &[String]) -> Option<Command>
    ensures { MatchOption result (AsksNothing words.now) (Asks words.now) }
{
    match words {
        [word] => command_named(word.as_str()),
        _ => None,
    }
}
