//! What a call answers, before it is written.
ghost use Rattle.std.specs.Prelude.{◌≡◌};
ghost use Rattle.sync_cli.specs.Answers.{status_of, lines_of, err_of};

use crate::statuses::Status;
use sqlite_items::Items;

/// The words that are allowed, with a line feed.
pub const USAGE: &str = "usage: check or obligations\n";

/// An answer. Each line has its line feed.
#[derive(Drop)]
pub enum Answer {
    /// What the command gives, line by line.
    Done(Items<Items<u8>>),
    /// The text breaks a rule, and the line says which.
    Refused(String),
    /// The words are not allowed.
    Usage,
    /// The source failed.
    ReadFault,
    /// Memory was wanting.
    NoMemory,
}

impl Answer {
    /// The status that stands with the answer.
    pub fn status(&self) -> Status
        ensures { result ≡ status_of self.now }
    {
        match self {
            Answer::Done(_) => Status::Done,
            Answer::Refused(_) => Status::Refused,
            Answer::Usage => Status::Usage,
            Answer::ReadFault => Status::ReadFault,
            Answer::NoMemory => Status::NoMemory,
        }
    }

    /// The lines for the output.
    pub fn lines(&self) -> &[Items<u8>]
        ensures { result.now ≡ lines_of self.now }
    {
        match self {
            Answer::Done(lines) => lines.as_slice(),
            _ => &[],
        }
    }

    /// The text for what is not output.
    pub fn err(&self) -> &str
        ensures { result.now ≡ err_of self.now }
    {
        match self {
            Answer::Done(_) => "",
            Answer::Refused(line) => line.as_str(),
            Answer::Usage => USAGE,
            Answer::ReadFault => "read fault\n",
            Answer::NoMemory => "no memory\n",
        }
    }
}
