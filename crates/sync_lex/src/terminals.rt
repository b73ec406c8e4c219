//! Terminals: what the grammar reads.
ghost use Rattle.std.specs.Prelude.{◌≡◌};
ghost use Rattle.sync_lex.specs.Terminals.{is_sign};

use crate::signs::Sign;
use sqlite_items::Items;
use sync_base::{NameList, Strategy};

/// What a lexeme says.
#[derive(Clone, Copy, PartialEq, Eq, Debug)]
pub enum TerminalKind {
    /// A name that is no reserved word, by its number in the list of names, with the strategy that has its spelling.
    Name(u32, Option<Strategy>),
    /// A number, at most 2^127 - 1.
    Number(u128),
    /// A sign or a reserved word.
    Sign(Sign),
}

/// A lexeme with its line, from 1.
#[derive(Clone, Copy, PartialEq, Eq, Debug)]
pub struct Terminal {
    pub what: TerminalKind,
    pub line: u32,
}

/// The lexemes of a text, its names in the order of their first appearance, and the line of its end, from 1.
#[derive(Debug, Drop)]
pub struct Terminals {
    pub list: Items<Terminal>,
    pub names: NameList,
    pub last_line: u32,
}

impl Terminal {
    /// Whether it is this sign or reserved word.
    pub fn is(self, sign: Sign) -> bool
        ensures { result ≡ is_sign self sign }
    {
        match self.what {
            TerminalKind::Sign(own) => own == sign,
            TerminalKind::Name(..) | TerminalKind::Number(_) => false,
        }
    }
}
