//! Texts as lexemes, and lexemes as the terminals of the grammar: signs and reserved words, numbers, and names by their place in the
//! list of names.
#![tactic(auto)]

mod bytes;
mod lexemes;
mod lexer;
mod pieces;
mod punctuation;
mod signs;
mod strategies;
mod terminal_reader;
mod terminals;

pub use lexemes::{Kind, Lexeme, Tokens};
pub use lexer::lex;
pub use signs::{SIGNS, Sign, sign_of};
pub use strategies::{strategy_name, strategy_of};
pub use terminal_reader::read_terminals;
pub use terminals::{Terminal, TerminalKind, Terminals};
