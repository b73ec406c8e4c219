//! From the bytes of a text to a machine whose tokens may be exchanged.
#![tactic(auto)]

mod machines;

pub use machines::tokenized_machine;
