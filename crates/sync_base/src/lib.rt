//! What every crate shares: names, stops, the traits of the outside, and tables.
#![tactic(auto)]

mod gates;
mod limits;
mod mem_sinks;
mod mem_sources;
mod names;
mod places;
mod plans;
mod sinks;
mod sources;
mod stops;
mod strategies;
mod tables;

pub use gates::{Gate, OpenGate};
pub use limits::{LARGEST, LONGEST_NAME, LONGEST_TEXT};
pub use mem_sinks::MemSink;
pub use mem_sources::MemSource;
pub use names::{Name, NameList};
pub use places::place_number;
pub use sinks::Sink;
pub use sources::Source;
pub use stops::{Failed, NoMemory, Refusal, Rule, Stop};
pub use strategies::{OpMode, Strategy};
pub use tables::Table;
