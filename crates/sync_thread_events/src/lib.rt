//! Events of code: the shared step of whoever waits, and what he does up to the next one.
#![tactic(auto)]

mod asking;
mod calls;
mod endings;
mod finding;
mod laws;
mod layout;
mod moments;
mod moving;
mod steps;
mod stores;

pub use asking::{asked, local_of};
pub use calls::{ErasedConfig, erased_event, start_config};
pub use endings::Halted;
pub use finding::list_at;
pub use laws::{final_block_waits_last, steps_are_code_steps};
pub use layout::{Laid, lay};
pub use moments::Moment;
pub use moving::{begin, go_on};
pub use steps::{SharedStep, Span, Spans, WordStep};
pub use stores::{Steps, Store};
