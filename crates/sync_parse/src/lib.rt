//! From bytes to raw trees: the whole grammar of machines and proofs, with the rule that a text breaks first.
#![tactic(auto)]

mod act_reader;
mod machine_reader;
mod script_reader;
mod scripts;
mod trees;

pub use act_reader::place;
pub use machine_reader::{machine, parse, proofs, refusal_of, version};
pub use script_reader::script;
pub use scripts::{
    RawBlock, RawHypName, RawPart, RawScript, RawScriptStep, RawStepKind, RawSubject,
};
pub use trees::{
    RawAct, RawClaim, RawField, RawInvariant, RawMachine, RawOperation, RawPattern, RawPlace,
    RawProof, RawStep, RawText,
};
