//! The machine whose operations are exchanged.
ghost use Rattle.std.specs.Prelude.{IfSome};
ghost use Rattle.sync_machine.specs.Views.{HasOwnIds};

use std::alloc::Global;
use sync_join::PERM;
use sync_machine::Machine;
use sync_parse::parse;
use sync_read::resolve;

/// A machine with a field of each of six strategies. The require of `zero` stands in line 7.
const TEXT: &[u8] = b"version 1;
machine M {
  field m: map; field st: storage_map; field t: count;
  field c: variable; field g: not_tokenized; field p: persistent_map;
  transition trade(k) { require c <= k; update c = c + k; remove m -= [k => ?v]; add m += [v => c]; add p += [k => v]; }
  transition twice(k) { remove m -= [k => ?v]; have m >= [k => ?w]; }
  transition zero() { require c = 0; }
  transition fetch(k) { withdraw st -= [k => ?v]; }
  transition pay() { remove t -= (4); }
  transition raise() { update c = c + 1; }
  transition late() { withdraw st -= [3 => ?v]; remove t -= (v); }
  transition tally() { update g = size(m); }
}
";

/// The machine's fields.
pub(crate) const ENTRIES: u32 = 0;

pub(crate) const STORE: u32 = 1;

pub(crate) const COUNT: u32 = 2;

pub(crate) const VARIABLE: u32 = 3;

pub(crate) const MARKS: u32 = 5;

/// The machine's operations.
pub(crate) const TRADE: u32 = 0;

pub(crate) const TWICE: u32 = 1;

pub(crate) const ZERO: u32 = 2;

pub(crate) const FETCH: u32 = 3;

pub(crate) const PAY: u32 = 4;

pub(crate) const RAISE: u32 = 5;

pub(crate) const LATE: u32 = 6;

pub(crate) const TALLY: u32 = 7;

/// How the text names a field.
pub(crate) fn field_name(field: u32) -> &'static str {
    match field {
        ENTRIES => "m",
        STORE => "st",
        COUNT => "t",
        VARIABLE => "c",
        4 => "g",
        MARKS => "p",
        PERM => "PERM",
        _ => "none",
    }
}

/// The machine that the text spells.
pub(crate) fn machine(alloc: Global) -> Option<Machine>
    ensures { IfSome result HasOwnIds }
{
    match parse(alloc, TEXT) {
        Ok(raw) => match resolve(
            alloc,
            raw.names.list.len(),
            &raw.machine,
            raw.proofs.as_slice(),
        ) {
            Ok(text) => Some(text.machine),
            Err(_) => None,
        },
        Err(_) => None,
    }
}
