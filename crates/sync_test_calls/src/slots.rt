//! Slots of an operation.
ghost use Rattle.sync_machine.specs.Views.{HasOwnIds};

use crate::machines::{TRADE, field_name};
use std::io;
use sync_machine::Machine;
use sync_rules::signature;

/// Prints the slots of the trade: what happens, the field and the line.
pub(crate) fn print_slots(rt: &HostRuntime, m: &Machine) -> io::Result<()>
    requires { HasOwnIds m.now }
{
    if TRADE as usize >= m.ops.len() {
        return println!(rt; "no trade");
    }
    let Ok(slots) = signature(rt.alloc(), m, TRADE) else {
        return println!(rt; "no memory");
    };
    print!(rt; "slots of a trade:")?;
    for slot in slots.as_slice() {
        print!(rt;
            " {:?} {} line {}",
            slot.role,
            field_name(slot.field),
            slot.line
        )?;
    }
    println!(rt; "")
}
