//! What begins with a name or a number.
ghost use Rattle.std.specs.Prelude.{◌≡◌};
ghost use Rattle.sync_parse_forms.specs.Readings.{begins_name, begins_number};

use sync_lex::{Terminal, TerminalKind};
use sync_parse_exprs::next;

/// Whether a name stands here.
pub fn begins_name(terminals: &[Terminal]) -> bool
    ensures { result ≡ begins_name terminals.now }
{
    match next(terminals) {
        Some((terminal, _)) => match terminal.what {
            TerminalKind::Name(..) => true,
            TerminalKind::Number(_) | TerminalKind::Sign(_) => false,
        },
        None => false,
    }
}

/// Whether a number stands here.
pub fn begins_number(terminals: &[Terminal]) -> bool
    ensures { result ≡ begins_number terminals.now }
{
    match next(terminals) {
        Some((terminal, _)) => match terminal.what {
            TerminalKind::Number(_) => true,
            TerminalKind::Name(..) | TerminalKind::Sign(_) => false,
        },
        None => false,
    }
}
