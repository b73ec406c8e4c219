//! Why a step is refused.
ghost use Rattle.std.specs.Prelude.{◌≡◌};
ghost use Rattle.sync_base.specs.declared.stops.Stop.TheVariants.{Refused};
ghost use Rattle.sync_kernel.specs.Holding.{stop_of, large_stop};

use sync_base::{Refusal, Rule, Stop};
use sync_linear::LinearStop;
use sync_terms::TermStop;

/// A rule that is broken at a line.
pub(crate) fn refusal(line: u32, rule: Rule) -> Stop
    ensures { result ≡ Refused (record { line = line; rule = rule }) }
{
    Stop::Refused(Refusal { line, rule })
}

/// K7 for a number outside 128 bits.
pub(crate) fn too_wide(stop: LinearStop, line: u32) -> Stop
    ensures { result ≡ stop_of line stop }
{
    match stop {
        LinearStop::Width => refusal(line, Rule::K7),
        LinearStop::Memory => Stop::Memory,
    }
}

/// K8 for a tree of too many nodes.
pub(crate) fn too_large(stop: TermStop, line: u32) -> Stop
    ensures { result ≡ large_stop line stop }
{
    match stop {
        TermStop::TooLarge => refusal(line, Rule::K8),
        TermStop::Memory => Stop::Memory,
    }
}
