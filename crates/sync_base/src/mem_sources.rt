//! A source of bytes in memory, for programs and tests that need no system.
ghost use Rattle.std.specs.Prelude.{◌≡◌, ◌<◌, ◌++◌, ◌↔◌, IsErr, length, take, drop, min, IfOk, OnErr};
ghost use Rattle.sync_base.specs.InMemory.{FailsNext, input_after, input_faulted};

use crate::plans::Plan;
use crate::sources::Source;
use crate::stops::Failed;
use std::marker::Model;

/// A source that gives bytes from memory, and fails at the calls that it is told.
#[derive(Debug, Drop)]
pub struct MemSource {
    bytes: Vec<u8>,
    next: usize,
    plan: Plan,
}

impl Model for MemSource {
    ghost use Rattle.std.specs.Prelude.{◌≤◌, length, drop};
    ghost use Rattle.sync_base.specs.InMemory.{Input};

    ghost Value = { Input };

    ghost view = { λ s. record { left = drop s.next s.bytes.items; failing = s.plan.failing.items; calls = s.plan.calls; faults = s.plan.faults } };

    ghost invariant = { λ s. s.next ≤ length s.bytes.items };
}

impl MemSource {
    /// A source of these bytes. Its call number k, from 1, fails exactly where k is in `failing`.
    pub fn new(bytes: Vec<u8>, failing: Vec<u64>) -> MemSource
        ensures { result ≡ record { left = bytes.items; failing = failing.items; calls = 0; faults = 0 } }
    {
        MemSource {
            bytes,
            next: 0,
            plan: Plan::new(failing),
        }
    }
}

fn give(left: &[u8], buf: &mut [u8]) -> usize
    ensures len { result ≡ min (length left.now) (length buf.old) }
    ensures given { left.now ≡ take result buf.new ++ drop result left.now }
    ensures behind { drop result buf.new ≡ drop result buf.old }
{
    let n = left.len().min(buf.len());
    buf[..n].copy_from_slice(&left[..n]);
    n
}

impl Source for MemSource {
    ghost use Rattle.std.specs.Prelude.{Some};

    ghost left = { λ s. Some s.left };

    ghost faults = { λ s. s.faults };

    /// Gives as many bytes as fit, unless the call is one that fails.
    fn read(&mut self, buf: &mut [u8]) -> Result<usize, Failed>
        requires { 0 < length buf.old }
        ensures fails { IsErr result ↔ FailsNext self.old.failing self.old.calls }
        ensures count { IfOk result (λ n. n ≡ min (length self.old.left) (length buf.old)) }
        ensures given { IfOk result (λ n. self.old.left ≡ take n buf.new ++ self.new.left) }
        ensures behind { IfOk result (λ n. drop n buf.new ≡ drop n buf.old) }
        ensures after { IfOk result (λ n. self.new ≡ input_after self.old n) }
        ensures fault { OnErr result (self.new ≡ input_faulted self.old) }
        ensures kept { OnErr result (buf.new ≡ buf.old) }
    {
        if self.plan.fails(false) {
            return Err(Failed);
        }
        let n = give(&self.bytes[self.next..], buf);
        self.next += n;
        Ok(n)
    }
}
