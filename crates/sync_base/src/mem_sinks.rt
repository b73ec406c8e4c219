//! A sink of bytes in memory, for programs and tests that need no system.
ghost use Rattle.std.specs.Prelude.{◌≡◌, ◌+◌, ◌-◌, ◌<◌, ◌≤◌, ◌++◌, [], ◌⊎◌, ◌↔◌, IsErr, length, take, drop, min, IfOk, OnErr};
ghost use Rattle.sync_base.specs.InMemory.{FailsNext, output_after, output_faulted};

use crate::plans::Plan;
use crate::sinks::Sink;
use crate::stops::{Failed, NoMemory};
use std::alloc::Global;
use std::marker::Model;

/// A sink that keeps what it gets in memory that it took when it was made, and fails at the calls that it is told
/// and where it is full.
#[derive(Debug, Drop)]
pub struct MemSink {
    buf: Vec<u8>,
    len: usize,
    plan: Plan,
}

impl Model for MemSink {
    ghost use Rattle.std.specs.Prelude.{◌≤◌, length, take};
    ghost use Rattle.sync_base.specs.InMemory.{Output};

    ghost Value = { Output };

    ghost view = { λ s. record { got = take s.len s.buf.items; room = length s.buf.items; failing = s.plan.failing.items; calls = s.plan.calls; faults = s.plan.faults } };

    ghost invariant = { λ s. s.len ≤ length s.buf.items };
}

/// Writes as many bytes of the piece as there is room for behind a place.
fn take_in(buf: &mut [u8], len: usize, piece: &[u8]) -> usize
    requires { len ≤ length buf.old }
    ensures count { result ≡ min (length piece.now) (length buf.old - len) }
    ensures bytes { take (len + result) buf.new ≡ take len buf.old ++ take result piece.now }
{
    let n = piece.len().min(buf.len() - len);
    buf[len..len + n].copy_from_slice(&piece[..n]);
    n
}

impl MemSink {
    /// A sink with room for so many bytes. Its call number k, from 1, fails exactly where k is in `failing` or the
    /// room is full.
    pub fn new(alloc: Global, room: u64, failing: Vec<u64>) -> Result<MemSink, NoMemory>
        ensures { IfOk result (λ s. s ≡ record { got = []; room = room; failing = failing.items; calls = 0; faults = 0 }) }
    {
        let buf = vec![in alloc; 0; room as usize]?;
        Ok(MemSink {
            buf,
            len: 0,
            plan: Plan::new(failing),
        })
    }

    /// The bytes that were taken so far.
    pub fn got(&self) -> &[u8]
        ensures { result.now ≡ self.now.got }
    {
        &self.buf[..self.len]
    }
}

impl Sink for MemSink {
    ghost use Rattle.std.specs.Prelude.{Some};

    ghost got = { λ s. Some s.got };

    ghost faults = { λ s. s.faults };

    /// Takes as many bytes as there is room for, unless there is none or the call is one that fails.
    fn write(&mut self, piece: &[u8]) -> Result<usize, Failed>
        requires { 0 < length piece.now }
        ensures fails { IsErr result ↔ ((self.old.room ≤ length self.old.got) ⊎ FailsNext self.old.failing self.old.calls) }
        ensures count { IfOk result (λ n. n ≡ min (length piece.now) (self.old.room - length self.old.got)) }
        ensures after { IfOk result (λ n. self.new ≡ output_after self.old (take n piece.now)) }
        ensures fault { OnErr result (self.new ≡ output_faulted self.old) }
    {
        let is_full = self.len == self.buf.len();
        if self.plan.fails(is_full) {
            return Err(Failed);
        }
        let n = take_in(&mut self.buf, self.len, piece);
        self.len += n;
        Ok(n)
    }
}
