//! The real input and output.
ghost use Rattle.std.specs.Prelude.{None};

use std::io::{Read, Stdin, Write};
use sync_base::{Failed, Sink, Source};

/// Standard input. Each call reads once, and each error counts as a fault. It tells no bytes.
#[derive(Drop)]
pub struct StdSource {
    input: Stdin,
    fault_count: u64,
}

impl StdSource {
    pub fn new(input: Stdin) -> StdSource {
        StdSource {
            input,
            fault_count: 0,
        }
    }
}

impl Source for StdSource {
    ghost left = { λ _. None };

    ghost faults = { λ s. s.fault_count };

    fn read(&mut self, buf: &mut [u8]) -> Result<usize, Failed> {
        match self.input.read(buf) {
            Ok(count) => Ok(count),
            Err(_) => {
                self.fault_count = self.fault_count.saturating_add(1);
                Err(Failed)
            }
        }
    }
}

/// Standard output or standard error. Each call writes once, and each error and each write of no byte counts as a
/// fault. It tells no bytes.
#[derive(Drop)]
pub struct StdSink<W: Write> {
    output: W,
    fault_count: u64,
}

impl<W: Write> StdSink<W> {
    pub fn new(output: W) -> StdSink<W> {
        StdSink {
            output,
            fault_count: 0,
        }
    }
}

impl<W: Write> Sink for StdSink<W> {
    ghost got = { λ _. None };

    ghost faults = { λ s. s.fault_count };

    fn write(&mut self, piece: &[u8]) -> Result<usize, Failed> {
        match self.output.write(piece) {
            Ok(0) | Err(_) => {
                self.fault_count = self.fault_count.saturating_add(1);
                Err(Failed)
            }
            Ok(count) => Ok(count),
        }
    }
}
