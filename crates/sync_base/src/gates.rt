//! What is asked before each shared step of a thread.

/// Is passed before each shared step. It returns and tells nothing.
pub trait Gate {
    /// Called before a shared step of the thread with this number.
    fn pass(&self, thread: u32);
}

/// The gate that is always open.
#[derive(Clone, Copy, PartialEq, Eq, Debug)]
pub struct OpenGate;

impl Gate for OpenGate {
    fn pass(&self, _thread: u32) {}
}
