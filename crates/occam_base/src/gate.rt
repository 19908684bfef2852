/// Is told of each claim that a worker wins. No result depends on it.
pub trait Gate: Sync {
    /// The worker won a claim; it is its claim of this number, counted from 1.
    fn reached(&self, worker: usize, number: u64);
}

/// A gate that does nothing.
#[derive(Clone, Copy, Debug)]
pub struct OpenGate;

impl Gate for OpenGate {
    fn reached(&self, _worker: usize, _number: u64) {}
}
