use crate::{Failed, Fault, Sink, Source};
use std::io;
use std::io::{Read, Write};

/// Standard input. It tells contracts nothing of what comes.
#[derive(Drop)]
pub struct StdSource<'r, R: Input> {
    rt: &'r R,
    faults: u64,
}

impl<'r, R: Input> StdSource<'r, R> {
    pub fn new(rt: &'r R) -> StdSource<'r, R> {
        StdSource { rt, faults: 0 }
    }
}

impl<'r, R: Input> Source for StdSource<'r, R> {
    ghost use Rattle.std.specs.Prelude.{None};

    ghost left = { λ s. None };

    ghost faults = { λ s. s.faults };

    fn read(&mut self, buf: &mut [u8]) -> Result<usize, Failed> {
        match self.rt.reader().read(buf) {
            Ok(count) => Ok(count),
            Err(_) => {
                self.faults = self.faults.saturating_add(1);
                Err(Failed)
            }
        }
    }
}

/// Standard output. It tells contracts nothing of what it took.
#[derive(Drop)]
pub struct StdSink<'r, R: Print> {
    rt: &'r R,
    faults: u64,
}

impl<'r, R: Print> StdSink<'r, R> {
    pub fn new(rt: &'r R) -> StdSink<'r, R> {
        StdSink { rt, faults: 0 }
    }
}

impl<'r, R: Print> Sink for StdSink<'r, R> {
    ghost use Rattle.std.specs.Prelude.{None};

    ghost taken = { λ s. None };

    ghost faults = { λ s. s.faults };

    fn write(&mut self, piece: &[u8]) -> Result<usize, Fault> {
        let count = match io::writer(self.rt).write(piece) {
            Ok(count) => count,
            Err(_) => 0,
        };
        if count > 0 || piece.is_empty() {
            return Ok(count);
        }
        self.faults = self.faults.saturating_add(1);
        Err(Fault::Failed)
    }
}
