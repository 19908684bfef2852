//! Calls that read and write bytes, and comparisons.
use crate::answer::Answer;
use crate::known::{is_byte, is_value_of};
use crate::session::Session;
use block_memory::Val;
use ir_syntax::Sym;
use ir_types::{Pred, Scalar};

impl Session {
    pub fn load(&self, ty: Scalar, align: u8, at: &Val<Sym>) -> Answer {
        if self.is_address(at) {
            Answer::of_value(self.memory.load(ty, align, at))
        } else {
            Answer::Meaningless
        }
    }

    pub fn store(&mut self, ty: Scalar, align: u8, value: &Val<Sym>, at: &Val<Sym>) -> Answer {
        if self.is_address(at) && is_value_of(ty, value) {
            Answer::of_change(self.memory.store(ty, align, value, at))
        } else {
            Answer::Meaningless
        }
    }

    pub fn fill(&mut self, to: &Val<Sym>, byte: &Val<Sym>, len: u64) -> Answer {
        if self.is_address(to) && is_byte(byte) {
            Answer::of_change(self.memory.fill(to, byte, len))
        } else {
            Answer::Meaningless
        }
    }

    pub fn copy(&mut self, to: &Val<Sym>, from: &Val<Sym>, len: u64, may_overlap: bool) -> Answer {
        if self.is_address(to) && self.is_address(from) {
            Answer::of_change(self.memory.copy_bytes(to, from, len, may_overlap))
        } else {
            Answer::Meaningless
        }
    }

    pub fn compare(&self, pred: Pred, a: &Val<Sym>, b: &Val<Sym>) -> Answer {
        if self.is_known(a) && self.is_known(b) {
            Answer::of_value(self.memory.compare(pred, a, b))
        } else {
            Answer::Meaningless
        }
    }
}
