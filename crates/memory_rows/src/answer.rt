//! Answers of calls.
use block_memory::{BlockExtent, Part, Val};
use int_ops::Cause;
use ir_syntax::Sym;
use ir_types::List;

/// What a call answers.
#[derive(Debug, Drop)]
pub enum Answer {
    Done,
    /// A block was made, with this number.
    Made(u64),
    Value(Val<Sym>),
    Undefined(Cause),
    Extent(BlockExtent),
    Bytes(List<Part<Sym>>),
    Holds(bool),
    /// No typed program asks this.
    Meaningless,
}

impl Answer {
    /// What is answered where something was done, or not.
    pub fn of_change(outcome: Result<(), Cause>) -> Answer {
        match outcome {
            Ok(()) => Answer::Done,
            Err(cause) => Answer::Undefined(cause),
        }
    }

    /// What is answered where a value was asked for.
    pub fn of_value(outcome: Result<Val<Sym>, Cause>) -> Answer {
        match outcome {
            Ok(value) => Answer::Value(value),
            Err(cause) => Answer::Undefined(cause),
        }
    }
}
