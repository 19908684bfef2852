//! The outside as OCCAM sees it: shelves of files, sources, sinks, gates, and the statuses of the program.
#![tactic(auto)]

mod code;
mod countdown;
mod dir_shelf;
mod entries;
mod fault;
mod gate;
mod mem_shelf;
mod mem_sink;
mod mem_source;
mod shelf;
mod standard;
mod steps;
mod stream;

pub use code::Code;
pub use dir_shelf::DirShelf;
pub use entries::has_distinct_names;
pub use fault::{Failed, Fault};
pub use gate::{Gate, OpenGate};
pub use mem_shelf::{Act, MemShelf};
pub use mem_sink::MemSink;
pub use mem_source::MemSource;
pub use shelf::{Read, Shelf};
pub use standard::{StdSink, StdSource};
pub use steps::Steps;
pub use stream::{Sink, Source};
