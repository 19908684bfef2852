//! Functions on call cycles of a program.
//!
//! The functions that have bodies are numbered over all modules, and an edge leads from each to those that it calls by name.
//! One search in depth then finds the components of that graph, each of whose functions leads to each other. A function is on
//! a cycle where its component has another, or where it calls itself.
#![tactic(auto)]

mod calls;
mod cycles;
mod functions;
mod graph;
mod mark;
mod search;

pub use cycles::on_cycles;
