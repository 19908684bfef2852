//! The grammar of the text of modules: what tokens spell, and which of them are kept.
#![tactic(auto)]

mod attributes;
mod blocks;
mod calls;
mod constants;
mod entities;
mod grammar;
mod items;
mod laws;
mod lexeme;
mod numbers;
mod rules;
mod shape;
mod shapes;
mod stack;
mod tables;
mod terminals;
mod types;
mod values;
mod walking;
mod words;

pub use grammar::{FlagPart, Flags, Item, Keep, Name, Terminal};
pub use laws::{entity_takes_one, one_derivation, walk_takes_what_is_derived};
pub use lexeme::Lexeme;
pub use numbers::{exponent_of, number_of};
pub use shape::{AtName, Digits, Flag, Free, Shape, Value};
pub use walking::read_nonterminal;
