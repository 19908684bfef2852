//! The tokens of the text of an LLVM module.
#![tactic(auto)]

mod class;
mod front;
mod laws;
mod lexing;
mod text;
mod token;

pub use laws::{
    bad_byte_is_one, kinds_are_apart, tokens_are_one, tokens_or_bad_byte, written_is_read,
};
pub use lexing::lex;
pub use text::{decode, undecoded, unescape};
pub use token::{Kind, LexFault, Token};
