//! Whole texts.
#![tactic(auto, using(crate::proofs::Bytes::written))]

ghost use Rattle.std.specs.Prelude.{◌≡◌, IfOk};
ghost use Rattle.ir_syntax.specs.Formed.{Formed};
ghost use Rattle.ir_writer.specs.Names.{name_text};
ghost use Rattle.ir_writer.specs.Modules.{module_text};

use crate::items::{write_items, write_target};
use crate::names;
use ir_syntax::Module;
use ir_types::{Bytes, OutOfMemory};
use std::alloc::Global;

/// The canonical text of a module of the subset of LLVM's textual IR, by the LLVM Language Reference Manual.
///
/// First come the lines `target datalayout` and `target triple`, where the module has them, and then the items in their
/// order. A variable or a declaration is one line. A definition is a line for its head, which ends in a brace, one for each
/// label, and one for each phi, instruction and terminator behind two blanks, and a line for the closing brace. There are
/// no comments, no metadata, and no attributes other than `signext` and `zeroext`.
///
/// Parameters are named `%a0`, `%a1`, results `%v0`, `%v1` and blocks `b0`, `b1`, each in the order of the text. The name
/// of an item stands in quotes where it can't stand without. Between quotes a byte from the blank to the tilde, other than
/// a quote and a backslash, stands for itself, and any other is a backslash and two upper case hexadecimal digits. An
/// integer is a signed decimal at its type, and `true` or `false` at `i1`. A type is written whole where it is used, and an
/// alignment as a number of bytes. A variable without a value is `external`; the linkage of any other and of a definition
/// is written unless every module sees it. A call has the whole type of its function exactly where more arguments may
/// follow or the arguments' types aren't those of the parameters, and an `alloca` has a count exactly where it isn't 1.
///
/// `OutOfMemory` comes where the allocator refuses memory. The time grows with the length of the text.
pub fn write_module(alloc: Global, m: &Module) -> Result<Bytes, OutOfMemory>
    requires formed { Formed m.now }
    ensures text { IfOk result (λ text. text ≡ module_text m.now) }
{
    let mut text = Bytes::new(alloc);
    write_target(&mut text, b"datalayout", &m.layout)?;
    write_target(&mut text, b"triple", &m.triple)?;
    write_items(&mut text, m.items.as_slice())?;
    Ok(text)
}

/// The name of an item as the canonical text has it behind `@`: without quotes where it may stand so, which is where it
/// begins with a letter or one of `$`, `.`, `_` and `-` and goes on with these and digits, and else in quotes.
///
/// `OutOfMemory` comes where the allocator refuses memory. The time grows with the length of the text.
pub fn write_name(alloc: Global, name: &[u8]) -> Result<Bytes, OutOfMemory>
    ensures { IfOk result (λ text. text ≡ name_text name.now) }
{
    let mut text = Bytes::new(alloc);
    names::write_name(&mut text, name)?;
    Ok(text)
}
