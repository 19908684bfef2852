//! Texts of files, or refusals that name the files.
ghost use Rattle.std.specs.Prelude.{◌≡◌, ◌≤◌, ◌<◌, ◌^◌, length, IsUtf8, IfOk, IfErr};
ghost use Rattle.program_loader.specs.Refusing.{code_of, ReadsAlone, CanRefuse};
ghost use Rattle.program_loader.specs.Steps.{TextOf};

use crate::Refusal;
use crate::reading::read_whole;
use crate::refusing::of_stop;
use ir_types::Bytes;
use occam_base::Shelf;
use std::alloc::Global;
use std::str;

/// The bytes of a file that has at most `limit` of them.
pub fn read_text<S: Shelf>(
    alloc: Global,
    shelf: &mut S,
    name: &[u8],
    limit: usize,
) -> Result<Bytes, Refusal>
    requires utf8 { IsUtf8 name.now }
    requires small { limit < 2 ^ 32 }
    ensures gives { TextOf (S.files shelf.old) limit name.now result }
    ensures codes { IfErr result (λ r. CanRefuse r.code) }
    ensures alone { ReadsAlone (code_of result) (S.files shelf.old) (S.files shelf.new) (S.read_faults shelf.old) (S.read_faults shelf.new) (S.put_faults shelf.old) (S.put_faults shelf.new) }
    ensures small { IfOk result (λ text. length text ≤ limit) }
{
    match read_whole(alloc, shelf, as_text(name), limit) {
        Ok(text) => Ok(text),
        Err(stop) => Err(of_stop(alloc, stop, name)?),
    }
}

// The text of bytes that are UTF-8.
fn as_text(bytes: &[u8]) -> &str
    requires { IsUtf8 bytes.now }
    ensures { result.now ≡ bytes.now }
{
    match str::from_utf8(bytes) {
        Ok(text) => text,
        Err(_) => unreachable!(),
    }
}
