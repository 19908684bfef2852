//! `check`: whether a program loads, and its counts.
ghost use Rattle.std.specs.Prelude.{◌≡◌, false, IsUtf8, IfSome, IfErr};
ghost use Rattle.program_loader.specs.Refusing.{code_of, ReadsAlone, CanRefuse};
ghost use Rattle.program_loader.specs.Loading.{IsUnread};
ghost use Rattle.occam_tool.specs.Lines.{answer_code};
ghost use Rattle.occam_tool.specs.Outcome.{is_free};
ghost use Rattle.occam_tool.specs.Checkings.{Checks};

use crate::Checked;
use crate::tally::counts_of;
use ir_types::Bytes;
use occam_base::{Code, Shelf};
use program_loader::{Refusal, load};
use std::alloc::Global;
use std::thread::Threads;

/// Reads the manifest and all its modules, checks and links them, and counts what they define. No file changes.
///
/// The refusals are those of `program_loader::load`, in its order.
pub fn check<R: Threads + Sync, S: Shelf>(
    _rt: &R,
    alloc: Global,
    manifest: &Bytes,
    shelf: &mut S,
) -> Result<Checked, Refusal>
    requires manifest { IsUtf8 manifest.now }

    // Where the shelf tells its files, the answer is that of the definition.
    ensures answer { is_free (answer_code result) ≡ false → IfSome (S.files shelf.old) (λ files. Checks files manifest.now result) }
    ensures codes { IfErr result (λ r. CanRefuse r.code) }
    // A fault of reading names the file, before which all are held and within their limits.
    ensures unread { IfErr result (λ r. r.code ≡ Code.ReadFault → IfSome (S.files shelf.old) (λ files. IsUnread files manifest.now r)) }
    ensures alone { ReadsAlone (code_of result) (S.files shelf.old) (S.files shelf.new) (S.read_faults shelf.old) (S.read_faults shelf.new) (S.put_faults shelf.old) (S.put_faults shelf.new) }
{
    match load(alloc, manifest.as_slice(), shelf) {
        Ok(loaded) => Ok(counts_of(loaded.program.modules())),
        Err(refusal) => Err(refusal),
    }
}
