//! Why a command gives no answer.
use ir_types::{Bytes, OutOfMemory};
use manifest::Key;
use occam_base::Code;

/// What a refusal's line says after its words.
#[derive(Debug, Drop)]
pub enum Detail {
    Nothing,
    /// A file.
    File(Bytes),
    /// A module, and an offset or the number of an entity in it.
    At(Bytes, u64),
    /// A module and a symbol, as it is written in a module without its sigil.
    Of(Bytes, Bytes),
    /// A symbol, as it is written in a module without its sigil.
    Symbol(Bytes),
    /// A key of the manifest.
    Key(Key),
}

/// Why a command gives no answer.
#[derive(Debug, Drop)]
pub struct Refusal {
    pub code: Code,
    pub detail: Detail,
}

impl From<OutOfMemory> for Refusal {
    ghost use Rattle.std.specs.Prelude.{◌≡◌};
    ghost use Rattle.occam_base.specs.declared.code.Code.TheVariants as code;
    ghost use Rattle.program_loader.specs.declared.refusal.Detail.TheVariants as detail;
    ghost use Rattle.program_loader.specs.Refusing.{refusal};

    ghost from_gives = { λ _ r. r ≡ refusal code.OutOfMemory detail.Nothing };

    fn from(_e: OutOfMemory) -> Refusal {
        Refusal {
            code: Code::OutOfMemory,
            detail: Detail::Nothing,
        }
    }
}
