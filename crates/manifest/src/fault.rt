//! What a manifest says, and how a text fails to be one.
ghost use Rattle.std.specs.Prelude.{◌≡◌};
ghost use Rattle.manifest.specs.Manifest.{key_word};

use ir_types::{Bytes, OutOfMemory};
use sqlite_items::Items as List;
use std::fmt;

/// What a manifest says.
#[derive(Debug, Drop)]
pub struct Manifest {
    /// The names of the modules, 1 to 256 that differ, in the order of the text.
    pub modules: List<Bytes>,
    /// The name of the function that is entered.
    pub entry: Bytes,
    /// What it is entered with, at most 32: `None` is not known, and a number is from -2^63 to
    /// 2^64 - 1.
    pub args: List<Option<i128>>,
    /// The names of the functions that the outside may call besides, in the order of the text.
    pub exports: List<Bytes>,
    /// The names of the functions that the outside gives, in the order of the text.
    pub outside: List<Bytes>,
}

/// The rules of a manifest, in the order in which they are tested.
#[derive(Clone, Copy, Debug, PartialEq, Eq)]
pub enum Key {
    /// The value is an object.
    Whole,
    /// `version` is the integer 1.
    Version,
    /// `modules` is a list of 1 to 256 distinct names. Each has 1 to 255 bytes of `[A-Za-z0-9._/-]`,
    /// and no part between its slashes is empty, `.` or `..`.
    Modules,
    /// `entry` is an object with just a `name`, of 1 to 4,096 bytes without a zero byte, and `args`, a
    /// list of at most 32, each `null` or an integer from -2^63 to 2^64 - 1.
    Entry,
    /// `exports` is missing, or a list of distinct names like that of the entry.
    Exports,
    /// `outside` is missing, or a list of distinct names like that of the entry.
    Outside,
    /// There is no other key.
    Other,
}

/// Why a text is no manifest.
#[derive(Clone, Copy, Debug, PartialEq, Eq)]
pub enum ManifestFault {
    /// The text is not UTF-8, or no JSON value.
    NotJson,
    /// The text has a value that breaks the rule of this key, and of none before it.
    BadManifest { key: Key },
    /// The allocator refused memory.
    OutOfMemory,
}

/// The word of a key, in lower case, as a refusal prints it.
pub fn key_name(key: Key) -> &'static str
    ensures { result.now ≡ key_word key }
{
    match key {
        Key::Whole => "whole",
        Key::Version => "version",
        Key::Modules => "modules",
        Key::Entry => "entry",
        Key::Exports => "exports",
        Key::Outside => "outside",
        Key::Other => "other",
    }
}

impl From<OutOfMemory> for ManifestFault {
    ghost use Rattle.std.specs.Prelude.{◌≡◌};
    ghost use Rattle.manifest.specs.declared.fault.ManifestFault.TheVariants.{OutOfMemory};

    ghost from_gives = { λ _ fault. fault ≡ OutOfMemory };

    fn from(_fault: OutOfMemory) -> ManifestFault {
        ManifestFault::OutOfMemory
    }
}

impl fmt::Display for Key {
    fn fmt<W: fmt::Write>(&self, f: &mut fmt::Formatter<W>) -> fmt::Result {
        f.write_str(key_name(*self))
    }
}

impl fmt::Display for ManifestFault {
    fn fmt<W: fmt::Write>(&self, f: &mut fmt::Formatter<W>) -> fmt::Result {
        match self {
            ManifestFault::NotJson => f.write_str("not JSON"),
            ManifestFault::BadManifest { key } => write!(f, "bad manifest: {key}"),
            ManifestFault::OutOfMemory => f.write_str("out of memory"),
        }
    }
}

impl std::error::Error for ManifestFault {}
