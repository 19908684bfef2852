ghost use Rattle.std.specs.Prelude.{◌≡◌};
ghost use Rattle.occam_base.specs.Status.{number_of};

/// How the program ended.
#[derive(Clone, Copy, Debug, PartialEq, Eq)]
pub enum Code {
    Done,
    Usage,
    OutOfMemory,
    ReadFault,
    WriteFault,
    PrintFault,
    SourceFault,
    Absent,
    TooLarge,
    NotJson,
    BadManifest,
    BadByte,
    NotInSubset,
    IllTyped,
    NotDefinite,
    TwoDefinitions,
    NoDefinition,
    TypeClash,
    NoEntry,
    EntryShape,
    NoExport,
    ExportShape,
    TooManyDemands,
    TooMuchCode,
    NameClash,
}

impl Code {
    /// The exit status that stands for the code.
    pub fn number(self) -> u8
        ensures { result ≡ number_of self }
    {
        match self {
            Code::Done => 0,
            Code::Usage => 2,
            Code::OutOfMemory => 3,
            Code::ReadFault => 4,
            Code::WriteFault => 5,
            Code::PrintFault => 6,
            Code::SourceFault => 7,
            Code::Absent => 10,
            Code::TooLarge => 11,
            Code::NotJson => 12,
            Code::BadManifest => 13,
            Code::BadByte => 20,
            Code::NotInSubset => 21,
            Code::IllTyped => 22,
            Code::NotDefinite => 23,
            Code::TwoDefinitions => 30,
            Code::NoDefinition => 31,
            Code::TypeClash => 32,
            Code::NoEntry => 40,
            Code::EntryShape => 41,
            Code::NoExport => 42,
            Code::ExportShape => 43,
            Code::TooManyDemands => 50,
            Code::TooMuchCode => 51,
            Code::NameClash => 52,
        }
    }
}
