//! Tokens, and why a text has none.

/// The kinds of token. No text is of two kinds.
#[derive(Clone, Copy, Debug, PartialEq, Eq)]
pub enum Kind {
    /// `@` and a name, decimal digits, or a quoted string.
    AtName,
    /// `%` and a name, decimal digits, or a quoted string.
    LocalName,
    /// `#` and one or more bytes of names.
    Hash,
    /// `!` and any number of bytes of names and backslashes.
    Meta,
    /// A string in double quotes, which no byte but a quote ends.
    Str,
    /// The same with `c` directly before it.
    CStr,
    /// One or more bytes of names, or a quoted string, and the colon directly after.
    Label,
    /// A letter or one of `$`, `.` and `_`, and then any number of bytes of names.
    Word,
    /// Decimal digits, with or without `-` before them.
    Int,
    /// One of `= , * ( ) [ ] { } < > | + : ^`.
    Mark,
}

/// A token: its kind, and the offsets in bytes where its text begins and ends.
#[derive(Clone, Copy, Debug, PartialEq, Eq)]
pub struct Token {
    pub kind: Kind,
    pub from: usize,
    pub to: usize,
}

/// Why a text has no tokens, or why they were not found.
#[derive(Clone, Copy, Debug, PartialEq, Eq)]
pub enum LexFault {
    /// The least offset from which no token, no blank and no comment goes on.
    BadByte { at: usize },
    /// The allocator refused memory.
    OutOfMemory,
}
