//! What expands rows.
ghost use Rattle.std.specs.Prelude.{◌≡◌, ℕ, List, IfOk};

use crate::Row;
use ir_types::OutOfMemory;
use std::alloc::Global;

/// Expands a row into its piece. The needs and the size of a row's expansion are functions of the row.
pub trait Expand: Sync {
    type Piece: Send + Drop;

    /// The piece is the row's expansion.
    ghost expands: { Self → List ℕ → Self.Piece → Type 0 };

    /// The rows that a piece needs, and its size.
    ghost asked: { Self → Self.Piece → List (List ℕ) };

    ghost weight: { Self → Self.Piece → ℕ };

    /// The rows that a row's expansion needs, and its size, as functions of the row.
    ghost needs_of: { Self → List ℕ → List (List ℕ) };

    ghost size_of: { Self → List ℕ → ℕ };

    /// The expansion of a row.
    fn expand(&self, alloc: Global, row: &Row) -> Result<Self::Piece, OutOfMemory>
        ensures { IfOk result (λ piece. expands self.now row.now piece) };

    /// The rows that a piece needs.
    fn needs<'a>(&self, piece: &'a Self::Piece) -> &'a [Row]
        ensures { result.now ≡ asked self.now piece.now };

    /// The size of a piece.
    fn size(&self, piece: &Self::Piece) -> u64
        ensures { result ≡ weight self.now piece.now };

    ghost needs_law: { (e : Self) (row : List ℕ) (piece : Self.Piece) → expands e row piece → asked e piece ≡ needs_of e row };

    ghost size_law: { (e : Self) (row : List ℕ) (piece : Self.Piece) → expands e row piece → weight e piece ≡ size_of e row };
}
