//! Flags and alignments of instructions.
ghost use Rattle.std.specs.Prelude.{◌≡◌, ◌≤◌, length, IfSome};
ghost use Rattle.ir_grammar.specs.Numbers.{number_of, exponent_of};
ghost use Rattle.ir_grammar.specs.Tokens.{seen};
ghost use Rattle.ir_operands.specs.Operands.{with_flag, flags_at, nneg_at, inbounds_at, align_at};
ghost use Rattle.ir_operands.specs.Mirrors.Shaped.{first_flag};

use crate::marks::after;
use ir_grammar::{Digits, Flag, Free, Lexeme, Shape, exponent_of, number_of};
use ir_types::Flags;

/// The flag that stands first.
fn first_flag(kept: &[Lexeme]) -> Option<Flag>
    ensures exact { result ≡ first_flag (seen kept.now) }
    ensures within { IfSome result (λ _. 1 ≤ length kept.now) }
{
    match kept {
        [first, ..] => match first.shape {
            Shape::Free(Free::Flag(flag)) => Some(flag),
            _ => None,
        },
        [] => None,
    }
}

/// The flags, and one more.
fn with_flag(flag: Flag, flags: Flags) -> Flags
    ensures { result ≡ with_flag flag flags }
{
    match flag {
        Flag::Nuw => Flags { nuw: true, ..flags },
        Flag::Nsw => Flags { nsw: true, ..flags },
        Flag::Exact => Flags {
            exact: true,
            ..flags
        },
        Flag::Disjoint => Flags {
            disjoint: true,
            ..flags
        },
        _ => flags,
    }
}

/// The flags in front, and how many they are.
pub fn flags(kept: &[Lexeme]) -> (Flags, usize)
    ensures exact { result ≡ flags_at (seen kept.now) }
    ensures within { result.1 ≤ length kept.now }
{
    let mut flags = Flags {
        nuw: false,
        nsw: false,
        exact: false,
        disjoint: false,
    };
    let mut count = 0;
    'gathering: loop {
        match first_flag(after(kept, count)) {
            Some(flag) => {
                flags = with_flag(flag, flags);
                count += 1;
            }
            None => return (flags, count),
        }
    }
}

/// Whether `nneg` stands in front, and how many lexemes that is.
pub fn nneg(kept: &[Lexeme]) -> (bool, usize)
    ensures exact { result ≡ nneg_at (seen kept.now) }
    ensures within { result.1 ≤ length kept.now }
{
    match kept {
        [first, ..] => match first.shape {
            Shape::Free(Free::Flag(Flag::Nneg)) => (true, 1),
            _ => (false, 0),
        },
        [] => (false, 0),
    }
}

/// Whether `inbounds` stands in front, and how many lexemes that is.
pub fn inbounds(kept: &[Lexeme]) -> (bool, usize)
    ensures exact { result ≡ inbounds_at (seen kept.now) }
    ensures within { result.1 ≤ length kept.now }
{
    match kept {
        [first, ..] => match first.shape {
            Shape::Free(Free::Flag(Flag::Inbounds)) => (true, 1),
            _ => (false, 0),
        },
        [] => (false, 0),
    }
}

/// The exponent of the power of two that stands in front, and how many lexemes that is.
pub fn align(kept: &[Lexeme]) -> (Option<u8>, usize)
    ensures exact { result ≡ align_at (seen kept.now) }
    ensures within { result.1 ≤ length kept.now }
{
    match kept {
        [first, ..] => match first.shape {
            Shape::Int(Digits::Power) => (exponent(first.text), 1),
            _ => (None, 0),
        },
        [] => (None, 0),
    }
}

/// The exponent of the power of two that decimal digits write, where it is at most 32, as in `align n`; `None` where they write another number.
pub fn exponent(digits: &[u8]) -> Option<u8>
    ensures { result ≡ exponent_of (number_of digits.now) }
{
    match number_of(digits) {
        Some(number) => exponent_of(number),
        None => None,
    }
}
