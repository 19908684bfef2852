//! What tokens stand for.
ghost use Rattle.std.specs.Prelude.{◌≡◌, ◌==◌, ◌<◌, ◌≤◌, ◌∷◌, ◌-◌, length, take, drop, IfOk, IfSome, IfNone, if◌then◌else◌, Some, None};
ghost use Rattle.std.specs.List.{list_any};
ghost use Rattle.std.specs.Char.{is_ascii_hexdigit, digit_value};
ghost use Rattle.ir_lexer.specs.Texts.{unescaped, inside, HasBackslash, name_of, stands_for};
ghost use Rattle.ir_lexer.specs.Tokens.{text_of};

use crate::token::{Kind, Token};
use ir_types::{Bytes, OutOfMemory};
use std::alloc::Global;

/// The value of a hexadecimal digit.
fn hex_value(byte: u8) -> Option<u8>
    ensures { result ≡ (if is_ascii_hexdigit byte then Some (digit_value byte) else None) }
{
    match byte {
        b'0'..=b'9' => Some(byte - b'0'),
        b'A'..=b'F' => Some(byte - b'A' + 10),
        b'a'..=b'f' => Some(byte - b'a' + 10),
        _ => None,
    }
}

/// The byte that stands first, and how many bytes spell it.
#[tactic(auto, unfolding(crate::specs::Texts::unescaped))]
fn first_byte(text: &[u8]) -> (u8, usize)
    requires { 0 < length text.now }
    ensures some { 0 < result.1 }
    ensures within { result.1 ≤ length text.now }
    ensures first { unescaped text.now ≡ result.0 ∷ unescaped (drop result.1 text.now) }
{
    match text {
        [b'\\', b'\\', ..] => (b'\\', 2),
        [b'\\', high, low, ..] => match (hex_value(*high), hex_value(*low)) {
            (Some(high), Some(low)) => (16 * high + low, 3),
            _ => (b'\\', 1),
        },
        _ => (text[0], 1),
    }
}

/// The bytes that stand between the quotes of a string, escapes decoded from left to right: `\\` is one
/// backslash, `\xx` with two hexadecimal digits is that byte, and any other backslash is itself.
pub fn unescape(alloc: Global, text: &[u8]) -> Result<Bytes, OutOfMemory>
    ensures { IfOk result (λ bytes. bytes ≡ unescaped text.now) }
{
    let mut bytes = Bytes::new(alloc);
    let mut at = 0;
    while at < text.len() {
        let (byte, len) = first_byte(&text[at..]);
        bytes.push(byte)?;
        at += len;
    }
    Ok(bytes)
}

/// What stands between the quotes of a string, decoded.
fn string_bytes(alloc: Global, text: &[u8]) -> Result<Bytes, OutOfMemory>
    ensures { IfOk result (λ bytes. bytes ≡ unescaped (inside text.now)) }
{
    match text {
        [_, inside @ .., _] => unescape(alloc, inside),
        _ => Ok(Bytes::new(alloc)),
    }
}

/// A name that is written plainly or in quotes.
#[tactic(auto, unfolding(crate::specs::Texts::name_of, crate::specs::Spelled::has))]
fn name_bytes(alloc: Global, text: &[u8]) -> Result<Bytes, OutOfMemory>
    ensures { IfOk result (λ bytes. bytes ≡ name_of text.now) }
{
    if !text.is_empty() && text[0] == b'"' {
        string_bytes(alloc, text)
    } else {
        Bytes::from_slice(alloc, text)
    }
}

fn has_backslash(text: &[u8]) -> bool
    ensures { result ≡ list_any (λ b. b == 92) text.now }
{
    text.iter().any(|byte| *byte == b'\\')
}

/// What stands between the quotes of a string, if there is no backslash in it.
fn plain_string(text: &[u8]) -> Option<&[u8]>
    ensures some { IfSome result (λ part. part.now ≡ unescaped (inside text.now)) }
    ensures none { IfNone result (HasBackslash text.now) }
{
    match text {
        [_, inside @ .., _] => {
            if has_backslash(inside) {
                None
            } else {
                Some(inside)
            }
        }
        _ => Some(&text[..0]),
    }
}

/// A name that is written plainly, or in quotes without a backslash.
#[tactic(auto, unfolding(crate::specs::Texts::name_of, crate::specs::Spelled::has))]
fn plain_name(text: &[u8]) -> Option<&[u8]>
    ensures some { IfSome result (λ part. part.now ≡ name_of text.now) }
    ensures none { IfNone result (HasBackslash text.now) }
{
    if !text.is_empty() && text[0] == b'"' {
        plain_string(text)
    } else {
        Some(text)
    }
}

/// The bytes that a token of a text stands for, as `decode` gives them, where they lie in the text as
/// they are. `None` comes only where there is a backslash in the token's text; then `decode` gives
/// them. Takes no memory.
pub fn undecoded(bytes: &[u8], token: Token) -> Option<&[u8]>
    requires order { token.from ≤ token.to }
    requires within { token.to ≤ length bytes.now }
    ensures some { IfSome result (λ part. part.now ≡ stands_for token.kind (text_of bytes.now token)) }
    ensures none { IfNone result (HasBackslash (text_of bytes.now token)) }
{
    undecoded_text(token.kind, &bytes[token.from..token.to])
}

fn undecoded_text(kind: Kind, text: &[u8]) -> Option<&[u8]>
    ensures some { IfSome result (λ part. part.now ≡ stands_for kind text.now) }
    ensures none { IfNone result (HasBackslash text.now) }
{
    match kind {
        Kind::AtName | Kind::LocalName => plain_name(behind_sign(text)),
        Kind::Label => plain_name(before_colon(text)),
        Kind::Str => plain_string(text),
        Kind::CStr => plain_string(behind_sign(text)),
        Kind::Hash | Kind::Meta | Kind::Word | Kind::Int | Kind::Mark => Some(text),
    }
}

/// The bytes that a token of a text stands for: a name without its sign, its colon and its quotes, a
/// string without its quotes, both with escapes decoded. Any other token stands for its text.
pub fn decode(alloc: Global, bytes: &[u8], token: Token) -> Result<Bytes, OutOfMemory>
    requires order { token.from ≤ token.to }
    requires within { token.to ≤ length bytes.now }
    ensures { IfOk result (λ decoded. decoded ≡ stands_for token.kind (text_of bytes.now token)) }
{
    decode_text(alloc, token.kind, &bytes[token.from..token.to])
}

fn decode_text(alloc: Global, kind: Kind, text: &[u8]) -> Result<Bytes, OutOfMemory>
    ensures { IfOk result (λ decoded. decoded ≡ stands_for kind text.now) }
{
    match kind {
        Kind::AtName | Kind::LocalName => name_bytes(alloc, behind_sign(text)),
        Kind::Label => name_bytes(alloc, before_colon(text)),
        Kind::Str => string_bytes(alloc, text),
        Kind::CStr => string_bytes(alloc, behind_sign(text)),
        Kind::Hash | Kind::Meta | Kind::Word | Kind::Int | Kind::Mark => Bytes::from_slice(
            alloc, text,
        ),
    }
}

fn behind_sign(text: &[u8]) -> &[u8]
    ensures { result.now ≡ drop 1 text.now }
{
    match text {
        [_, name @ ..] => name,
        [] => text,
    }
}

fn before_colon(text: &[u8]) -> &[u8]
    ensures { result.now ≡ take (length text.now - 1) text.now }
{
    match text {
        [name @ .., _] => name,
        [] => text,
    }
}
