//! The longest token at the front of some bytes.
ghost use Rattle.std.specs.Prelude.{◌≡◌, ◌<◌, ◌≤◌, length, IsTrue, IsFalse};
ghost use Rattle.std.specs.List.{prefix_len};
ghost use Rattle.std.specs.Char.{is_ascii_digit};
ghost use Rattle.ir_lexer.specs.Signs.{is_name_byte, is_meta_byte, is_no_quote, is_no_line_feed};
ghost use Rattle.ir_lexer.specs.Spelled.{has};
ghost use Rattle.ir_lexer.specs.Mirrors.Front.{closing_len, quoted_len, name_len, integer_len, c_string_len, gap_len, is_labelled, quoted, lettered, numbered, front, with_sign, sized};

use crate::class::{Class, begins_name, class_of, is_blank, is_meta_byte, is_name_byte};
use crate::token::Kind;

/// How many bytes at the front may stand in a name.
fn name_run(bytes: &[u8]) -> usize
    ensures exact { result ≡ prefix_len is_name_byte bytes.now }
    ensures within { result ≤ length bytes.now }
{
    bytes.iter().take_while(|b| is_name_byte(**b)).count()
}

/// How many bytes at the front may stand behind `!`.
fn meta_run(bytes: &[u8]) -> usize
    ensures exact { result ≡ prefix_len is_meta_byte bytes.now }
    ensures within { result ≤ length bytes.now }
{
    bytes.iter().take_while(|b| is_meta_byte(**b)).count()
}

/// How many decimal digits stand at the front.
fn digit_run(bytes: &[u8]) -> usize
    ensures exact { result ≡ prefix_len is_ascii_digit bytes.now }
    ensures within { result ≤ length bytes.now }
{
    bytes.iter().take_while(|b| b.is_ascii_digit()).count()
}

/// How many bytes stand before the first quote.
#[tactic(auto, unfolding(crate::specs::Signs::is_no_quote))]
fn text_run(bytes: &[u8]) -> usize
    ensures exact { result ≡ prefix_len is_no_quote bytes.now }
    ensures within { result ≤ length bytes.now }
{
    bytes.iter().take_while(|b| **b != b'"').count()
}

/// How many bytes stand before the first line feed.
#[tactic(auto, unfolding(crate::specs::Signs::is_no_line_feed))]
fn line_run(bytes: &[u8]) -> usize
    ensures exact { result ≡ prefix_len is_no_line_feed bytes.now }
    ensures within { result ≤ length bytes.now }
{
    bytes.iter().take_while(|b| **b != b'\n').count()
}

/// One more than a length, where that isn't 0.
fn with_sign(len: usize) -> usize
    requires { len < usize.MAX }
    ensures { result ≡ with_sign len }
{
    if len == 0 { 0 } else { len + 1 }
}

/// Whether this byte stands at this place.
#[tactic(auto, unfolding(crate::specs::Spelled::has))]
fn has(bytes: &[u8], at: usize, byte: u8) -> bool
    ensures exact { result ≡ has bytes.now at byte }
    ensures within { IsTrue result → at < length bytes.now }
{
    at < bytes.len() && bytes[at] == byte
}

/// How many bytes there are up to the first quote, with it, or 0 where there is none.
#[tactic(auto, unfolding(crate::specs::Mirrors::Front::closing_len))]
fn closing_len(bytes: &[u8]) -> usize
    ensures exact { result ≡ closing_len bytes.now }
    ensures within { result ≤ length bytes.now }
{
    let len = text_run(bytes);
    if len < bytes.len() { len + 1 } else { 0 }
}

/// How long the quoted string at the front is, or 0 where none begins here.
#[tactic(auto, unfolding(crate::specs::Mirrors::Front::quoted_len))]
fn quoted_len(bytes: &[u8]) -> usize
    ensures exact { result ≡ quoted_len bytes.now }
    ensures within { result ≤ length bytes.now }
{
    match bytes {
        [first, more @ ..] => {
            if *first == b'"' {
                with_sign(closing_len(more))
            } else {
                0
            }
        }
        [] => 0,
    }
}

/// How long the name at the front is, or 0 where none begins here.
#[tactic(auto, unfolding(crate::specs::Mirrors::Front::name_len))]
fn name_len(bytes: &[u8]) -> usize
    ensures exact { result ≡ name_len bytes.now }
    ensures within { result ≤ length bytes.now }
{
    match bytes {
        [first, more @ ..] => {
            if *first == b'"' {
                with_sign(closing_len(more))
            } else if begins_name(*first) {
                name_run(bytes)
            } else {
                digit_run(bytes)
            }
        }
        [] => 0,
    }
}

/// How long the integer at the front is, or 0 where none begins here.
#[tactic(auto, unfolding(crate::specs::Mirrors::Front::integer_len))]
fn integer_len(bytes: &[u8]) -> usize
    ensures exact { result ≡ integer_len bytes.now }
    ensures within { result ≤ length bytes.now }
{
    match bytes {
        [first, more @ ..] => {
            if *first == b'-' {
                with_sign(digit_run(more))
            } else {
                digit_run(bytes)
            }
        }
        [] => 0,
    }
}

/// How long the string with `c` before it is, or 0 where none begins here.
#[tactic(auto, unfolding(crate::specs::Mirrors::Front::c_string_len))]
fn c_string_len(bytes: &[u8]) -> usize
    ensures exact { result ≡ c_string_len bytes.now }
    ensures within { result ≤ length bytes.now }
{
    match bytes {
        [first, more @ ..] => {
            if *first == b'c' {
                with_sign(quoted_len(more))
            } else {
                0
            }
        }
        [] => 0,
    }
}

/// How long the blank or the comment at the front is, or 0 where neither begins here.
#[tactic(auto, unfolding(crate::specs::Mirrors::Front::gap_len))]
pub fn gap_len(bytes: &[u8]) -> usize
    ensures exact { result ≡ gap_len bytes.now }
    ensures within { result ≤ length bytes.now }
{
    match bytes {
        [first, more @ ..] => {
            if is_blank(*first) {
                1
            } else if *first == b';' {
                line_run(more) + 1
            } else {
                0
            }
        }
        [] => 0,
    }
}

/// A token of this length, or none at 0.
fn sized(kind: Kind, len: usize) -> Option<(Kind, usize)>
    ensures { result ≡ sized kind len }
{
    if len == 0 { None } else { Some((kind, len)) }
}

/// A string, or a label that is one.
#[tactic(auto, unfolding(crate::specs::Mirrors::Front::quoted))]
fn quoted(rest: &[u8]) -> Option<(Kind, usize)>
    ensures { result ≡ quoted rest.now }
{
    let len = quoted_len(rest);
    if len == 0 {
        None
    } else if has(rest, len, b':') {
        Some((Kind::Label, len + 1))
    } else {
        Some((Kind::Str, len))
    }
}

/// A label, a word, or a string with `c` before it.
#[tactic(auto, unfolding(crate::specs::Mirrors::Front::lettered, crate::specs::Mirrors::Front::is_labelled))]
fn lettered(rest: &[u8]) -> Option<(Kind, usize)>
    ensures { result ≡ lettered rest.now }
{
    let run = name_run(rest);
    if has(rest, run, b':') {
        return Some((Kind::Label, run + 1));
    }
    let c_string = c_string_len(rest);
    if c_string == 0 {
        Some((Kind::Word, run))
    } else {
        Some((Kind::CStr, c_string))
    }
}

/// A label or an integer. Inside a run of bytes of names that is known to have no colon behind it no
/// label is looked for, so that a run is gone over once, however many integers it holds.
#[tactic(auto, unfolding(crate::specs::Mirrors::Front::numbered, crate::specs::Mirrors::Front::is_labelled))]
fn numbered(rest: &[u8], inside: bool) -> Option<(Kind, usize)>
    requires { IsTrue inside → IsFalse (is_labelled rest.now) }
    ensures { result ≡ numbered rest.now }
{
    if !inside {
        let run = name_run(rest);
        if has(rest, run, b':') {
            return Some((Kind::Label, run + 1));
        }
    }
    sized(Kind::Int, integer_len(rest))
}

/// The longest token at the front, with its kind and its length. `inside` says that no label of bytes of
/// names begins here.
pub fn front(rest: &[u8], inside: bool) -> Option<(Kind, usize)>
    requires { IsTrue inside → IsFalse (is_labelled rest.now) }
    ensures exact { result ≡ front rest.now }
{
    let (first, more) = match rest {
        [first, more @ ..] => (*first, more),
        [] => return None,
    };
    match class_of(first) {
        Class::At => sized(Kind::AtName, with_sign(name_len(more))),
        Class::Percent => sized(Kind::LocalName, with_sign(name_len(more))),
        Class::Hash => sized(Kind::Hash, with_sign(name_run(more))),
        Class::Bang => Some((Kind::Meta, meta_run(more) + 1)),
        Class::Quote => quoted(rest),
        Class::Letter => lettered(rest),
        Class::Number => numbered(rest, inside),
        Class::Mark => Some((Kind::Mark, 1)),
        Class::Other => None,
    }
}
