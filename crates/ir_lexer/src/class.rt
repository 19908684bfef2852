//! Bytes by what they may stand in.
ghost use Rattle.std.specs.Prelude.{◌≡◌};
ghost use Rattle.ir_lexer.specs.Signs.{is_blank, begins_word, begins_name, is_name_byte, is_meta_byte, is_mark};
ghost use Rattle.ir_lexer.specs.Mirrors.Front.{class_of};

/// What the first byte of a token says of it.
#[derive(Clone, Copy, Debug, PartialEq, Eq)]
pub enum Class {
    Letter,
    Number,
    At,
    Percent,
    Hash,
    Bang,
    Quote,
    Mark,
    Other,
}

#[tactic(auto, unfolding(crate::specs::Signs::is_blank))]
pub fn is_blank(b: u8) -> bool
    ensures { result ≡ is_blank b }
{
    b == b' ' || b == b'\t' || b == b'\r' || b == b'\n'
}

#[tactic(auto, unfolding(crate::specs::Signs::begins_word))]
pub fn begins_word(b: u8) -> bool
    ensures { result ≡ begins_word b }
{
    b.is_ascii_alphabetic() || b == b'$' || b == b'.' || b == b'_'
}

#[tactic(auto, unfolding(crate::specs::Signs::begins_name))]
pub fn begins_name(b: u8) -> bool
    ensures { result ≡ begins_name b }
{
    begins_word(b) || b == b'-'
}

#[tactic(auto, unfolding(crate::specs::Signs::is_name_byte))]
pub fn is_name_byte(b: u8) -> bool
    ensures { result ≡ is_name_byte b }
{
    begins_name(b) || b.is_ascii_digit()
}

#[tactic(auto, unfolding(crate::specs::Signs::is_meta_byte))]
pub fn is_meta_byte(b: u8) -> bool
    ensures { result ≡ is_meta_byte b }
{
    is_name_byte(b) || b == b'\\'
}

#[tactic(auto, unfolding(crate::specs::Signs::is_mark))]
fn is_mark(b: u8) -> bool
    ensures { result ≡ is_mark b }
{
    b == b'='
        || b == b','
        || b == b'*'
        || b == b'('
        || b == b')'
        || b == b'['
        || b == b']'
        || b == b'{'
        || b == b'}'
        || b == b'<'
        || b == b'>'
        || b == b'|'
        || b == b'+'
        || b == b':'
        || b == b'^'
}

#[tactic(auto, unfolding(crate::specs::Mirrors::Front::class_of))]
pub fn class_of(b: u8) -> Class
    ensures { result ≡ class_of b }
{
    if begins_word(b) {
        Class::Letter
    } else if b.is_ascii_digit() || b == b'-' {
        Class::Number
    } else if b == b'@' {
        Class::At
    } else if b == b'%' {
        Class::Percent
    } else if b == b'#' {
        Class::Hash
    } else if b == b'!' {
        Class::Bang
    } else if b == b'"' {
        Class::Quote
    } else if is_mark(b) {
        Class::Mark
    } else {
        Class::Other
    }
}
