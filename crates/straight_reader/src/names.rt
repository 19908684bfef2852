//! Names of the form.
ghost use Rattle.std.specs.Prelude.{◌≡◌};
ghost use Rattle.std.specs.List.{list_all};
ghost use Rattle.ir_lexer.specs.Signs.{begins_word, begins_name, is_name_byte};
ghost use Rattle.ir_lexer.specs.Spelled.{headed};
ghost use Rattle.straight_form.specs.Names.{is_plain_name};

/// The most bytes of a name.
const LONGEST: usize = 4096;

#[tactic(auto, unfolding(ir_lexer::specs::Signs::begins_word))]
fn begins_word(b: u8) -> bool
    ensures { result ≡ begins_word b }
{
    b.is_ascii_alphabetic() || b == b'$' || b == b'.' || b == b'_'
}

#[tactic(auto, unfolding(ir_lexer::specs::Signs::begins_name))]
fn begins_name(b: u8) -> bool
    ensures { result ≡ begins_name b }
{
    begins_word(b) || b == b'-'
}

#[tactic(auto, unfolding(ir_lexer::specs::Signs::is_name_byte))]
fn is_name_byte(b: u8) -> bool
    ensures { result ≡ is_name_byte b }
{
    begins_name(b) || b.is_ascii_digit()
}

/// Whether each byte may stand in a name.
fn are_name_bytes(bytes: &[u8]) -> bool
    ensures { result ≡ list_all is_name_byte bytes.now }
{
    bytes.iter().all(|b| is_name_byte(*b))
}

/// Whether the name is one that is written without quotes, and isn't decimal.
fn is_unquoted(name: &[u8]) -> bool
    ensures { result ≡ headed begins_name is_name_byte name.now }
{
    match name {
        [] => false,
        [first, rest @ ..] => begins_name(*first) && are_name_bytes(rest),
    }
}

/// Whether the name is written without quotes, isn't decimal, isn't an intrinsic's, and is short enough.
pub fn is_plain_name(name: &[u8]) -> bool
    ensures { result ≡ is_plain_name name.now }
{
    is_unquoted(name) && name.len() <= LONGEST && !name.starts_with(b"llvm.")
}
