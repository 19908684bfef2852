//! Names and strings, in quotes where they can't stand without.
ghost use Rattle.std.specs.Prelude.{◌≡◌, ◌<◌, ◌∷◌, [], ◌++◌, OnOk, flat_map};
ghost use Rattle.std.specs.List.{list_all};
ghost use Rattle.ir_lexer.specs.Signs.{begins_name, is_name_byte};
ghost use Rattle.ir_writer.specs.Names.{hex_digit, stands_itself, escaped, quoted, is_unquoted, name_text};

use ir_types::{Bytes, OutOfMemory};

#[tactic(auto, unfolding(ir_lexer::specs::Signs::begins_name, ir_lexer::specs::Signs::begins_word))]
fn begins_name(byte: u8) -> bool
    ensures { result ≡ begins_name byte }
{
    byte.is_ascii_alphabetic() || byte == b'$' || byte == b'.' || byte == b'_' || byte == b'-'
}

#[tactic(auto, unfolding(ir_lexer::specs::Signs::is_name_byte))]
fn is_name_byte(byte: u8) -> bool
    ensures { result ≡ is_name_byte byte }
{
    begins_name(byte) || byte.is_ascii_digit()
}

fn are_name_bytes(bytes: &[u8]) -> bool
    ensures { result ≡ list_all is_name_byte bytes.now }
{
    bytes.iter().all(|byte| is_name_byte(*byte))
}

/// Whether a name may stand without quotes.
fn is_unquoted(name: &[u8]) -> bool
    ensures { result ≡ is_unquoted name.now }
{
    match name {
        [first, rest @ ..] => begins_name(*first) && are_name_bytes(rest),
        [] => false,
    }
}

/// Whether a byte stands for itself between quotes.
fn stands_itself(byte: u8) -> bool
    ensures { result ≡ stands_itself byte }
{
    b' ' <= byte && byte <= b'~' && byte != b'"' && byte != b'\\'
}

/// The upper case hexadecimal digit of a number.
fn hex_digit(number: u8) -> u8
    requires { number < 16 }
    ensures { result ≡ hex_digit number }
{
    if number < 10 {
        b'0' + number
    } else {
        b'A' + (number - 10)
    }
}

/// Adds a byte between quotes, as itself or as a backslash and two digits.
fn write_escaped(out: &mut Bytes, byte: u8) -> Result<(), OutOfMemory>
    ensures { OnOk result (out.new ≡ out.old ++ escaped byte) }
{
    if stands_itself(byte) {
        return out.push(byte);
    }
    out.append(&[b'\\', hex_digit(byte / 16), hex_digit(byte % 16)])
}

fn write_all_escaped(out: &mut Bytes, bytes: &[u8]) -> Result<(), OutOfMemory>
    ensures { OnOk result (out.new ≡ out.old ++ flat_map escaped bytes.now) }
{
    for byte in bytes {
        write_escaped(out, *byte)?;
    }
    Ok(())
}

/// Adds bytes in quotes.
pub fn write_quoted(out: &mut Bytes, bytes: &[u8]) -> Result<(), OutOfMemory>
    ensures { OnOk result (out.new ≡ out.old ++ quoted bytes.now) }
{
    out.append(b"\"")?;
    write_all_escaped(out, bytes)?;
    out.append(b"\"")
}

/// Adds a name, in quotes where it can't stand without.
pub fn write_name(out: &mut Bytes, name: &[u8]) -> Result<(), OutOfMemory>
    ensures { OnOk result (out.new ≡ out.old ++ name_text name.now) }
{
    if is_unquoted(name) {
        return out.append(name);
    }
    write_quoted(out, name)
}
