//! Names of symbols, values and types (LLVM Language Reference Manual, "Identifiers").
ghost use Rattle.std.specs.Prelude.{◌≡◌, ◌==◌, ◌↔◌, not, IsTrue};
ghost use Rattle.std.specs.List.{list_all};
ghost use Rattle.ir_types.specs.Names.{IsName, is_name};

/// The most bytes of a name.
const LONGEST: usize = 4096;

fn has_no_zero(bytes: &[u8]) -> bool
    ensures { result ≡ list_all (λ byte. not (byte == 0)) bytes.now }
{
    bytes.iter().all(|byte| *byte != 0)
}

/// Whether the bytes may be a name: 1 to 4,096 bytes, none of them zero.
pub fn is_name(bytes: &[u8]) -> bool
    ensures value { result ≡ is_name bytes.now }
    ensures names { IsTrue result ↔ IsName bytes.now }
{
    !bytes.is_empty() && bytes.len() <= LONGEST && has_no_zero(bytes)
}
