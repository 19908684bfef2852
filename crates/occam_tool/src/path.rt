//! Names of files as text.
ghost use Rattle.std.specs.Prelude.{◌≡◌, ◌++◌, ◌∷◌, IsUtf8, IfOk, string_bytes};
ghost use Rattle.occam_tool.specs.Outcome.{output_name};

use ir_types::OutOfMemory;
use std::alloc::Global;
use std::str;

/// The text of bytes that are UTF-8.
pub fn as_text(bytes: &[u8]) -> &str
    requires { IsUtf8 bytes.now }
    ensures { result.now ≡ bytes.now }
{
    match str::from_utf8(bytes) {
        Ok(text) => text,
        Err(_) => unreachable!(),
    }
}

/// `OUTDIR/name`.
pub fn path_of(alloc: Global, outdir: &str, file: &str) -> Result<String, OutOfMemory>
    ensures { IfOk result (λ path. string_bytes path ≡ output_name outdir.now file.now) }
{
    let mut path = String::from_str(alloc, outdir)?;
    path.push_str("/")?;
    path.push_str(file)?;
    Ok(path)
}
