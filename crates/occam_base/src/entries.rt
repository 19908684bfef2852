//! Files as a list of names with their bytes, as the fakes keep them.
ghost use Rattle.std.specs.Prelude.{◌≡◌, ◌≤◌, ◌<◌, ◌↔◌, length, IsTrue, IfSome};
ghost use Rattle.occam_base.specs.Files.{Fills};
ghost use Rattle.occam_base.specs.Entries.{IsPlaceOf, IsMissing, HasDistinctNames};

use ir_types::Bytes;

/// The place of the first file of this name.
pub fn place_of(files: &[(Bytes, Bytes)], name: &[u8]) -> Option<usize>
    ensures place { IsPlaceOf name.now files.now result }
    ensures within { IfSome result (λ at. at < length files.now) }
{
    for (at, file) in files.iter().enumerate() {
        if file.0.as_slice() == name {
            return Some(at);
        }
    }
    None
}

/// Copies what the file has from the byte `at` on into the front of the buffer, as far as both go.
pub fn fill(file: &[u8], at: u64, buf: &mut [u8]) -> usize
    ensures fills { Fills file.now at buf.old buf.new result }
    ensures within { result ≤ length buf.new }
{
    if at >= file.len() as u64 {
        return 0;
    }
    let rest = &file[at as usize..];
    let count = rest.len().min(buf.len());
    buf[..count].copy_from_slice(&rest[..count]);
    count
}

/// Whether each name stands once.
pub fn has_distinct_names(files: &[(Bytes, Bytes)]) -> bool
    ensures { IsTrue result ↔ HasDistinctNames files.now }
{
    for (at, file) in files.iter().enumerate() {
        match place_of(&files[at + 1..], file.0.as_slice()) {
            Some(_) => return false,
            None => {}
        }
    }
    true
}
