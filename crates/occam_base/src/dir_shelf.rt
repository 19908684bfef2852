ghost use Rattle.std.specs.Prelude.{◌≡◌, ◌≤◌, ℕ, length, IfOk};
ghost use Rattle.occam_base.specs.declared.shelf.Read.TheVariants as read;

use crate::{Failed, Fault, Read, Shelf};
use ir_types::OutOfMemory;
use std::alloc::Global;
use std::fs;
use std::fs::{OpenFile, OpenOptions};
use std::io::{ErrorKind, Read as ReadBytes, Seek, SeekFrom, Write};
use std::path::Path;
use std::rt::Files;

/// How many short names are tried before a put fails.
const TRIES: u32 = 10_000;

/// The files below the current folder. It tells contracts nothing of what they hold.
#[derive(Drop)]
pub struct DirShelf<'r, R: Files + AllocGlobal> {
    rt: &'r R,
    read_faults: u64,
    put_faults: u64,
}

impl<'r, R: Files + AllocGlobal> DirShelf<'r, R> {
    pub fn new(rt: &'r R) -> DirShelf<'r, R> {
        DirShelf {
            rt,
            read_faults: 0,
            put_faults: 0,
        }
    }
}

impl<'r, R: Files + AllocGlobal> Shelf for DirShelf<'r, R> {
    ghost use Rattle.std.specs.Prelude.{None};

    ghost files = { λ s. None };

    ghost read_faults = { λ s. s.read_faults };

    ghost put_faults = { λ s. s.put_faults };

    fn read_at(&mut self, name: &str, at: u64, buf: &mut [u8]) -> Result<Read, Failed> {
        match read_file(self.rt, name, at, buf) {
            Ok(read) => Ok(read),
            Err(Failed) => {
                self.read_faults = self.read_faults.saturating_add(1);
                Err(Failed)
            }
        }
    }

    /// Makes missing folders on the way. The bytes go to a new file in the same folder first, of a name that no
    /// module has, which then takes the name, so that a crash leaves the old file or the new one, and no other
    /// file is touched.
    fn put(&mut self, name: &str, bytes: &[u8]) -> Result<(), Fault> {
        match put_file(self.rt, name, bytes) {
            Ok(()) => Ok(()),
            Err(Fault::OutOfMemory) => Err(Fault::OutOfMemory),
            Err(Fault::Failed) => {
                self.put_faults = self.put_faults.saturating_add(1);
                Err(Fault::Failed)
            }
        }
    }
}

fn read_file<R: Files>(rt: &R, name: &str, at: u64, buf: &mut [u8]) -> Result<Read, Failed>
    ensures { IfOk result (λ answer. (n : ℕ) → answer ≡ read.Got n → n ≤ length buf.new) }
{
    let mut file = match fs::open(rt, name) {
        Ok(file) => file,
        Err(e) => {
            return if e.kind() == ErrorKind::NotFound {
                Ok(Read::Absent)
            } else {
                Err(Failed)
            };
        }
    };
    if file.seek(SeekFrom::Start(at)).is_err() {
        return Err(Failed);
    }
    match file.read(buf) {
        Ok(count) => Ok(Read::Got(count)),
        Err(_) => Err(Failed),
    }
}

fn put_file<R: Files + AllocGlobal>(rt: &R, name: &str, bytes: &[u8]) -> Result<(), Fault> {
    if let Some(folder) = Path::new(name).parent() {
        if fs::create_dir_all(rt, folder).is_err() {
            return Err(Fault::Failed);
        }
    }
    let Beside { path, mut file } = create_beside(rt, name)?;
    if write_whole(rt, &mut file, bytes) && fs::rename(rt, path.as_str(), name).is_ok() {
        return Ok(());
    }
    let _ = fs::remove_file(rt, path.as_str());
    Err(Fault::Failed)
}

/// A new file in the folder of another one.
struct Beside<F> {
    path: String,
    file: F,
}

// Makes a file in the folder of the named one, which nobody else has: its name is `~` and the least number of which no
// file is there. No module has such a name.
fn create_beside<R: Files + AllocGlobal>(rt: &R, name: &str) -> Result<Beside<R::File>, Fault> {
    let mut options = OpenOptions::new();
    options.write(true).create_new(true);
    for number in 0..TRIES {
        let path = match short_path(rt.alloc(), name, number) {
            Ok(path) => path,
            Err(OutOfMemory) => return Err(Fault::OutOfMemory),
        };
        match options.open(rt, path.as_str()) {
            Ok(file) => return Ok(Beside { path, file }),
            Err(e) => {
                if e.kind() != ErrorKind::AlreadyExists {
                    return Err(Fault::Failed);
                }
            }
        }
    }
    Err(Fault::Failed)
}

// The path of the short name of a number in the folder of the named file.
fn short_path(alloc: Global, name: &str, number: u32) -> Result<String, OutOfMemory> {
    let short = format!(in alloc; "~{number}")?;
    let path = Path::new(name).with_file_name(alloc, short.as_str())?;
    Ok(String::from_str(alloc, path.as_str())?)
}

// Whether the file took all bytes and keeps them.
fn write_whole<R: Files>(_rt: &R, file: &mut R::File, bytes: &[u8]) -> bool {
    file.write_all(bytes).is_ok() && file.sync_all().is_ok()
}
