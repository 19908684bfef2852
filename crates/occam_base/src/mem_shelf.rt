ghost use Rattle.std.specs.Prelude.{◌≡◌, ◌≢◌, ◌≤◌, ◌↔◌, ℕ, Some, length, IfOk, OnOk, OnErr, IsErr, IsTrue};
ghost use Rattle.std.specs.FinMap as map;
ghost use Rattle.occam_base.specs.Counts.{Rose};
ghost use Rattle.occam_base.specs.Entries.{HasDistinctNames, map_of};
ghost use Rattle.occam_base.specs.Failing.{FailsNowAt};
ghost use Rattle.occam_base.specs.Files.{ReadOf, PutOf};
ghost use Rattle.occam_base.specs.declared.shelf.Read.TheVariants as read;

use crate::entries::{fill, place_of};
use crate::{Failed, Fault, Read, Shelf};
use ir_types::{Bytes, OutOfMemory};
use sqlite_items::Items as List;
use std::alloc::Global;

/// A kind of call of a shelf.
#[derive(Clone, Copy, Debug, PartialEq, Eq)]
pub enum Act {
    ReadAt,
    Put,
}

/// A shelf in memory that fails the calls it is told to.
#[derive(Debug, Drop)]
pub struct MemShelf {
    alloc: Global,
    files: List<(Bytes, Bytes)>,
    fail: List<(Act, Bytes, u64)>,
    read_faults: u64,
    put_faults: u64,
}

impl MemShelf {
    /// A shelf of these files. The call that is named by its kind, its file and its number, counted from 1 for
    /// each kind and file, fails. `has_distinct_names` tests the condition.
    pub fn new(
        alloc: Global,
        files: List<(Bytes, Bytes)>,
        fail: List<(Act, Bytes, u64)>,
    ) -> MemShelf
        requires { HasDistinctNames files }
        ensures files { result.files ≡ files }
        ensures fail { result.fail ≡ fail }
    {
        MemShelf {
            alloc,
            files,
            fail,
            read_faults: 0,
            put_faults: 0,
        }
    }

    /// The files as they are now.
    pub fn files(&self) -> &[(Bytes, Bytes)]
        ensures { result.now ≡ self.now.files }
    {
        self.files.as_slice()
    }
}

impl Shelf for MemShelf {
    ghost files = { λ s. Some (map_of s.files) };

    ghost read_faults = { λ s. s.read_faults };

    ghost put_faults = { λ s. s.put_faults };

    /// The contract of shelves, and which call fails.
    fn read_at(&mut self, name: &str, at: u64, buf: &mut [u8]) -> Result<Read, Failed>
        ensures within { IfOk result (λ answer. (n : ℕ) → answer ≡ read.Got n → n ≤ length buf.new) }
        ensures gives { IfOk result (λ answer. ReadOf (Some (map_of self.old.files)) name.now at buf.old buf.new answer) }
        ensures unchanged { Some (map_of self.new.files) ≡ Some (map_of self.old.files) }
        ensures failed { OnErr result (Rose self.old.read_faults self.new.read_faults) }
        ensures quiet { OnOk result (self.new.read_faults ≡ self.old.read_faults) }
        ensures never_falls { self.old.read_faults ≤ self.new.read_faults }
        ensures put_faults_stay { self.new.put_faults ≡ self.old.put_faults }
        ensures fails { IsErr result ↔ FailsNowAt self.old.fail Act.ReadAt name.now }
    {
        if is_failing(&mut self.fail, Act::ReadAt, name.as_bytes()) {
            self.read_faults = self.read_faults.saturating_add(1);
            return Err(Failed);
        }
        let files = self.files.as_slice();
        match place_of(files, name.as_bytes()) {
            None => Ok(Read::Absent),
            Some(place) => {
                let count = fill(files[place].1.as_slice(), at, buf);
                Ok(Read::Got(count))
            }
        }
    }

    /// The contract of shelves, and which call fails.
    fn put(&mut self, name: &str, bytes: &[u8]) -> Result<(), Fault>
        ensures leaves { PutOf (Some (map_of self.old.files)) (Some (map_of self.new.files)) name.now bytes.now result }
        ensures failed { result ≡ Err Fault.Failed → Rose self.old.put_faults self.new.put_faults }
        ensures quiet { result ≢ Err Fault.Failed → self.new.put_faults ≡ self.old.put_faults }
        ensures never_falls { self.old.put_faults ≤ self.new.put_faults }
        ensures read_faults_stay { self.new.read_faults ≡ self.old.read_faults }
        ensures fails { (result ≡ Err Fault.Failed) ↔ FailsNowAt self.old.fail Act.Put name.now }
    {
        if is_failing(&mut self.fail, Act::Put, name.as_bytes()) {
            self.put_faults = self.put_faults.saturating_add(1);
            return Err(Fault::Failed);
        }
        match put_entry(self.alloc, &mut self.files, name.as_bytes(), bytes) {
            Ok(()) => Ok(()),
            Err(OutOfMemory) => Err(Fault::OutOfMemory),
        }
    }
}

// Puts the bytes in the place of the first file of the name, or a file of that name at the end.
fn put_entry(
    alloc: Global,
    files: &mut List<(Bytes, Bytes)>,
    name: &[u8],
    bytes: &[u8],
) -> Result<(), OutOfMemory>
    ensures ok { OnOk result (map_of files.new ≡ map.insert (map_of files.old) name.now bytes.now) }
    ensures err { OnErr result (files.new ≡ files.old) }
{
    let entry = (
        Bytes::from_slice(alloc, name)?,
        Bytes::from_slice(alloc, bytes)?,
    );
    match place_of(files.as_slice(), name) {
        Some(place) => {
            files.set(place, entry);
            Ok(())
        }
        None => {
            files.push(entry)?;
            Ok(())
        }
    }
}

// Counts this call down where it is listed, and says whether it is one that fails.
fn is_failing(fail: &mut List<(Act, Bytes, u64)>, act: Act, name: &[u8]) -> bool
    ensures { IsTrue result ↔ FailsNowAt fail.old act name.now }
{
    let fails = has_first(fail.as_slice(), act, name);
    count_down(fail, act, name);
    fails
}

// Whether the first call of this kind and file that comes is listed.
fn has_first(fail: &[(Act, Bytes, u64)], act: Act, name: &[u8]) -> bool
    ensures { IsTrue result ↔ FailsNowAt fail.now act name.now }
{
    fail.iter().any(|entry| is_next(entry, act, name))
}

// Whether the entry names the next call of this kind and file.
fn is_next(entry: &(Act, Bytes, u64), act: Act, name: &[u8]) -> bool
    ensures { IsTrue result ↔ (entry.now ≡ (act, name.now, 1)) }
{
    entry.0 == act && entry.1.as_slice() == name && entry.2 == 1
}

// Lowers the numbers of this kind and file by one.
fn count_down(fail: &mut List<(Act, Bytes, u64)>, act: Act, name: &[u8]) {
    for _ in 0..fail.len() {
        if fail.is_empty() {
            return;
        }
        let (of, file, number) = fail.remove(0);
        let counts = of == act && file.as_slice() == name;
        let number = if counts {
            number.saturating_sub(1)
        } else {
            number
        };
        // The room of the entry that was taken out is there.
        let _ = fail.push((of, file, number));
    }
}
