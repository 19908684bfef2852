//! Reading a whole file.
ghost use Rattle.std.specs.Prelude.{◌≡◌, ◌≢◌, ◌+◌, ◌<◌, ◌≤◌, ◌^◌, length, vec_len, IfOk, Err};
ghost use Rattle.occam_base.specs.Counts.{Rose};
ghost use Rattle.program_loader.specs.Reading.{WholeOf, PieceOf};

use ir_types::{Bytes, OutOfMemory};
use occam_base::{Failed, Read, Shelf};
use std::alloc::Global;

const PIECE: usize = 65_536;

/// Why a file isn't read.
#[derive(Clone, Copy, Debug, PartialEq, Eq)]
pub enum Stop {
    /// A read failed.
    Failed,
    /// There is no such file.
    Absent,
    /// It has more bytes than the limit.
    TooLarge,
    OutOfMemory,
}

impl From<OutOfMemory> for Stop {
    ghost use Rattle.std.specs.Prelude.{◌≡◌};
    ghost use Rattle.program_loader.specs.declared.reading.Stop.TheVariants as stop;

    ghost from_gives = { λ _ e. e ≡ stop.OutOfMemory };

    fn from(_e: OutOfMemory) -> Stop {
        Stop::OutOfMemory
    }
}

/// The bytes of a file that has at most `limit` of them. It reads no more than one byte past the limit.
pub fn read_whole<S: Shelf>(
    alloc: Global,
    shelf: &mut S,
    name: &str,
    limit: usize,
) -> Result<Bytes, Stop>
    requires { limit < 2 ^ 32 }
    ensures gives { WholeOf (S.files shelf.old) name.now limit result }
    ensures files { S.files shelf.new ≡ S.files shelf.old }
    ensures failed { result ≡ Err Stop.Failed → Rose (S.read_faults shelf.old) (S.read_faults shelf.new) }
    ensures quiet { result ≢ Err Stop.Failed → S.read_faults shelf.new ≡ S.read_faults shelf.old }
    ensures never_falls { S.read_faults shelf.old ≤ S.read_faults shelf.new }
    ensures put_faults { S.put_faults shelf.new ≡ S.put_faults shelf.old }
    ensures small { IfOk result (λ text. length text ≤ limit) }
{
    let mut text = Bytes::new(alloc);
    let mut room = room_of(alloc, PIECE)?;
    while text.len() <= limit {
        let most = (limit + 1 - text.len()).min(PIECE);
        match read_piece(shelf, name, &mut text, &mut room.as_mut_slice()[..most]) {
            Err(stop) => return Err(stop),
            Ok(0) => return Ok(text),
            Ok(_) => {}
        }
    }
    Err(Stop::TooLarge)
}

// Room for a piece of so many bytes.
fn room_of(alloc: Global, len: usize) -> Result<Vec<u8>, OutOfMemory>
    ensures { IfOk result (λ room. vec_len room ≡ len) }
{
    let room = vec![in alloc; 0u8; len]?;
    Ok(room)
}

// Adds the bytes that come after the text, as many as there is room for at most, and says how many those are.
fn read_piece<S: Shelf>(
    shelf: &mut S,
    name: &str,
    text: &mut Bytes,
    room: &mut [u8],
) -> Result<usize, Stop>
    requires { 0 < length room.old }
    ensures gives { PieceOf (S.files shelf.old) name.now text.old text.new result }
    ensures count { IfOk result (λ n. (length text.new ≡ length text.old + n) × (n ≤ length room.old)) }
    ensures files { S.files shelf.new ≡ S.files shelf.old }
    ensures failed { result ≡ Err Stop.Failed → Rose (S.read_faults shelf.old) (S.read_faults shelf.new) }
    ensures quiet { result ≢ Err Stop.Failed → S.read_faults shelf.new ≡ S.read_faults shelf.old }
    ensures never_falls { S.read_faults shelf.old ≤ S.read_faults shelf.new }
    ensures put_faults { S.put_faults shelf.new ≡ S.put_faults shelf.old }
    ensures not_too_large { result ≢ Err Stop.TooLarge }
{
    match shelf.read_at(name, text.len() as u64, room) {
        Err(Failed) => Err(Stop::Failed),
        Ok(Read::Absent) => Err(Stop::Absent),
        Ok(Read::Got(count)) => match text.append(&room[..count]) {
            Ok(()) => Ok(count),
            Err(OutOfMemory) => Err(Stop::OutOfMemory),
        },
    }
}
