//! The steps of one seat. Each is a single atomic step on a word of the table, and takes no lock.
ghost use Rattle.std.specs.Prelude.{◌≡◌, ◌<◌, ◌+◌, [], ℕ, List, Option, length};
ghost use Rattle.table_rule.specs.Layout.{Has, slots, word_of, probe};
ghost use Rattle.table_rule.specs.Tells.{
  Fits,
  IsRow,
  CanRead,
  KnowsSlot,
  Clear,
  IsReady,
  IsSane,
  HasDrawn,
  HasLooked,
  HasReadHead,
  HasReadClaim,
  HasPublished,
  HasClaimed,
};
ghost use Rattle.table_rule.specs.Views.{writes, knows};

use crate::law::{
    Board, Draws, Looks, Place, Publishes, Reads, ReadsClaim, ReadsHead, Recalls, Stores, Takes,
};

/// HasDrawn a number, which is open from then on, for a seat that holds no row.
pub fn draw(board: &Board, seat: &mut Place) -> u64
    requires fits { Fits seat.old.table_id board.now.shared.table_id board.now.shared.key }
    requires free { (0 < length seat.old.me.0.workers) × (seat.old.me.0.held ≡ []) }
    ensures same { (seat.new.table_id ≡ seat.old.table_id) × (seat.new.me.1 ≡ seat.old.me.1) }
    ensures number { HasDrawn seat.old.me.0 result seat.new.me.0 }
{
    board.shared.fetch_add::<Draws>(seat, 0, 1)
}

/// Writes a word, but not the claim, of a row that the seat holds.
pub fn store(board: &Board, seat: &mut Place, row: u64, word: usize, value: u64)
    requires fits { Fits seat.old.table_id board.now.shared.table_id board.now.shared.key }
    requires row { IsRow row board.now.shared.key × ((k : ℕ) × (ws : List ℕ) × Has seat.old.me.0.held (k, (row, ws))) }
    requires word { word < 36 }
    ensures same { (seat.new.table_id ≡ seat.old.table_id) × (seat.new.me.1 ≡ seat.old.me.1) }
    ensures stored { seat.new.me.0 ≡ writes seat.old.me.0 row word value }
{
    board
        .shared
        .store::<Stores>(seat, 37 * row as usize + word + 131073, value)
}

/// HasLooked at a slot: 0 where it is empty, else the number of the row that it names, plus 1.
pub fn look(board: &Board, seat: &mut Place, slot: usize) -> u64
    requires fits { Fits seat.old.table_id board.now.shared.table_id board.now.shared.key }
    requires live { 0 < length seat.old.me.0.workers }
    requires slot { slot < slots }
    ensures same { (seat.new.table_id ≡ seat.old.table_id) × (seat.new.me.1 ≡ seat.old.me.1) }
    ensures found { HasLooked (slot + 1) seat.old.me.0 result seat.new.me.0 }
{
    board.shared.load::<Looks>(seat, slot + 1)
}

/// Reads a word, but not the claim, of a published row.
pub fn read_word(board: &Board, seat: &mut Place, row: u64, word: usize) -> u64
    requires fits { Fits seat.old.table_id board.now.shared.table_id board.now.shared.key }
    requires row { IsRow row board.now.shared.key × CanRead seat.old.me.0 row }
    requires word { word < 36 }
    ensures same { (seat.new.table_id ≡ seat.old.table_id) × (seat.new.me.1 ≡ seat.old.me.1) }
    ensures found { seat.new.me.0 ≡ knows seat.old.me.0 (word_of row word) result }
{
    board
        .shared
        .load::<Reads>(seat, 37 * row as usize + word + 131073)
}

/// Reads the head of a published row.
pub fn read_head(board: &Board, seat: &mut Place, row: u64) -> u64
    requires fits { Fits seat.old.table_id board.now.shared.table_id board.now.shared.key }
    requires live { 0 < length seat.old.me.0.workers }
    requires row { IsRow row board.now.shared.key × CanRead seat.old.me.0 row }
    ensures same { (seat.new.table_id ≡ seat.old.table_id) × (seat.new.me.1 ≡ seat.old.me.1) }
    ensures found { HasReadHead (word_of row 0) seat.old.me.0 result seat.new.me.0 }
{
    board
        .shared
        .load::<ReadsHead>(seat, 37 * row as usize + 131073)
}

/// Reads the claim of a row that the seat claimed.
pub fn read_claim(board: &Board, seat: &mut Place, row: u64) -> u64
    requires fits { Fits seat.old.table_id board.now.shared.table_id board.now.shared.key }
    requires row { IsRow row board.now.shared.key × ((k : ℕ) × Has seat.old.me.0.claims (row, k)) }
    ensures same { (seat.new.table_id ≡ seat.old.table_id) × (seat.new.me.1 ≡ seat.old.me.1) }
    ensures found { HasReadClaim (word_of row 36) seat.old.me.0 result seat.new.me.0 }
{
    board
        .shared
        .load::<ReadsClaim>(seat, 37 * row as usize + 131109)
}

/// Puts a row that the seat holds into a slot of its chain. The answer is 0, or else what the slot names, plus 1.
pub fn publish(board: &Board, seat: &mut Place, row: u64, slot: usize) -> u64
    requires fits { Fits seat.old.table_id board.now.shared.table_id board.now.shared.key }
    requires live { 0 < length seat.old.me.0.workers }
    requires row { IsRow row board.now.shared.key }
    requires ready { (k : ℕ) × (ws : List ℕ) × (words : List ℕ) × (i : ℕ) × (m : ℕ) × (parent : Option ℕ) × Has seat.old.me.0.held (k, (row, ws))
        × IsReady seat.old.me.0 ws words m parent × (slot + 1 ≡ probe words i) × Clear seat.old.me.0 words i }
    ensures same { (seat.new.table_id ≡ seat.old.table_id) × (seat.new.me.1 ≡ seat.old.me.1) }
    ensures found { (k m : ℕ) (parent : Option ℕ) (ws words : List ℕ) → Has seat.old.me.0.held (k, (row, ws)) → IsReady seat.old.me.0 ws words m parent
        → HasPublished (slot + 1) row m parent seat.old.me.0 result seat.new.me.0 }
{
    board
        .shared
        .compare_exchange::<Publishes>(seat, slot + 1, 0, row + 1)
}

/// Claims a published row for a worker of the seat. The answer is 0, or else the worker that had claimed it, plus 1.
pub fn claim(board: &Board, seat: &mut Place, row: u64, worker: u64) -> u64
    requires fits { Fits seat.old.table_id board.now.shared.table_id board.now.shared.key }
    requires worker { Has seat.old.me.0.workers worker × (worker < 64) }
    requires row { IsRow row board.now.shared.key × KnowsSlot seat.old.me.0 row }
    ensures same { (seat.new.table_id ≡ seat.old.table_id) × (seat.new.me.1 ≡ seat.old.me.1) }
    ensures found { HasClaimed row worker seat.old.me.0 result seat.new.me.0 }
{
    board
        .shared
        .compare_exchange::<Takes>(seat, 37 * row as usize + 131109, 0, worker + 1)
}

/// Tells what the rule says of the seat. Its view stays.
pub fn recall(board: &Board, seat: &mut Place)
    requires fits { Fits seat.old.table_id board.now.shared.table_id board.now.shared.key }
    requires live { 0 < length seat.old.me.0.workers }
    ensures same { (seat.new.table_id ≡ seat.old.table_id) × (seat.new.me ≡ seat.old.me) }
    ensures sane { IsSane seat.old.me.0 }
{
    board.shared.load::<Recalls>(seat, 0);
}
