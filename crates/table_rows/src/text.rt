//! Answers as text.
use demand_table::{Closed, Inserted};
use ir_types::OutOfMemory;
use std::alloc::Global;

/// What an insert answered.
pub fn inserted_text(alloc: Global, answer: Inserted) -> Result<String, OutOfMemory> {
    match answer {
        Inserted::New(ticket) => Ok(format!(in alloc; "new {}", ticket.place)?),
        Inserted::There(ticket) => Ok(format!(in alloc; "there {}", ticket.place)?),
        Inserted::Full => Ok(String::from_str(alloc, "full")?),
    }
}

/// The entries of a closed table: row, maker, parent, claimer.
pub fn entries_text(alloc: Global, entries: &[Closed]) -> Result<String, OutOfMemory> {
    let mut text = String::new(alloc);
    for entry in entries {
        text.push_str(words_text(alloc, entry.row.words())?.as_str())?;
        text.push_str(format!(in alloc; " by {}", entry.maker)?.as_str())?;
        text.push_str(number_text(alloc, " under ", entry.parent)?.as_str())?;
        text.push_str(number_text(alloc, " for ", entry.claimer)?.as_str())?;
        text.push_str(";")?;
    }
    Ok(text)
}

/// A row.
pub fn words_text(alloc: Global, words: &[u64]) -> Result<String, OutOfMemory> {
    let mut text = String::from_str(alloc, " [")?;
    for (k, word) in words.iter().enumerate() {
        if k > 0 {
            text.push_str(" ")?;
        }
        text.push_str(format!(in alloc; "{word}")?.as_str())?;
    }
    text.push_str("]")?;
    Ok(text)
}

fn number_text(alloc: Global, before: &str, number: Option<usize>) -> Result<String, OutOfMemory> {
    let mut text = String::new(alloc);
    if let Some(number) = number {
        text.push_str(before)?;
        text.push_str(format!(in alloc; "{number}")?.as_str())?;
    }
    Ok(text)
}
