//! Words, patterns and demands as text.
use demands::{Demand, Pattern};
use ir_types::{Known, OutOfMemory};
use std::alloc::Global;

/// The words with blanks between, in brackets.
pub fn words_text(alloc: Global, words: &[u64]) -> Result<String, OutOfMemory> {
    let mut text = String::from_str(alloc, "[")?;
    for (k, word) in words.iter().enumerate() {
        if k > 0 {
            text.push_str(" ")?;
        }
        text.push_str(format!(in alloc; "{word}")?.as_str())?;
    }
    text.push_str("]")?;
    Ok(text)
}

/// The items of a pattern with commas between, in parentheses.
pub fn items_text(alloc: Global, items: &[Known]) -> Result<String, OutOfMemory> {
    let mut text = String::from_str(alloc, "(")?;
    for (k, item) in items.iter().enumerate() {
        if k > 0 {
            text.push_str(",")?;
        }
        match item {
            Known::Unknown => text.push_str("_")?,
            Known::Num(number) => text.push_str(format!(in alloc; "{number}")?.as_str())?,
            Known::Null => text.push_str("null")?,
        }
    }
    text.push_str(")")?;
    Ok(text)
}

/// A demand by its kind, its module, its item and its pattern.
pub fn demand_text(alloc: Global, demand: &Demand) -> Result<String, OutOfMemory> {
    match demand {
        Demand::Var { var } => Ok(format!(in alloc; "variable {}.{}", var.module, var.item)?),
        Demand::Func { func, pattern } => {
            let items = items_text(alloc, pattern.items())?;
            Ok(format!(in alloc; "function {}.{}{items}", func.module, func.item)?)
        }
    }
}

/// The pattern of at most 32 items.
pub fn pattern(alloc: Global, items: &[Known]) -> Result<Pattern, OutOfMemory> {
    if items.len() > 32 {
        return Err(OutOfMemory);
    }
    Pattern::new(alloc, items)
}
