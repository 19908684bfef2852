//! Memory as blocks of bytes: values, what stands in each byte, and each access with the causes of its undefined behaviour.
#![tactic(auto)]

mod block;
mod comparisons;
mod copies;
mod loads;
mod making;
mod mark;
mod memory;
mod names;
mod parts;
mod reads;
mod row;
mod shows;
mod slot;
mod spot;
mod starts;
mod stores;
mod value;
mod writes;

pub use comparisons::BlockExtent;
pub use memory::Memory;
pub use value::{Name, Part, ShowFault, Val};
