//! An order of the blocks in which bits reach them soon.
use ir_syntax::{Block, Term};
use ir_types::OutOfMemory;
use std::alloc::Global;

// A block to be entered by a search in depth, or to be left when all blocks behind it are done.
#[derive(Clone, Copy)]
enum Step {
    Enter(usize),
    Leave(usize),
}

/// The blocks that are reached from the first, so that a block comes before those behind it, as far as loops allow.
/// Nothing rests on the order but how soon bits reach all blocks.
pub(crate) fn visit_order(alloc: Global, blocks: &[Block]) -> Result<Vec<usize>, OutOfMemory> {
    let mut order = left_order(alloc, blocks)?;
    order.reverse();
    Ok(order)
}

// The blocks that are reached from the first, in the order in which a search in depth leaves them. It looks at each edge
// once, so its steps end long before the count of the loop.
fn left_order(alloc: Global, blocks: &[Block]) -> Result<Vec<usize>, OutOfMemory> {
    let mut order = Vec::new(alloc);
    let mut entered = vec![in alloc; false; blocks.len()]?;
    let mut steps = Vec::new(alloc);
    steps.push(Step::Enter(0))?;
    for _ in 0..usize::MAX {
        match steps.pop() {
            Some(Step::Enter(place)) => {
                if place < blocks.len() && !entered[place] {
                    entered[place] = true;
                    steps.push(Step::Leave(place))?;
                    enter_next(&mut steps, entered.as_slice(), &blocks[place].term)?;
                }
            }
            Some(Step::Leave(place)) => order.push(place)?,
            None => return Ok(order),
        }
    }
    Ok(order)
}

// The blocks behind a terminator are to be entered, where they aren't yet.
fn enter_next(steps: &mut Vec<Step>, entered: &[bool], term: &Term) -> Result<(), OutOfMemory> {
    for k in (0..term.successor_count()).rev() {
        match term.successor(k) {
            Some(to) => enter(steps, entered, to)?,
            None => return Ok(()),
        }
    }
    Ok(())
}

fn enter(steps: &mut Vec<Step>, entered: &[bool], place: usize) -> Result<(), OutOfMemory> {
    if place < entered.len() && !entered[place] {
        steps.push(Step::Enter(place))?;
    }
    Ok(())
}
