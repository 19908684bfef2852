//! Folds a function in one of the ways.
ghost use Rattle.std.specs.Prelude.{◌≡◌, ◌<◌, []};
ghost use Rattle.ir_syntax.specs.SoundFunctions.{IsSoundFunction};

use fold_facts::solve_plain;
use fold_sparse::solve;
use ir_syntax::Func;
use ir_types::OutOfMemory;
use occam_base::Steps;
use std::alloc::Global;
use std::marker::Brand;
use std::sync::ledger::{Blank, Ledger};

/// What the way gives of a function without parameters, as a line.
pub(crate) fn folded(alloc: Global, how: &str, func: &Func) -> anyhow::Result<String>
    requires { IsSoundFunction func.now }
{
    if !func.params.is_empty() {
        return Ok(String::from_str(alloc, "has parameters")?);
    }
    match how {
        "rounds" => {
            drop(solve_plain(alloc, func, &[])?);
            Ok(String::from_str(alloc, "solved")?)
        }
        "worklist" => {
            let transfers = transfers_of::<Brand>(alloc, func, Blank::new(1))?;
            Ok(format!(in alloc; "solved transfers={transfers}")?)
        }
        _ => Ok(String::from_str(alloc, "read")?),
    }
}

// How many transfers the solver by a worklist makes.
fn transfers_of<L: Ledger>(alloc: Global, func: &Func, blank: Blank) -> Result<u64, OutOfMemory>
    requires name { blank.name ≡ L.name }
    requires parts { blank.parts ≡ L.parts }
    requires some { 0 < L.parts }
    requires params { func.now.params ≡ [] }
    requires sound { IsSoundFunction func.now }
{
    let mut steps: Steps<L> = Steps::new(blank);
    drop(solve(alloc, func, &[], &mut steps)?);
    Ok(steps.shown())
}
