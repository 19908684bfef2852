//! What the terminator of the first block asks for, with a counter of steps.
ghost use Rattle.std.specs.Prelude.{◌≡◌, ◌<◌};
ghost use Rattle.fold_facts.specs.Places.{blocks_of, IsPlaceIn};
ghost use Rattle.fold_facts.specs.declared.place.Place.TheVariants as place;

use fold_facts::{Assignment, Place, Said, transfer};
use ir_syntax::Func;
use ir_types::Known;
use occam_base::Steps;
use std::sync::ledger::{Blank, Ledger};

/// What it asks for, and how many steps were counted.
pub(crate) fn first_said<L: Ledger>(
    func: &Func,
    known: &[Known],
    a: &Assignment,
    blank: Blank,
) -> (Said, u64)
    requires name { blank.name ≡ L.name }
    requires parts { blank.parts ≡ L.parts }
    requires some { 0 < L.parts }
    requires first { IsPlaceIn (blocks_of func.now) (place.Term 0) }
{
    let mut steps: Steps<L> = Steps::new(blank);
    let said = transfer(func, known, Place::Term(0), a, &mut steps);
    (said, steps.shown())
}
