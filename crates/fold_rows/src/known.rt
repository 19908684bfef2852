//! What a row says of the parameters.
ghost use Rattle.std.specs.Prelude.{IfOk};
ghost use Rattle.std.specs.List.{AllZip};
ghost use Rattle.fold_facts.specs.Operands.{known_fact};
ghost use Rattle.fold_facts.specs.OfFunction.{IsFactOf};

use ir_syntax::Param;
use ir_types::{Known, List, OutOfMemory, Scalar};
use std::alloc::Global;

// What a word says of a parameter of the type: nothing, where it doesn't suit.
fn known_by(ty: Scalar, word: &str) -> Known
    ensures { IsFactOf ty (known_fact result) }
{
    if word == "null" && ty == Scalar::Ptr {
        return Known::Null;
    }
    match word.parse::<u64>() {
        Ok(number) => {
            if ty.holds(number) {
                Known::Num(number)
            } else {
                Known::Unknown
            }
        }
        Err(_) => Known::Unknown,
    }
}

/// One item for each parameter, by the words behind `with` in the name of a row.
pub(crate) fn known_of(
    alloc: Global,
    name: &str,
    params: &[Param],
) -> Result<List<Known>, OutOfMemory>
    ensures { IfOk result (λ known. AllZip (λ param item. IsFactOf param.ty (known_fact item)) params.now known) }
{
    let mut words = name.split(' ').skip_while(|word| *word != "with").skip(1);
    let mut known = List::new(alloc);
    for param in params {
        let word = words.next().unwrap_or("_");
        known.push(known_by(param.ty, word))?;
    }
    Ok(known)
}
