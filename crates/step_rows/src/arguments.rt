//! Arguments of roots.
ghost use Rattle.std.specs.Prelude.{IfOk, IfSome, IsTrue};
ghost use Rattle.std.specs.List.{AllZip};
ghost use Rattle.ir_types.specs.Scalars.{is_number_of};

use ir_syntax::Param;
use ir_types::Scalar;
use std::alloc::Global;

// The number of the type that a word says.
fn argument_of(ty: Scalar, word: Option<&str>) -> Option<u64>
    ensures { IfSome result (λ n. IsTrue (is_number_of ty n)) }
{
    let number = word?.parse::<u64>().ok()?;
    if ty.holds(number) { Some(number) } else { None }
}

/// A number for each parameter, from words. `None` where a word isn't a number of its parameter's type, or there are fewer
/// or more words. The error is want of memory.
pub(crate) fn arguments_of(
    alloc: Global,
    text: &str,
    params: &[Param],
) -> anyhow::Result<Option<Vec<u64>>>
    ensures { IfOk result (λ some. IfSome some (λ args. AllZip (λ param n. IsTrue (is_number_of param.ty n)) params.now args.items)) }
{
    let mut words = text.split_whitespace();
    let mut args = Vec::new(alloc);
    for param in params {
        match argument_of(param.ty, words.next()) {
            Some(number) => args.push(number)?,
            None => return Ok(None),
        }
    }
    if words.next().is_some() {
        return Ok(None);
    }
    Ok(Some(args))
}
