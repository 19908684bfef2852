//! What copies keep of parameters, types and arguments.
ghost use Rattle.std.specs.Prelude.{◌≡◌, ◌++◌, [], ◌∷◌, map, IfOk, OnOk, if◌then◌else◌};
ghost use Rattle.demands.specs.Names.{is_unknown as unknown};
ghost use Rattle.interface.specs.Masks.{chosen, is_chosen};
ghost use Rattle.ir_syntax.specs.Mapped.{map_arg};
ghost use Rattle.winnowed_form.specs.Bodies.{written_operand};
ghost use Rattle.reach_prune.specs.Mirrors.Shown.{shown_setting};

use crate::bodies::Setting;
use crate::copies::is_unknown;
use interface::Mask;
use ir_syntax::{Arg, MapOperand, Param};
use ir_types::{Known, List, OutOfMemory, Scalar};
use std::alloc::Global;

/// Adds an element, if it stays.
fn add_if<T: Copy>(made: &mut List<T>, stays: bool, element: &T) -> Result<(), OutOfMemory>
    ensures { OnOk result (made.new ≡ made.old ++ (if stays then element.now ∷ [] else [])) }
{
    if stays {
        made.push(*element)?;
    }
    Ok(())
}

/// The parameters that the mask chooses.
pub(crate) fn kept_params(
    alloc: Global,
    mask: &Mask,
    params: &[Param],
) -> Result<List<Param>, OutOfMemory>
    ensures { IfOk result (λ made. made ≡ chosen mask.now params.now) }
{
    let mut made = List::new(alloc);
    for (k, param) in params.iter().enumerate() {
        add_if(&mut made, mask.is_chosen(k), param)?;
    }
    Ok(made)
}

/// Whether the item at a place is there and unknown.
fn is_open(items: &[Known], k: usize) -> bool
    ensures { result ≡ is_chosen (map unknown items.now) k }
{
    match items.get(k) {
        Some(item) => is_unknown(item),
        None => false,
    }
}

/// The types of the parameters of which nothing is known.
pub(crate) fn kept_types(
    alloc: Global,
    items: &[Known],
    types: &[Scalar],
) -> Result<List<Scalar>, OutOfMemory>
    ensures { IfOk result (λ made. made ≡ chosen (map unknown items.now) types.now) }
{
    let mut made = List::new(alloc);
    for (k, ty) in types.iter().enumerate() {
        add_if(&mut made, is_open(items, k), ty)?;
    }
    Ok(made)
}

/// An argument as it is written.
fn written_arg(alloc: Global, w: &Setting<'_>, arg: &Arg) -> Result<Arg, OutOfMemory>
    ensures { IfOk result (λ made. made ≡ map_arg (written_operand (shown_setting w.now)) arg.now) }
{
    Ok(Arg {
        ty: arg.ty,
        ext: arg.ext,
        value: w.map(alloc, &arg.value)?,
    })
}

/// Adds an argument as it is written, if it stays.
fn add_arg(
    alloc: Global,
    made: &mut List<Arg>,
    w: &Setting<'_>,
    stays: bool,
    arg: &Arg,
) -> Result<(), OutOfMemory>
    ensures { OnOk result (made.new ≡ made.old ++ (if stays then map_arg (written_operand (shown_setting w.now)) arg.now ∷ [] else [])) }
{
    if stays {
        made.push(written_arg(alloc, w, arg)?)?;
    }
    Ok(())
}

/// The arguments of the parameters of which nothing is known, as they are written.
pub(crate) fn kept_args(
    alloc: Global,
    w: &Setting<'_>,
    items: &[Known],
    args: &[Arg],
) -> Result<List<Arg>, OutOfMemory>
    ensures { IfOk result (λ made. made ≡ map (map_arg (written_operand (shown_setting w.now))) (chosen (map unknown items.now) args.now)) }
{
    let mut made = List::new(alloc);
    for (k, arg) in args.iter().enumerate() {
        add_arg(alloc, &mut made, w, is_open(items, k), arg)?;
    }
    Ok(made)
}

/// All arguments, as they are written.
pub(crate) fn all_args(
    alloc: Global,
    w: &Setting<'_>,
    args: &[Arg],
) -> Result<List<Arg>, OutOfMemory>
    ensures { IfOk result (λ made. made ≡ map (map_arg (written_operand (shown_setting w.now))) args.now) }
{
    let mut made = List::new(alloc);
    for arg in args {
        made.push(written_arg(alloc, w, arg)?)?;
    }
    Ok(made)
}
