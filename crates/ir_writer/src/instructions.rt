//! Instructions and phis.
#![tactic(auto, using(crate::proofs::Bytes::written))]

ghost use Rattle.std.specs.Prelude.{◌≡◌, ◌∷◌, [], ◌++◌, OnOk, map, codes};
ghost use Rattle.ir_lexer.specs.Written.{bytes_of};
ghost use Rattle.ir_syntax.specs.declared.body.Inst.TheVariants.{Bin, Icmp, Select, Cast, Alloca, Load, Store, Gep};
ghost use Rattle.ir_syntax.specs.FormedBody.{item_name, IsAlign, Places, FormedInst};
ghost use Rattle.ir_writer.specs.Words.{listed, more};
ghost use Rattle.ir_writer.specs.Instructions.{flag_parts, typed, count_parts, inst_parts, entry_parts, phi_parts};

use crate::calls::write_call;
use crate::constants::write_integer;
use crate::operands::{write_align, write_local, write_operand, write_pair, write_typed};
use crate::types::write_type;
use crate::words::{cast_word, op_word, pred_word, scalar_word, write_said, write_separator};
use ir_syntax::{Inst, Item, Operand, Phi};
use ir_types::{BinOp, Bytes, CastOp, Flags, OutOfMemory, Pred, Scalar, Ty};

fn write_flags(out: &mut Bytes, flags: Flags) -> Result<(), OutOfMemory>
    ensures { OnOk result (out.new ≡ out.old ++ bytes_of (flag_parts flags)) }
{
    write_said(out, flags.nuw, b"nuw")?;
    write_said(out, flags.nsw, b"nsw")?;
    write_said(out, flags.exact, b"exact")?;
    write_said(out, flags.disjoint, b"disjoint")
}

fn write_bin(
    out: &mut Bytes,
    items: &[Item],
    op: BinOp,
    flags: Flags,
    ty: Scalar,
    a: &Operand,
    b: &Operand,
) -> Result<(), OutOfMemory>
    ensures { OnOk result (out.new ≡ out.old ++ bytes_of (inst_parts (map item_name items.now) (Bin op flags ty a.now b.now))) }
{
    out.append(op_word(op))?;
    out.append(b" ")?;
    write_flags(out, flags)?;
    write_pair(out, items, ty, a, b)
}

fn write_icmp(
    out: &mut Bytes,
    items: &[Item],
    pred: Pred,
    ty: Scalar,
    a: &Operand,
    b: &Operand,
) -> Result<(), OutOfMemory>
    ensures { OnOk result (out.new ≡ out.old ++ bytes_of (inst_parts (map item_name items.now) (Icmp pred ty a.now b.now))) }
{
    out.append(b"icmp ")?;
    out.append(pred_word(pred))?;
    out.append(b" ")?;
    write_pair(out, items, ty, a, b)
}

fn write_select(
    out: &mut Bytes,
    items: &[Item],
    ty: Scalar,
    cond: &Operand,
    a: &Operand,
    b: &Operand,
) -> Result<(), OutOfMemory>
    ensures { OnOk result (out.new ≡ out.old ++ bytes_of (inst_parts (map item_name items.now) (Select ty cond.now a.now b.now))) }
{
    out.append(b"select ")?;
    write_typed(out, items, Scalar::I1, cond)?;
    out.append(b", ")?;
    write_typed(out, items, ty, a)?;
    out.append(b", ")?;
    write_typed(out, items, ty, b)
}

fn write_cast(
    out: &mut Bytes,
    items: &[Item],
    op: CastOp,
    nneg: bool,
    from: Scalar,
    to: Scalar,
    a: &Operand,
) -> Result<(), OutOfMemory>
    ensures { OnOk result (out.new ≡ out.old ++ bytes_of (inst_parts (map item_name items.now) (Cast op nneg from to a.now))) }
{
    out.append(cast_word(op))?;
    out.append(b" ")?;
    write_said(out, nneg, b"nneg")?;
    write_typed(out, items, from, a)?;
    out.append(b" to ")?;
    out.append(scalar_word(to))
}

/// Adds how many values an `alloca` has, unless it is one.
fn write_count(out: &mut Bytes, count: u64) -> Result<(), OutOfMemory>
    ensures { OnOk result (out.new ≡ out.old ++ bytes_of (count_parts count)) }
{
    if count == 1 {
        return Ok(());
    }
    out.append(b", i64 ")?;
    write_integer(out, Scalar::I64, count)
}

fn write_alloca(out: &mut Bytes, ty: &Ty, count: u64, align: Option<u8>) -> Result<(), OutOfMemory>
    requires { IsAlign align }
    ensures { OnOk result (out.new ≡ out.old ++ bytes_of (inst_parts [] (Alloca ty.now count align))) }
{
    out.append(b"alloca ")?;
    write_type(out, ty)?;
    write_count(out, count)?;
    write_align(out, align)
}

fn write_load(
    out: &mut Bytes,
    items: &[Item],
    ty: Scalar,
    at: &Operand,
    align: Option<u8>,
) -> Result<(), OutOfMemory>
    requires { IsAlign align }
    ensures { OnOk result (out.new ≡ out.old ++ bytes_of (inst_parts (map item_name items.now) (Load ty at.now align))) }
{
    out.append(b"load ")?;
    out.append(scalar_word(ty))?;
    out.append(b", ")?;
    write_typed(out, items, Scalar::Ptr, at)?;
    write_align(out, align)
}

fn write_store(
    out: &mut Bytes,
    items: &[Item],
    ty: Scalar,
    value: &Operand,
    at: &Operand,
    align: Option<u8>,
) -> Result<(), OutOfMemory>
    requires { IsAlign align }
    ensures { OnOk result (out.new ≡ out.old ++ bytes_of (inst_parts (map item_name items.now) (Store ty value.now at.now align))) }
{
    out.append(b"store ")?;
    write_typed(out, items, ty, value)?;
    out.append(b", ")?;
    write_typed(out, items, Scalar::Ptr, at)?;
    write_align(out, align)
}

/// Adds indices, each behind a comma.
fn write_indices(
    out: &mut Bytes,
    items: &[Item],
    indices: &[(Scalar, Operand)],
) -> Result<(), OutOfMemory>
    ensures { OnOk result (out.new ≡ out.old ++ bytes_of (more (map (λ index. typed (map item_name items.now) index.0 index.1) indices.now))) }
{
    for (ty, value) in indices {
        out.append(b", ")?;
        write_typed(out, items, *ty, value)?;
    }
    Ok(())
}

fn write_gep(
    out: &mut Bytes,
    items: &[Item],
    inbounds: bool,
    ty: &Ty,
    base: &Operand,
    indices: &[(Scalar, Operand)],
) -> Result<(), OutOfMemory>
    ensures { OnOk result (out.new ≡ out.old ++ bytes_of (inst_parts (map item_name items.now) (Gep inbounds ty.now base.now indices.now))) }
{
    out.append(b"getelementptr ")?;
    write_said(out, inbounds, b"inbounds")?;
    write_type(out, ty)?;
    out.append(b", ")?;
    write_typed(out, items, Scalar::Ptr, base)?;
    write_indices(out, items, indices)
}

/// Adds an instruction, without what names its result.
pub fn write_inst(out: &mut Bytes, items: &[Item], inst: &Inst) -> Result<(), OutOfMemory>
    requires { (places : Places) × FormedInst places inst.now }
    ensures { OnOk result (out.new ≡ out.old ++ bytes_of (inst_parts (map item_name items.now) inst.now)) }
{
    match inst {
        Inst::Bin {
            op,
            flags,
            ty,
            a,
            b,
        } => write_bin(out, items, *op, *flags, *ty, a, b),
        Inst::Icmp { pred, ty, a, b } => write_icmp(out, items, *pred, *ty, a, b),
        Inst::Select { ty, cond, a, b } => write_select(out, items, *ty, cond, a, b),
        Inst::Cast {
            op,
            nneg,
            from,
            to,
            a,
        } => write_cast(out, items, *op, *nneg, *from, *to, a),
        Inst::Alloca { ty, count, align } => write_alloca(out, ty, *count, *align),
        Inst::Load { ty, at, align } => write_load(out, items, *ty, at, *align),
        Inst::Store {
            ty,
            value,
            at,
            align,
        } => write_store(out, items, *ty, value, at, *align),
        Inst::Gep {
            inbounds,
            ty,
            base,
            indices,
        } => write_gep(out, items, *inbounds, ty, base, indices.as_slice()),
        Inst::Call {
            fn_ty,
            ret_ext,
            callee,
            args,
        } => write_call(out, items, fn_ty, *ret_ext, callee, args.as_slice()),
    }
}

/// Adds an operand of a phi and the block that it comes from.
fn write_entry(
    out: &mut Bytes,
    items: &[Item],
    ty: Scalar,
    value: &Operand,
    from: usize,
) -> Result<(), OutOfMemory>
    ensures { OnOk result (out.new ≡ out.old ++ bytes_of (entry_parts (map item_name items.now) ty (value.now, from))) }
{
    out.append(b"[ ")?;
    write_operand(out, items, ty, value)?;
    out.append(b", ")?;
    write_local(out, b"%b", from)?;
    out.append(b" ]")
}

/// Adds the operands of a phi with commas between them.
fn write_entries(
    out: &mut Bytes,
    items: &[Item],
    ty: Scalar,
    entries: &[(Operand, usize)],
) -> Result<(), OutOfMemory>
    ensures { OnOk result (out.new ≡ out.old ++ bytes_of (listed (map (entry_parts (map item_name items.now) ty) entries.now))) }
{
    for (place, (value, from)) in entries.iter().enumerate() {
        write_separator(out, place)?;
        write_entry(out, items, ty, value, *from)?;
    }
    Ok(())
}

/// Adds a phi, without what names its result.
pub fn write_phi(out: &mut Bytes, items: &[Item], phi: &Phi) -> Result<(), OutOfMemory>
    ensures { OnOk result (out.new ≡ out.old ++ bytes_of (phi_parts (map item_name items.now) phi.now)) }
{
    out.append(b"phi ")?;
    out.append(scalar_word(phi.ty))?;
    out.append(b" ")?;
    write_entries(out, items, phi.ty, phi.entries.as_slice())
}
