//! Terminators.
#![tactic(auto, using(crate::proofs::Bytes::written))]

ghost use Rattle.std.specs.Prelude.{◌≡◌, ◌++◌, OnOk, map, flat_map};
ghost use Rattle.ir_lexer.specs.Written.{bytes_of};
ghost use Rattle.ir_syntax.specs.declared.body.Term.TheVariants.{CondBr, Switch};
ghost use Rattle.ir_syntax.specs.FormedBody.{item_name};
ghost use Rattle.ir_writer.specs.Instructions.{case_parts, term_parts};

use crate::constants::write_integer;
use crate::operands::{write_jump, write_typed};
use crate::words::scalar_word;
use ir_syntax::{Item, Operand, Term};
use ir_types::{Bytes, OutOfMemory, Scalar};

fn write_conditional(
    out: &mut Bytes,
    items: &[Item],
    cond: &Operand,
    one: usize,
    other: usize,
) -> Result<(), OutOfMemory>
    ensures { OnOk result (out.new ≡ out.old ++ bytes_of (term_parts (map item_name items.now) (CondBr cond.now one other))) }
{
    out.append(b"br ")?;
    write_typed(out, items, Scalar::I1, cond)?;
    out.append(b", ")?;
    write_jump(out, one)?;
    out.append(b", ")?;
    write_jump(out, other)
}

/// Adds a case of a switch and a blank.
fn write_case(out: &mut Bytes, ty: Scalar, number: u64, to: usize) -> Result<(), OutOfMemory>
    ensures { OnOk result (out.new ≡ out.old ++ bytes_of (case_parts ty (number, to))) }
{
    out.append(scalar_word(ty))?;
    out.append(b" ")?;
    write_integer(out, ty, number)?;
    out.append(b", ")?;
    write_jump(out, to)?;
    out.append(b" ")
}

fn write_cases(out: &mut Bytes, ty: Scalar, cases: &[(u64, usize)]) -> Result<(), OutOfMemory>
    ensures { OnOk result (out.new ≡ out.old ++ bytes_of (flat_map (case_parts ty) cases.now)) }
{
    for (number, to) in cases {
        write_case(out, ty, *number, *to)?;
    }
    Ok(())
}

fn write_switch(
    out: &mut Bytes,
    items: &[Item],
    ty: Scalar,
    value: &Operand,
    default: usize,
    cases: &[(u64, usize)],
) -> Result<(), OutOfMemory>
    ensures { OnOk result (out.new ≡ out.old ++ bytes_of (term_parts (map item_name items.now) (Switch ty value.now default cases.now))) }
{
    out.append(b"switch ")?;
    write_typed(out, items, ty, value)?;
    out.append(b", ")?;
    write_jump(out, default)?;
    out.append(b" [ ")?;
    write_cases(out, ty, cases)?;
    out.append(b"]")
}

/// Adds a terminator.
pub fn write_term(out: &mut Bytes, items: &[Item], term: &Term) -> Result<(), OutOfMemory>
    ensures { OnOk result (out.new ≡ out.old ++ bytes_of (term_parts (map item_name items.now) term.now)) }
{
    match term {
        Term::RetVoid => out.append(b"ret void"),
        Term::Ret(ty, value) => {
            out.append(b"ret ")?;
            write_typed(out, items, *ty, value)
        }
        Term::Br(to) => {
            out.append(b"br ")?;
            write_jump(out, *to)
        }
        Term::CondBr(cond, one, other) => write_conditional(out, items, cond, *one, *other),
        Term::Switch {
            ty,
            value,
            default,
            cases,
        } => write_switch(out, items, *ty, value, *default, cases.as_slice()),
        Term::Unreachable => out.append(b"unreachable"),
    }
}
