//! The operands of instructions, terminators and phis.
ghost use Rattle.std.specs.Prelude.{◌≡◌, ◌+◌, ◌-◌, ◌<◌, ◌∷◌, [], ℕ, length, map, slice_get, option_to_list};
ghost use Rattle.std.specs.Option.{option_copied};
ghost use Rattle.ir_syntax.specs.Operands.{operands, term_operands};

use crate::{Arg, Inst, Operand, Term};
use ir_types::Scalar;

/// The operand at a place, of one operand.
fn of_one(one: &Operand, k: usize) -> Option<&Operand>
    ensures { option_copied result ≡ slice_get (one.now ∷ []) k }
{
    match k {
        0 => Some(one),
        _ => None,
    }
}

/// The operand at a place, of two.
fn of_two<'a>(one: &'a Operand, other: &'a Operand, k: usize) -> Option<&'a Operand>
    ensures { option_copied result ≡ slice_get (one.now ∷ other.now ∷ []) k }
{
    match k {
        0 => Some(one),
        1 => Some(other),
        _ => None,
    }
}

/// The operand at a place, of three.
fn of_three<'a>(
    one: &'a Operand,
    other: &'a Operand,
    third: &'a Operand,
    k: usize,
) -> Option<&'a Operand>
    ensures { option_copied result ≡ slice_get (one.now ∷ other.now ∷ third.now ∷ []) k }
{
    match k {
        0 => Some(one),
        1 => Some(other),
        2 => Some(third),
        _ => None,
    }
}

/// The operand of the index at a place.
fn index_at(indices: &[(Scalar, Operand)], k: usize) -> Option<&Operand>
    ensures { option_copied result ≡ slice_get (map (λ index. index.1) indices.now) k }
{
    match indices.get(k) {
        Some(index) => Some(&index.1),
        None => None,
    }
}

/// The value of the argument at a place.
fn argument_at(args: &[Arg], k: usize) -> Option<&Operand>
    ensures { option_copied result ≡ slice_get (map (λ arg. arg.value) args.now) k }
{
    match args.get(k) {
        Some(arg) => Some(&arg.value),
        None => None,
    }
}

/// The operand at a place, of a base and indices.
fn of_gep<'a>(base: &'a Operand, indices: &'a [(Scalar, Operand)], k: usize) -> Option<&'a Operand>
    ensures { option_copied result ≡ slice_get (base.now ∷ map (λ index. index.1) indices.now) k }
{
    if k == 0 {
        return Some(base);
    }
    index_at(indices, k - 1)
}

/// The operand at a place, of a callee and arguments.
fn of_call<'a>(callee: &'a Operand, args: &'a [Arg], k: usize) -> Option<&'a Operand>
    ensures { option_copied result ≡ slice_get (callee.now ∷ map (λ arg. arg.value) args.now) k }
{
    if k == 0 {
        return Some(callee);
    }
    argument_at(args, k - 1)
}

impl Inst {
    /// How many operands the instruction has. The callee of a call is one, and so is the base of a `getelementptr`.
    pub fn operand_count(&self) -> usize
        ensures { result ≡ length (operands self.now) }
    {
        match self {
            Inst::Bin { .. } => 2,
            Inst::Icmp { .. } => 2,
            Inst::Select { .. } => 3,
            Inst::Cast { .. } => 1,
            Inst::Alloca { .. } => 0,
            Inst::Load { .. } => 1,
            Inst::Store { .. } => 2,
            Inst::Gep { indices, .. } => indices.as_slice().len() + 1,
            Inst::Call { args, .. } => args.as_slice().len() + 1,
        }
    }

    /// The operand at a place, counted from 0 in the order of the text. `None` comes exactly where there are no more.
    pub fn operand(&self, k: usize) -> Option<&Operand>
        ensures { option_copied result ≡ slice_get (operands self.now) k }
    {
        match self {
            Inst::Bin { a, b, .. } => of_two(a, b, k),
            Inst::Icmp { a, b, .. } => of_two(a, b, k),
            Inst::Select { cond, a, b, .. } => of_three(cond, a, b, k),
            Inst::Cast { a, .. } => of_one(a, k),
            Inst::Alloca { .. } => None,
            Inst::Load { at, .. } => of_one(at, k),
            Inst::Store { value, at, .. } => of_two(value, at, k),
            Inst::Gep { base, indices, .. } => of_gep(base, indices.as_slice(), k),
            Inst::Call { callee, args, .. } => of_call(callee, args.as_slice(), k),
        }
    }
}

impl Term {
    /// The terminator's operand: what it returns, or what it branches on. `None` comes exactly where it has none; it
    /// never has two.
    pub fn operand(&self) -> Option<&Operand>
        ensures { option_to_list (option_copied result) ≡ term_operands self.now }
    {
        match self {
            Term::RetVoid => None,
            Term::Ret(_, value) => Some(value),
            Term::Br(_) => None,
            Term::CondBr(cond, _, _) => Some(cond),
            Term::Switch { value, .. } => Some(value),
            Term::Unreachable => None,
        }
    }
}
