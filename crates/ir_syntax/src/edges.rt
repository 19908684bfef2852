//! Where terminators go.
ghost use Rattle.std.specs.Prelude.{◌≡◌, ◌+◌, ◌-◌, ◌∷◌, length, map, slice_get};
ghost use Rattle.ir_syntax.specs.Edges.{successors};

use crate::Term;

/// The block that the case at a place goes to.
fn case_at(cases: &[(u64, usize)], k: usize) -> Option<usize>
    ensures { result ≡ slice_get (map (λ case. case.1) cases.now) k }
{
    match cases.get(k) {
        Some(case) => Some(case.1),
        None => None,
    }
}

/// The block at a place, of a default and cases.
fn of_switch(default: usize, cases: &[(u64, usize)], k: usize) -> Option<usize>
    ensures { result ≡ slice_get (default ∷ map (λ case. case.1) cases.now) k }
{
    if k == 0 {
        return Some(default);
    }
    case_at(cases, k - 1)
}

impl Term {
    /// How many edges leave the block: one for each block that the terminator names, as often as it names it.
    pub fn successor_count(&self) -> usize
        ensures { result ≡ length (successors self.now) }
    {
        match self {
            Term::RetVoid => 0,
            Term::Ret(_, _) => 0,
            Term::Br(_) => 1,
            Term::CondBr(_, _, _) => 2,
            Term::Switch { cases, .. } => cases.as_slice().len() + 1,
            Term::Unreachable => 0,
        }
    }

    /// The block that the edge at a place goes to, by its place in the body. Edges are counted from 0 in the order in
    /// which the terminator names their blocks, the default of a switch first. `None` comes exactly where there are no
    /// more.
    pub fn successor(&self, k: usize) -> Option<usize>
        ensures { result ≡ slice_get (successors self.now) k }
    {
        match self {
            Term::RetVoid => None,
            Term::Ret(_, _) => None,
            Term::Br(to) => match k {
                0 => Some(*to),
                _ => None,
            },
            Term::CondBr(_, one, other) => match k {
                0 => Some(*one),
                1 => Some(*other),
                _ => None,
            },
            Term::Switch { default, cases, .. } => of_switch(*default, cases.as_slice(), k),
            Term::Unreachable => None,
        }
    }
}
