//! Which edges a terminator asks for.
ghost use Rattle.std.specs.Prelude.{◌≡◌, ◌<◌, length, IfSome};
ghost use Rattle.fold_facts.specs.Terminators.{asks as asked, branch_edge as of_branch, case_for as case_of, case_edge as of_case, switch_edge as of_switch, edges_by, term_edges as of_term};

use crate::operands::operand_fact;
use crate::{Edges, Fact};
use ir_syntax::Term;
use ir_types::Known;

/// Whether the k-th edge is among those that are asked for.
pub fn asks(edges: Edges, k: usize) -> bool
    ensures { result ≡ asked edges k }
{
    match edges {
        Edges::Nothing => false,
        Edges::Only(chosen) => k == chosen,
        Edges::All => true,
    }
}

fn branch_edge(number: u64) -> Edges
    ensures { result ≡ of_branch number }
{
    if number == 0 {
        Edges::Only(1)
    } else {
        Edges::Only(0)
    }
}

/// The place of the case for a number.
fn case_for(number: u64, cases: &[(u64, usize)]) -> Option<usize>
    ensures place { result ≡ case_of number cases.now }
    ensures within { IfSome result (λ k. k < length cases.now) }
{
    for (k, case) in cases.iter().enumerate() {
        if case.0 == number {
            return Some(k);
        }
    }
    None
}

fn switch_edge(cases: &[(u64, usize)], number: u64) -> Edges
    ensures { result ≡ of_switch cases.now number }
{
    if cases.is_empty() {
        return Edges::All;
    }
    match case_for(number, cases) {
        None => Edges::Only(0),
        Some(k) => Edges::Only(k + 1),
    }
}

fn branch_edges(cond: Fact) -> Edges
    ensures { result ≡ edges_by of_branch cond }
{
    match cond {
        Fact::Unreached => Edges::Nothing,
        Fact::One(Known::Unknown) => Edges::All,
        Fact::One(Known::Num(number)) => branch_edge(number),
        Fact::One(Known::Null) => Edges::All,
        Fact::Varying => Edges::All,
    }
}

fn switch_edges(value: Fact, cases: &[(u64, usize)]) -> Edges
    ensures { result ≡ edges_by (of_switch cases.now) value }
{
    match value {
        Fact::Unreached => Edges::Nothing,
        Fact::One(Known::Unknown) => Edges::All,
        Fact::One(Known::Num(number)) => switch_edge(cases, number),
        Fact::One(Known::Null) => Edges::All,
        Fact::Varying => Edges::All,
    }
}

/// Which edges a terminator asks for, where this is known of the parameters and of the results.
pub(crate) fn term_edges(known: &[Known], facts: &[Fact], term: &Term) -> Edges
    ensures { result ≡ of_term (record { known = known.now }) facts.now term.now }
{
    match term {
        Term::RetVoid => Edges::Nothing,
        Term::Ret(_, _) => Edges::Nothing,
        Term::Br(_) => Edges::All,
        Term::CondBr(cond, _, _) => branch_edges(operand_fact(known, facts, cond)),
        Term::Switch { value, cases, .. } => {
            switch_edges(operand_fact(known, facts, value), cases.as_slice())
        }
        Term::Unreachable => Edges::Nothing,
    }
}
