//! Demands found again from their rows.
ghost use Rattle.std.specs.Prelude.{◌≡◌, ◌≤◌, ◌∷◌, length, Some, IfOk, IfErr, MatchOption};
ghost use Rattle.ir_syntax.specs.Suits.{is_number_of};
ghost use Rattle.ir_syntax.specs.declared.item.Item.TheVariants as item;
ghost use Rattle.demands.specs.Rows.{words_of};
ghost use Rattle.demands.specs.Demands.{IsDemand, item_at};
ghost use Rattle.demands.specs.Faults.{IsCause, IsNoneOrNoMemory};
ghost use Rattle.demands.specs.Reading.{is_null_of, read_known, read_pattern, read_symbol, read_at, read_row};

use crate::{Demand, Pattern};
use demand_core::Row;
use ir_syntax::{Func, Item, Module, Param, Program, Sym, Var};
use ir_types::{Known, Scalar};
use std::alloc::Global;

/// Why a row gives no demand: the program has none with this row, or the allocator refused memory.
#[derive(Clone, Copy, Debug, PartialEq, Eq)]
pub enum RowFault {
    NoDemand,
    OutOfMemory,
}

fn is_number_of(ty: Scalar, word: u64) -> bool
    ensures { result ≡ is_number_of ty word }
{
    match ty {
        Scalar::I1 => word < 2,
        Scalar::I8 => word < 1 << 8,
        Scalar::I16 => word < 1 << 16,
        Scalar::I32 => word < 1 << 32,
        Scalar::I64 => true,
        Scalar::Ptr => false,
    }
}

fn is_null_of(ty: Scalar, word: u64) -> bool
    ensures { result ≡ is_null_of ty word }
{
    match ty {
        Scalar::Ptr => word == 0,
        Scalar::I1 => false,
        Scalar::I8 => false,
        Scalar::I16 => false,
        Scalar::I32 => false,
        Scalar::I64 => false,
    }
}

/// What a parameter's two bits and its word say of it.
fn known_of(ty: Scalar, has_number: bool, has_null: bool, word: u64) -> Option<Known>
    ensures { result ≡ read_known ty has_number has_null word }
{
    match (has_number, has_null) {
        (true, true) => None,
        (true, false) => is_number_of(ty, word).then_some(Known::Num(word)),
        (false, true) => is_null_of(ty, word).then_some(Known::Null),
        (false, false) => (word == 0).then_some(Known::Unknown),
    }
}

/// The pattern of these parameters with these bits and numbers.
fn pattern_of(
    alloc: Global,
    params: &[Param],
    bits: u64,
    words: &[u64],
) -> Result<Pattern, RowFault>
    ensures found { IfOk result (λ pattern. read_pattern params.now bits words.now ≡ Some pattern) }
    ensures none { IfErr result (IsNoneOrNoMemory (read_pattern params.now bits words.now)) }
{
    if params.len() > 32 || words.len() != params.len() {
        return Err(RowFault::NoDemand);
    }
    let mut items = [Known::Unknown; 32];
    let mut numbers = bits % (1 << 32);
    let mut nulls = bits / (1 << 32);
    for (k, param) in params.iter().enumerate() {
        match known_of(param.ty, numbers % 2 == 1, nulls % 2 == 1, words[k]) {
            Some(known) => items[k] = known,
            None => return Err(RowFault::NoDemand),
        }
        numbers /= 2;
        nulls /= 2;
    }
    if numbers != 0 || nulls != 0 {
        return Err(RowFault::NoDemand);
    }
    match Pattern::new(alloc, &items[..params.len()]) {
        Ok(pattern) => Ok(pattern),
        Err(_) => Err(RowFault::OutOfMemory),
    }
}

fn function_of(
    alloc: Global,
    symbol: Sym,
    func: &Func,
    kind: u64,
    bits: u64,
    words: &[u64],
) -> Result<Demand, RowFault>
    ensures found { IfOk result (λ d. read_at symbol kind bits words.now (Some (item.Func func.now)) ≡ Some d) }
    ensures none { IfErr result (IsNoneOrNoMemory (read_at symbol kind bits words.now (Some (item.Func func.now)))) }
{
    if kind != 0 || func.body.is_none() {
        return Err(RowFault::NoDemand);
    }
    match pattern_of(alloc, func.params.as_slice(), bits, words) {
        Ok(pattern) => Ok(Demand::Func {
            func: symbol,
            pattern,
        }),
        Err(fault) => Err(fault),
    }
}

fn variable_of(
    symbol: Sym,
    var: &Var,
    kind: u64,
    bits: u64,
    words: &[u64],
) -> Result<Demand, RowFault>
    ensures found { IfOk result (λ d. read_at symbol kind bits words.now (Some (item.Var var.now)) ≡ Some d) }
    ensures none { IfErr result (IsNoneOrNoMemory (read_at symbol kind bits words.now (Some (item.Var var.now)))) }
{
    if kind != 1 || var.init.is_none() || bits != 0 || !words.is_empty() {
        return Err(RowFault::NoDemand);
    }
    Ok(Demand::Var { var: symbol })
}

fn item_at(modules: &[Module], symbol: Sym) -> Option<&Item>
    ensures { MatchOption result (item_at modules.now symbol ≡ None) (λ found. item_at modules.now symbol ≡ Some found.now) }
{
    match modules.get(symbol.module) {
        Some(module) => module.items.as_slice().get(symbol.item),
        None => None,
    }
}

fn symbol_of(place: u64) -> Sym
    ensures { result ≡ read_symbol place }
{
    Sym {
        module: (place / (1 << 33)) as usize,
        item: (place / 2 % (1 << 32)) as usize,
    }
}

fn demand_at(
    alloc: Global,
    modules: &[Module],
    place: u64,
    bits: u64,
    words: &[u64],
) -> Result<Demand, RowFault>
    ensures read { IfOk result (λ d. read_row modules.now (place ∷ bits ∷ words.now) ≡ Some d) }
    ensures none { IfErr result (IsNoneOrNoMemory (read_row modules.now (place ∷ bits ∷ words.now))) }
{
    let symbol = symbol_of(place);
    match item_at(modules, symbol) {
        Some(Item::Func(func)) => function_of(alloc, symbol, func, place % 2, bits, words),
        Some(Item::Var(var)) => variable_of(symbol, var, place % 2, bits, words),
        None => Err(RowFault::NoDemand),
    }
}

/// The demand of these modules that has this row: what `demand_of` answers for a program of them.
///
/// A demand is a variable with an initialiser, or a function with a body, where each item of the pattern is
/// unknown, a number below 2^w at an integer parameter of width w, or null at a `ptr` parameter. `NoDemand` says that no
/// demand of the modules has the row, and `OutOfMemory` that the allocator refused memory.
pub fn demand_among(alloc: Global, modules: &[Module], row: &Row) -> Result<Demand, RowFault>
    ensures found { IfOk result (λ d. IsDemand modules.now d × (words_of d ≡ row.now)) }
    ensures none { IfErr result (IsCause modules.now row.now) }
    // The same of what is read of the row, as the law of rows that are read has it.
    ensures read { IfOk result (λ d. read_row modules.now row.now ≡ Some d) }
    ensures none_read { IfErr result (IsNoneOrNoMemory (read_row modules.now row.now)) }
{
    let words = row.words();
    if words.len() < 2 {
        return Err(RowFault::NoDemand);
    }
    demand_at(alloc, modules, words[0], words[1], &words[2..])
}

/// The demand of a program that has this row.
///
/// A demand of a program is a variable with an initialiser, or a function with a body, where each item of the pattern is
/// unknown, a number below 2^w at an integer parameter of width w, or null at a `ptr` parameter. `NoDemand` says that no
/// demand of the program has the row, and `OutOfMemory` that the allocator refused memory.
pub fn demand_of(alloc: Global, p: &Program, row: &Row) -> Result<Demand, RowFault>
    ensures found { IfOk result (λ d. IsDemand p.now.modules d × (words_of d ≡ row.now)) }
    ensures none { IfErr result (IsCause p.now.modules row.now) }
    // The same of what is read of the row, as the law of rows that are read has it.
    ensures read { IfOk result (λ d. read_row p.now.modules row.now ≡ Some d) }
    ensures none_read { IfErr result (IsNoneOrNoMemory (read_row p.now.modules row.now)) }
{
    demand_among(alloc, p.modules(), row)
}
