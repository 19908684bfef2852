//! Declarations, in the order of their names.
ghost use Rattle.std.specs.Prelude.{◌≡◌, ◌∷◌, [], Some, All, IfOk, IsPermutation, IsSorted, map, refl};
ghost use Rattle.std.specs.Cmp.{partial_equiv_from_equiv, partial_order_from_total};
ghost use Rattle.std.specs.Ordering.{eq_by_cmp};
ghost use Rattle.ir_syntax.specs.FormedBody.{item_name};
ghost use Rattle.demands.specs.Order.{symbol_of as symbol_in};
ghost use Rattle.demands.specs.Rows.{IsShortSymbol};
ghost use Rattle.winnowed_form.specs.Items.{declaration, declared_func};
ghost use Rattle.reach_prune.specs.Mirrors.Members.{IsThere};
ghost use Rattle.reach_prune.specs.Mirrors.Noting.{HasItem};
ghost use Rattle.reach_prune.specs.Mirrors.Shown.{shown};
ghost use Rattle.reach_prune.specs.Ordered.{declared_order, declared_total, declared_equiv};

use crate::copies::{staying, written_name};
use crate::grounds::Grounds;
use crate::kept::kept_params;
use demands::Demand;
use interface::item_of;
use ir_syntax::{Func, Item, Linkage, Sym};
use ir_types::{Copied, OutOfMemory};
use std::alloc::Global;
use std::cmp::Ordering;
use winnowed_form::Named;

/// A name with its declaration. They are ordered by the bytes of the name.
#[derive(Debug, Drop)]
pub(crate) struct Declared {
    pub(crate) named: Named,
    pub(crate) item: Item,
}

pub(crate) fn name_of(item: &Item) -> &[u8]
    ensures { result.now ≡ item_name item.now }
{
    match item {
        Item::Var(var) => var.name.as_slice(),
        Item::Func(func) => func.name.as_slice(),
    }
}

fn name_cmp(a: &Declared, b: &Declared) -> Ordering
    ensures { result ≡ declared_order a.now b.now }
{
    name_of(&a.item).cmp(name_of(&b.item))
}

impl PartialEq for Declared {
    ghost eq = { eq_by_cmp declared_order };

    ghost laws = { partial_equiv_from_equiv declared_equiv };

    fn eq(&self, other: &Declared) -> bool {
        name_cmp(self, other).is_eq()
    }
}

impl Eq for Declared {
    ghost laws = { declared_equiv };
}

impl PartialOrd for Declared {
    ghost partial_cmp = { λ a b. Some (declared_order a b) };

    ghost laws = { partial_order_from_total declared_total };

    fn partial_cmp(&self, other: &Declared) -> Option<Ordering> {
        Some(self.cmp(other))
    }
}

impl Ord for Declared {
    ghost cmp = { λ a b. declared_order a b };

    ghost total = { declared_total };

    ghost matches_partial_cmp = { λ a b. refl };

    ghost matches_eq = { λ a b. refl };

    fn cmp(&self, other: &Declared) -> Ordering {
        name_cmp(self, other)
    }
}

/// The declaration of a copy.
fn declared_copy(
    alloc: Global,
    g: &Grounds<'_>,
    d: &Demand,
    func: &Func,
) -> Result<Func, OutOfMemory>
    requires short { IsShortSymbol (symbol_in d.now) }
    ensures { IfOk result (λ made. made ≡ declared_func (shown g.now) d.now func.now) }
{
    let stays = staying(alloc, g, d, func)?;
    Ok(Func {
        name: written_name(alloc, g, d, func)?,
        linkage: Linkage::External,
        returns: func.returns,
        ret_ext: func.ret_ext,
        params: kept_params(alloc, &stays, func.params.as_slice())?,
        variadic: func.variadic,
        body: None,
    })
}

/// The symbol of the demanded item.
pub(crate) fn symbol_of(d: &Demand) -> Sym
    ensures { result ≡ symbol_in d.now }
{
    match d {
        Demand::Func { func, .. } => *func,
        Demand::Var { var } => *var,
    }
}

/// The declaration of what is written as the name in the module `home`.
fn declaration_of(
    alloc: Global,
    g: &Grounds<'_>,
    home: usize,
    named: &Named,
) -> Result<Item, OutOfMemory>
    requires there { IsThere (shown g.now) home named.now }
    ensures { IfOk result (λ item. declaration (shown g.now) home named.now ≡ item ∷ []) }
{
    match named {
        Named::Own(k) => {
            let symbol = Sym {
                module: home,
                item: *k,
            };
            match item_of(g.program, symbol) {
                Some(item) => item.copied(alloc),
                None => unreachable!(),
            }
        }
        Named::CopyOf(d) => match item_of(g.program, symbol_of(d)) {
            Some(Item::Func(func)) => Ok(Item::Func(declared_copy(alloc, g, d, func)?)),
            Some(Item::Var(_)) => unreachable!(),
            None => unreachable!(),
        },
    }
}

/// A name with its declaration.
fn declared_by(
    alloc: Global,
    g: &Grounds<'_>,
    home: usize,
    named: &Named,
) -> Result<Declared, OutOfMemory>
    requires there { IsThere (shown g.now) home named.now }
    ensures named { IfOk result (λ made. made.named ≡ named.now) }
    ensures item { IfOk result (HasItem (shown g.now) home) }
{
    let item = declaration_of(alloc, g, home, named)?;
    Ok(Declared {
        named: named.copy(alloc)?,
        item,
    })
}

/// These names with their declarations.
fn declared_of(
    alloc: Global,
    g: &Grounds<'_>,
    home: usize,
    names: &[Named],
) -> Result<Vec<Declared>, OutOfMemory>
    requires there { All (IsThere (shown g.now) home) names.now }
    ensures named { IfOk result (λ made. map (λ declared. declared.named) made.items ≡ names.now) }
    ensures items { IfOk result (λ made. All (HasItem (shown g.now) home) made.items) }
{
    let mut made = Vec::new(alloc);
    for named in names {
        made.push(declared_by(alloc, g, home, named)?)?;
    }
    Ok(made)
}

/// These names with their declarations, in byte order of names.
pub(crate) fn declared_in_order(
    alloc: Global,
    g: &Grounds<'_>,
    home: usize,
    names: &[Named],
) -> Result<Vec<Declared>, OutOfMemory>
    requires there { All (IsThere (shown g.now) home) names.now }
    ensures named { IfOk result (λ made. IsPermutation names.now (map (λ declared. declared.named) made.items)) }
    ensures items { IfOk result (λ made. All (HasItem (shown g.now) home) made.items) }
    ensures order { IfOk result (λ made. IsSorted declared_order made.items) }
{
    let mut made = declared_of(alloc, g, home, names)?;
    made.sort_unstable();
    Ok(made)
}
