//! Names of blocks and values that name them.
ghost use Rattle.std.specs.Prelude.{◌≡◌};
ghost use Rattle.block_memory.specs.Parts.{same_name};

use crate::{Name, Val};
use ir_syntax::Sym;

/// The same name again.
pub fn name_again(of: &Name<Sym>) -> Name<Sym>
    ensures { result ≡ of.now }
{
    match of {
        Name::Var(sym) => Name::Var(*sym),
        Name::Func(sym) => Name::Func(*sym),
        Name::Made(number) => Name::Made(*number),
    }
}

/// Whether two names are of one block.
pub fn is_same(a: &Name<Sym>, b: &Name<Sym>) -> bool
    ensures { result ≡ same_name a.now b.now }
{
    match a {
        Name::Var(one) => match b {
            Name::Var(other) => one.module == other.module && one.item == other.item,
            Name::Func(_) => false,
            Name::Made(_) => false,
        },
        Name::Func(one) => match b {
            Name::Var(_) => false,
            Name::Func(other) => one.module == other.module && one.item == other.item,
            Name::Made(_) => false,
        },
        Name::Made(one) => match b {
            Name::Var(_) => false,
            Name::Func(_) => false,
            Name::Made(other) => *one == *other,
        },
    }
}
