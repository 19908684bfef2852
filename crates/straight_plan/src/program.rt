//! Programs of one module of straight-line functions.
ghost use Rattle.std.specs.Prelude.{◌≡◌, ◌∷◌, [], IfOk};
ghost use Rattle.ir_syntax.specs.Straight.{IsStraight, IsStraightProgram};

use ir_syntax::Module;
use ir_types::{List, OutOfMemory};
use std::alloc::Global;
use std::marker::Model;

/// A program of one module of straight-line functions over i32.
#[derive(Debug, Drop)]
pub struct StraightProgram {
    linked: List<Module>,
}

impl Model for StraightProgram {
    ghost use Rattle.std.specs.Prelude.{List};
    ghost use Rattle.ir_syntax.specs.declared.item.Module.{Module};
    ghost use Rattle.ir_syntax.specs.Straight.{IsStraightProgram};
    ghost use Rattle.ir_types.specs.contracts.shape.Ty as ty;
    ghost use Rattle.ir_syntax.specs.contracts.constant.Const as constant;
    ghost use Rattle.std.specs.Coded.{codes};

    ghost Value = { List Module };

    ghost view = { λ p. p.linked };

    ghost coded = { Prim.hlevel (codes, ty.the_row.coded, constant.the_row.coded) };

    ghost invariant = { λ p. IsStraightProgram p.linked };
}

impl StraightProgram {
    /// The program of one module. The error is want of memory.
    pub fn of(alloc: Global, module: Module) -> Result<StraightProgram, OutOfMemory>
        requires straight { IsStraight «module» }
        ensures { IfOk result (λ p. p ≡ «module» ∷ []) }
    {
        let mut linked = List::new(alloc);
        linked.push(module)?;
        Ok(StraightProgram { linked })
    }

    /// The modules of the program: the one.
    pub fn modules(&self) -> &[Module]
        ensures modules { result.now ≡ self.now }
        ensures straight { IsStraightProgram self.now }
    {
        self.linked.as_slice()
    }
}
