//! Laws of the definitions.
ghost use Rattle.std.specs.Prelude.{◌≡◌, ℕ, List, Some, IsTrue};
ghost use Rattle.ir_types.specs.declared.shape.Ty.{Ty};
ghost use Rattle.ir_scope.specs.Types.{fits};
ghost use Rattle.type_names.specs.TypeNames.{Named, stands_for};

/// A law, with nothing to run: a type that a name stands for nests at most 64 deep and has at most 4,096 nodes.
pub fn type_names_fit()
    ensures { (types : List Named) (name : List ℕ) (ty : Ty) → stands_for types name ≡ Some ty → IsTrue (fits ty) }
{}
