//! What holds of the numbers that operations give. These functions do nothing: what they ensure is the law.
ghost use Rattle.std.specs.Prelude.{◌≡◌, ◌<◌, ℕ, Bool, IsTrue, Option, IfSome};
ghost use Rattle.ir_types.specs.declared.scalar.Scalar.TheVariants.{I1};
ghost use Rattle.ir_types.specs.declared.scalar.CastOp.TheVariants.{Zext};
ghost use Rattle.ir_types.specs.Scalars.{width, IsInteger, is_number_of};
ghost use Rattle.int_ops.specs.Binary.{bin_outcome};
ghost use Rattle.int_ops.specs.Casts.{cast_outcome};
ghost use Rattle.int_ops.specs.PoisonOperands.{bin_of_values, cast_of_value, icmp_of_values};
ghost use Rattle.int_ops.specs.declared.outcome.Outcome.TheVariants.{Num};

use ir_types::{BinOp, CastOp, Flags, Pred, Scalar};

/// A number that an operation gives of numbers of a type is one of that type, also where an operand may be poison.
pub fn results_are_of_their_type()
    ensures numbers { (op : BinOp) (flags : Flags) (ty : Scalar) (a b n : ℕ) → IsTrue (is_number_of ty a)
        → IsTrue (is_number_of ty b) → bin_outcome op flags ty a b ≡ Num n → IsTrue (is_number_of ty n) }
    ensures values { (op : BinOp) (flags : Flags) (ty : Scalar) (a b : Option ℕ) (n : ℕ)
        → IfSome a (λ m. IsTrue (is_number_of ty m)) → IfSome b (λ m. IsTrue (is_number_of ty m))
        → bin_of_values op flags ty a b ≡ Num n → IsTrue (is_number_of ty n) }
{}

/// A number that a cast gives is one of the type that it goes to, which at `zext` is the wider one.
pub fn casts_are_of_their_type()
    ensures numbers { (op : CastOp) (nneg : Bool) (from to : Scalar) (a n : ℕ) → IsInteger to → (op ≡ Zext → width from < width to)
        → IsTrue (is_number_of from a) → cast_outcome op nneg from to a ≡ Num n → IsTrue (is_number_of to n) }
    ensures values { (op : CastOp) (nneg : Bool) (from to : Scalar) (a : Option ℕ) (n : ℕ) → IsInteger to → (op ≡ Zext → width from < width to)
        → IfSome a (λ m. IsTrue (is_number_of from m)) → cast_of_value op nneg from to a ≡ Num n → IsTrue (is_number_of to n) }
{}

/// A number that a comparison gives is one of i1.
pub fn comparisons_are_bits()
    ensures { (pred : Pred) (ty : Scalar) (a b : Option ℕ) (n : ℕ) → icmp_of_values pred ty a b ≡ Num n
        → IsTrue (is_number_of I1 n) }
{}
