//! Laws of modules that are written. Each is the contract of a function that does nothing.
ghost use Rattle.std.specs.Prelude.{◌≡◌, false, All};
ghost use Rattle.ir_syntax.specs.declared.item.Module.{Module};
ghost use Rattle.ir_syntax.specs.Formed.{Formed};
ghost use Rattle.ir_syntax.specs.FormedBody.{item_name};
ghost use Rattle.ir_syntax.specs.FormedItem.{is_reserved};
ghost use Rattle.ir_syntax.specs.Straight.{IsStraight};
ghost use Rattle.ir_writer.specs.Ranges.{AreBytes, InRange};

/// A module of straight-line functions, none of whose names begins with `llvm.`, is formed; where its names are bytes, it
/// is in range.
pub fn straight_modules_are_written()
    ensures formed { (m : Module) → IsStraight m → All (λ i. is_reserved (item_name i) ≡ false) m.items → Formed m }
    ensures in_range { (m : Module) → IsStraight m → All (λ i. AreBytes (item_name i)) m.items → InRange m }
{}
