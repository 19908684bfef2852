//! Laws of texts that are written or read. Each is the contract of a function that does nothing.
ghost use Rattle.std.specs.Prelude.{◌≡◌, List, ℕ};
ghost use Rattle.ir_syntax.specs.declared.item.Module.{Module};
ghost use Rattle.ir_syntax.specs.Formed.{Formed};
ghost use Rattle.ir_parser.specs.Spelled.{Spells};
ghost use Rattle.ir_writer.specs.Modules.{module_text};
ghost use Rattle.ir_writer.specs.Ranges.{AreBytes, InRange};

use ir_grammar::walk_takes_what_is_derived;
use ir_parser::{a_text_spells_one_module, what_is_spelled_is_formed};

/// The canonical text of a module spells it: reading what was written gives the module back.
pub fn what_is_written_is_read_again()
    ensures { (m : Module) → Formed m → InRange m → Spells (module_text m) m }
{
    walk_takes_what_is_derived();
}

/// Two modules with one text are one.
pub fn modules_of_one_text_are_one()
    ensures { (m n : Module) → Formed m → InRange m → Formed n → InRange n → module_text m ≡ module_text n → m ≡ n }
{
    a_text_spells_one_module();
    what_is_written_is_read_again();
}

/// A module that a text of bytes spells has the numbers of the machine: bytes below 256, counts below 2^64 and offsets of
/// 64 bits.
pub fn what_is_spelled_is_in_range()
    ensures { (text : List ℕ) (m : Module) → AreBytes text → Spells text m → InRange m }
{}

/// The canonical text of a module that a text of bytes spells is read as that module again.
pub fn what_was_read_is_read_again()
    ensures { (text : List ℕ) (m : Module) → AreBytes text → Spells text m → Spells (module_text m) m }
{
    what_is_spelled_is_formed();
    what_is_spelled_is_in_range();
    what_is_written_is_read_again();
}
