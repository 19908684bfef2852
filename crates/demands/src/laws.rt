//! Laws of demands. Each is the contract of a function that does nothing.
ghost use Rattle.std.specs.Prelude.{◌≡◌, ◌≤◌, ◌↔◌, ℕ, List, length, false, Some};
ghost use Rattle.std.specs.declared.cmp.Ordering.TheVariants.{Equal};
ghost use Rattle.std.specs.Cmp.{IsTotalOrder};
ghost use Rattle.std.specs.Cmp.Lexicographic.{slice_cmp};
ghost use Rattle.std.specs.Ordering.{nat_cmp};
ghost use Rattle.ir_types.specs.declared.scalar.Known.{Known};
ghost use Rattle.ir_syntax.specs.declared.item.Module.{Module};
ghost use Rattle.demands.specs.declared.demand.Demand.{Demand};
ghost use Rattle.demands.specs.Order.{symbol_of, demand_order};
ghost use Rattle.demands.specs.Names.{are_unknown, copy_name, AreWords};
ghost use Rattle.demands.specs.Rows.{words_of, IsShortSymbol, FitsRow, IsInRowOrder};
ghost use Rattle.demands.specs.Demands.{IsDemand};
ghost use Rattle.demands.specs.Reading.{read_row};

/// The order of demands is total, and ties a demand with itself alone. For two variables, and for two functions of
/// different places, it is the order of their rows.
pub fn demands_are_ordered()
    ensures total { IsTotalOrder demand_order }
    ensures equal { (a b : Demand) → (demand_order a b ≡ Equal) ↔ (a ≡ b) }
    ensures rows { (a b : Demand) → IsShortSymbol (symbol_of a) → IsShortSymbol (symbol_of b) → IsInRowOrder a b
        → slice_cmp nat_cmp (words_of a) (words_of b) ≡ demand_order a b }
{}

/// Two copies of which something is known have one name only where they have one pattern and their functions one name.
pub fn names_are_apart()
    ensures { (p q : List Known) (f g : List ℕ) → AreWords p → AreWords q → are_unknown p ≡ false → are_unknown q ≡ false
        → copy_name p f ≡ copy_name q g → (p ≡ q) × (f ≡ g) }
{}

/// Two demands that rows can hold have one row only where they are one demand. So a row is that of one demand of a
/// program at most, and each demand is found again from its row.
pub fn rows_are_apart()
    ensures rows { (a b : Demand) → FitsRow a → FitsRow b → words_of a ≡ words_of b → a ≡ b }
    ensures demands { (modules : List Module) (row : List ℕ) (d e : Demand) → length row ≤ 34
        → IsDemand modules d → IsDemand modules e → words_of d ≡ row → words_of e ≡ row → d ≡ e }
{}

/// What is read of a row is a demand of the program that has the row, and each demand of the program is read from its row.
pub fn rows_are_read()
    ensures found { (modules : List Module) (row : List ℕ) (d : Demand) → read_row modules row ≡ Some d
        → IsDemand modules d × (words_of d ≡ row) }
    ensures all { (modules : List Module) (row : List ℕ) (d : Demand) → length row ≤ 34 → IsDemand modules d → words_of d ≡ row
        → read_row modules row ≡ Some d }
{}
