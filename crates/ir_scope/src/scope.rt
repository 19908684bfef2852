//! What names stand for.
ghost use Rattle.std.specs.Prelude.{◌≡◌, ◌∷◌, [], ◌++◌, IsTrue, length, map, IfOk, OnOk, OnErr, IfErr};
ghost use Rattle.std.specs.Option.{option_copied};
ghost use Rattle.name_table.specs.Places.{place_among, are_distinct};
ghost use Rattle.ir_scope.specs.Doubled.{IsCause};
ghost use Rattle.ir_scope.specs.Mirrors.Placed.{ArePlaces};
ghost use Rattle.ir_scope.specs.Scopes.{Names, type_among, is_at, is_intrinsic_place};

use crate::places::Places;
use ir_types::{Bytes, OutOfMemory, Ty};
use sqlite_items::Items as List;
use std::alloc::Global;
use std::marker::Model;

/// Why there is no scope.
#[derive(Clone, Copy, Debug, PartialEq, Eq)]
pub enum ScopeFault {
    /// The place, counted from 0 through the types and then the symbols, of the first name that stands earlier in its
    /// own list.
    Doubled { at: usize },
    /// The allocator refused memory.
    OutOfMemory,
}

/// The names of a module: those of its types, each with its type, and those of its items in their order. Contracts see
/// both lists.
#[derive(Drop)]
pub struct Scope {
    types: List<(Bytes, Ty)>,
    symbols: List<Bytes>,
    type_places: Places,
    symbol_places: Places,
    ghost typed: { ArePlaces (map (λ e. (e.0.items, e.1)) type_places.first.entries) type_places.doubled (map (λ t. t.0) types) },
    ghost named: { ArePlaces (map (λ e. (e.0.items, e.1)) symbol_places.first.entries) symbol_places.doubled symbols },
}

impl Model for Scope {
    ghost use Rattle.ir_scope.specs.Scopes.{Names};
    ghost use Rattle.ir_types.specs.contracts.shape.Ty as ty;
    ghost use Rattle.std.specs.Coded.{codes};

    ghost Value = { Names };

    ghost view = { λ s. record { types = s.types; symbols = s.symbols } };

    ghost coded = { Prim.hlevel (codes, ty.the_row.coded) };
}

/// The places of the names of types.
fn type_places(alloc: Global, types: &[(Bytes, Ty)]) -> Result<Places, OutOfMemory>
    ensures { IfOk result (λ places. ArePlaces (map (λ e. (e.0.items, e.1)) places.first.entries) places.doubled (map (λ t. t.0) types.now)) }
{
    let mut places = Places::new(alloc);
    for (at, named) in types.iter().enumerate() {
        places.add(alloc, named.0.as_slice(), at)?;
    }
    Ok(places)
}

/// The places of the names of items.
fn symbol_places(alloc: Global, symbols: &[Bytes]) -> Result<Places, OutOfMemory>
    ensures { IfOk result (λ places. ArePlaces (map (λ e. (e.0.items, e.1)) places.first.entries) places.doubled symbols.now) }
{
    let mut places = Places::new(alloc);
    for (at, name) in symbols.iter().enumerate() {
        places.add(alloc, name.as_slice(), at)?;
    }
    Ok(places)
}

impl Scope {
    /// The scope of these types and of items with these names, in order. `Doubled` comes exactly where two of the types
    /// or two of the items have one name: LLVM's Language Reference gives each type and each global value a name of its
    /// own. `OutOfMemory` comes where the allocator refuses memory.
    pub fn new(
        alloc: Global,
        types: List<(Bytes, Ty)>,
        symbols: List<Bytes>,
    ) -> Result<Scope, ScopeFault>
        ensures made { IfOk result (λ scope. scope ≡ record { types = types; symbols = symbols }) }
        ensures distinct_types { OnOk result (IsTrue (are_distinct (map (λ t. t.0) types))) }
        ensures distinct_symbols { OnOk result (IsTrue (are_distinct symbols)) }
        ensures doubled { IfErr result (λ fault. IsCause (map (λ t. t.0) types) symbols fault) }
    {
        let scope = match Scope::first_of(alloc, types, symbols) {
            Ok(scope) => scope,
            Err(OutOfMemory) => return Err(ScopeFault::OutOfMemory),
        };
        if let Some(at) = scope.type_places.doubled() {
            return Err(ScopeFault::Doubled { at });
        }
        match scope.symbol_places.doubled() {
            Some(place) => Err(ScopeFault::Doubled {
                at: scope.type_places.len() + place,
            }),
            None => Ok(scope),
        }
    }

    /// The same, where the first of types or of items with one name counts. The error is want of memory.
    pub fn first_of(
        alloc: Global,
        types: List<(Bytes, Ty)>,
        symbols: List<Bytes>,
    ) -> Result<Scope, OutOfMemory>
        ensures made { IfOk result (λ scope. scope ≡ record { types = types; symbols = symbols }) }
    {
        let type_places = type_places(alloc, types.as_slice())?;
        let symbol_places = symbol_places(alloc, symbols.as_slice())?;
        Ok(Scope {
            types,
            symbols,
            type_places,
            symbol_places,
        })
    }

    /// Adds a type at the end of the types: an earlier one of this name counts more. Where memory is refused, nothing
    /// changes.
    pub fn add_type(&mut self, alloc: Global, name: &[u8], ty: Ty) -> Result<(), OutOfMemory>
        ensures types { OnOk result (self.new.types ≡ self.old.types ++ (name.now, ty) ∷ []) }
        ensures symbols { OnOk result (self.new.symbols ≡ self.old.symbols) }
        ensures err { OnErr result (self.new ≡ self.old) }
    {
        let at = self.types.len();
        let owned = Bytes::from_slice(alloc, name)?;
        self.types.push((owned, ty))?;
        match self.type_places.add(alloc, name, at) {
            Ok(()) => Ok(()),
            Err(fault) => {
                self.types.pop();
                Err(fault)
            }
        }
    }

    /// The place of the first item of this name. It is found by hash, and takes no memory.
    pub fn lookup_symbol(&self, name: &[u8]) -> Option<usize>
        ensures { result ≡ place_among name.now self.now.symbols }
    {
        self.symbol_places.place_of(name)
    }

    /// The first type of this name. It is found by hash, and takes no memory.
    pub fn lookup_type(&self, name: &[u8]) -> Option<&Ty>
        ensures { option_copied result ≡ type_among self.now.types name.now }
    {
        let at = self.type_places.place_of(name)?;
        let named = self.types.get(at)?;
        Some(&named.1)
    }

    /// How many items have names here.
    pub fn symbol_count(&self) -> usize
        ensures { result ≡ length self.now.symbols }
    {
        self.symbols.len()
    }

    /// Whether the name stands for the item at the place.
    fn is_at(&self, name: &[u8], place: usize) -> bool
        ensures { result ≡ is_at (place_among name.now self.now.symbols) place }
    {
        match self.lookup_symbol(name) {
            Some(found) => found == place,
            None => false,
        }
    }

    /// Whether the item at the place has the name of an intrinsic that copies or fills memory.
    pub fn is_intrinsic(&self, place: usize) -> bool
        ensures { result ≡ is_intrinsic_place self.now.symbols place }
    {
        self.is_at(b"llvm.memcpy.p0.p0.i64", place)
            || self.is_at(b"llvm.memmove.p0.p0.i64", place)
            || self.is_at(b"llvm.memset.p0.i64", place)
    }
}
