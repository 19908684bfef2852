//! Types as they are written.
ghost use Rattle.std.specs.Prelude.{◌≡◌, ◌<◌, ◌≤◌, ◌+◌, ◌^◌, ◌∷◌, [], ◌++◌, Some, None, IsTrue, length, drop, map, max, sum, option_map, IfOk, IfSome, IfNone, MatchBool, OnErr};
ghost use Rattle.ir_types.specs.Nesting.{nesting as type_nesting, nodes as type_nodes, greatest};
ghost use Rattle.ir_types.specs.declared.shape.Ty.TheBlock.{One};
ghost use Rattle.ir_types.specs.declared.shape.Ty.TheViews.{Array};
ghost use Rattle.ir_syntax.specs.Suits.{IsType};
ghost use Rattle.ir_lexer.specs.Texts.{name_of};
ghost use Rattle.ir_grammar.specs.Tokens.{seen};
ghost use Rattle.ir_scope.specs.Runs.{behind, runs, begins_with};
ghost use Rattle.ir_scope.specs.Scopes.{type_among};
ghost use Rattle.ir_scope.specs.Types.{is_close_brace, begins_field, type_named, type_at, written_type, fitting, fits};
ghost use Rattle.ir_scope.specs.Mirrors.Reads.{array_at, struct_at, struct_of};

use crate::integers::number_of;
use crate::measures::measured;
use crate::scope::Scope;
use ir_grammar::{Lexeme, Shape};
use ir_lexer::{Kind, Token, decode, undecoded};
use ir_types::{Boxed, Copied, List, OutOfMemory, Scalar, Ty, is_name};
use std::alloc::Global;

/// How deep a written type nests at most.
const DEEPEST: usize = 64;

/// The most nodes of a written type.
const MOST_NODES: usize = 4096;

/// A type that was read, how many lexemes spell it, how deep it nests and how many nodes it has.
#[derive(Drop)]
struct Found {
    ty: Ty,
    taken: usize,
    nesting: usize,
    nodes: usize,
    ghost measured: { (nesting ≡ type_nesting ty) × (nodes ≡ type_nodes ty) },
    ghost fits: { (0 < taken) × (nesting ≤ 64) × (nodes ≤ 4096) },
}

/// The fields of a struct that were read, how many lexemes spell them, how deep they nest and how many nodes they have.
#[derive(Drop)]
struct Fields {
    types: List<Ty>,
    taken: usize,
    nesting: usize,
    nodes: usize,
    ghost measured: { (nesting ≡ greatest (map type_nesting types)) × (nodes ≡ sum (map type_nodes types)) },
    ghost fits: { (nesting ≤ 64) × (nodes ≤ 4095) },
}

/// A scalar.
fn one(scalar: Scalar) -> Found
    ensures ty { result.ty ≡ One scalar }
    ensures taken { result.taken ≡ 1 }
{
    Found {
        ty: Ty::One(scalar),
        taken: 1,
        nesting: 0,
        nodes: 1,
    }
}

/// What the name stands for: nothing, where it breaks the limits on names.
fn known(alloc: Global, scope: &Scope, name: &[u8]) -> Result<Option<Found>, OutOfMemory>
    ensures exact { IfOk result (λ found. option_map (λ f. (f.ty, f.taken)) found ≡ fitting (option_map (λ ty. (ty, 1)) (type_named (type_among scope.now.types) name.now))) }
    ensures taken { IfOk result (λ found. IfSome found (λ f. f.taken ≡ 1)) }
{
    if !is_name(name) {
        return Ok(None);
    }
    let ty = match scope.lookup_type(name) {
        Some(ty) => ty,
        None => return Ok(None),
    };
    match measured(ty, DEEPEST, MOST_NODES) {
        Some(measure) => Ok(Some(Found {
            ty: ty.copied(alloc)?,
            taken: 1,
            nesting: measure.nesting,
            nodes: measure.nodes,
        })),
        None => Ok(None),
    }
}

/// What `%name` stands for.
fn named(alloc: Global, scope: &Scope, text: &[u8]) -> Result<Option<Found>, OutOfMemory>
    ensures exact { IfOk result (λ found. option_map (λ f. (f.ty, f.taken)) found ≡ fitting (option_map (λ ty. (ty, 1)) (type_named (type_among scope.now.types) (name_of (drop 1 text.now))))) }
    ensures taken { IfOk result (λ found. IfSome found (λ f. f.taken ≡ 1)) }
{
    let token = Token {
        kind: Kind::LocalName,
        from: 0,
        to: text.len(),
    };
    match undecoded(text, token) {
        Some(name) => known(alloc, scope, name),
        None => {
            let name = decode(alloc, text, token)?;
            known(alloc, scope, name.as_slice())
        }
    }
}

/// The array of so many elements of a type, where it isn't too large.
fn array_of(alloc: Global, count: u64, element: Found) -> Result<Option<Found>, OutOfMemory>
    requires { element.taken + 2 < 2 ^ 64 }
    ensures exact { IfOk result (λ found. option_map (λ f. (f.ty, f.taken)) found ≡ fitting (Some (Array count element.ty, 2 + element.taken))) }
    ensures taken { IfOk result (λ found. IfSome found (λ f. f.taken ≡ 2 + element.taken)) }
{
    if element.nesting >= DEEPEST || element.nodes >= MOST_NODES {
        return Ok(None);
    }
    let nesting = element.nesting + 1;
    let nodes = element.nodes + 1;
    let taken = element.taken + 2;
    Ok(Some(Found {
        ty: Ty::Array(count, Boxed::new(alloc, element.ty)?),
        taken,
        nesting,
        nodes,
    }))
}

impl Fields {
    /// No fields. Takes no memory.
    fn new(alloc: Global) -> Fields
        ensures types { result.types ≡ [] }
        ensures taken { result.taken ≡ 0 }
    {
        Fields {
            types: List::new(alloc),
            taken: 0,
            nesting: 0,
            nodes: 0,
        }
    }

    /// Adds a field at the end, unless a struct would then have too many nodes: then the answer is false.
    fn add(&mut self, field: Found) -> Result<bool, OutOfMemory>
        requires { self.old.taken + field.taken < 2 ^ 64 }
        ensures added { IfOk result (λ added. MatchBool added
            ((self.new.types ≡ self.old.types ++ field.ty ∷ []) × (self.new.taken ≡ self.old.taken + field.taken))
            (4096 < sum (map type_nodes (self.old.types ++ field.ty ∷ [])) + 1)) }
    {
        let nodes = self.nodes + field.nodes;
        if nodes >= MOST_NODES {
            return Ok(false);
        }
        self.types.push(field.ty)?;
        self.taken += field.taken;
        self.nesting = self.nesting.max(field.nesting);
        self.nodes = nodes;
        Ok(true)
    }
}

/// Whether a closing brace stands here.
fn closes(kept: &[Lexeme]) -> bool
    ensures { result ≡ begins_with is_close_brace (seen kept.now) }
{
    match kept {
        [first, ..] => first.shape == Shape::CloseBrace,
        [] => false,
    }
}

/// Whether a field begins here: anything but a closing brace.
fn is_field(kept: &[Lexeme]) -> bool
    ensures { result ≡ begins_with begins_field (seen kept.now) }
{
    match kept {
        [first, ..] => first.shape != Shape::CloseBrace,
        [] => false,
    }
}

/// The struct of these fields, where a closing brace stands behind them and it isn't too large.
fn struct_of(kept: &[Lexeme], fields: Fields) -> Option<Found>
    requires { fields.taken ≤ length kept.now }
    ensures exact { option_map (λ f. (f.ty, f.taken)) result ≡ struct_of (seen kept.now) (Some (fields.types, fields.taken)) }
    ensures taken { IfSome result (λ f. f.taken ≤ length kept.now + 1) }
{
    if fields.nesting >= DEEPEST || !closes(&kept[fields.taken..]) {
        return None;
    }
    Some(Found {
        taken: fields.taken + 2,
        nesting: fields.nesting + 1,
        nodes: fields.nodes + 1,
        ty: Ty::Struct(fields.types),
    })
}

/// The type at the front of kept lexemes, where so many arrays and structs may be open.
#[cycle(types)]
fn type_at(
    alloc: Global,
    scope: &Scope,
    depth: usize,
    kept: &[Lexeme],
) -> Result<Option<Found>, OutOfMemory>
    requires { depth ≤ 64 }
    ensures exact { IfOk result (λ found. option_map (λ f. (f.ty, f.taken)) found ≡ type_at (type_among scope.now.types) depth (seen kept.now)) }
    ensures within { IfOk result (λ found. IfSome found (λ f. f.taken ≤ length kept.now)) }
{
    match kept {
        [first, rest @ ..] => match first.shape {
            Shape::Scalar(scalar) => Ok(Some(one(scalar))),
            Shape::Local => named(alloc, scope, first.text),
            Shape::OpenSquare => array_at(alloc, scope, depth, rest),
            Shape::OpenBrace => struct_at(alloc, scope, depth, rest),
            _ => Ok(None),
        },
        [] => Ok(None),
    }
}

/// The array whose number of elements and type stand at the front.
#[cycle(types)]
fn array_at(
    alloc: Global,
    scope: &Scope,
    depth: usize,
    kept: &[Lexeme],
) -> Result<Option<Found>, OutOfMemory>
    requires { depth ≤ 64 }
    ensures exact { IfOk result (λ found. option_map (λ f. (f.ty, f.taken)) found ≡ array_at (type_among scope.now.types) depth (seen kept.now)) }
    ensures within { IfOk result (λ found. IfSome found (λ f. f.taken ≤ length kept.now + 1)) }
{
    if depth == 0 {
        return Ok(None);
    }
    match kept {
        [first, rest @ ..] => match (first.shape, number_of(first.text)) {
            (Shape::Int(_), Some(count)) => match type_at(alloc, scope, depth - 1, rest)? {
                Some(element) => array_of(alloc, count, element),
                None => Ok(None),
            },
            _ => Ok(None),
        },
        [] => Ok(None),
    }
}

/// The struct whose fields stand at the front.
#[cycle(types)]
fn struct_at(
    alloc: Global,
    scope: &Scope,
    depth: usize,
    kept: &[Lexeme],
) -> Result<Option<Found>, OutOfMemory>
    requires { depth ≤ 64 }
    ensures exact { IfOk result (λ found. option_map (λ f. (f.ty, f.taken)) found ≡ struct_at (type_among scope.now.types) depth (seen kept.now)) }
    ensures within { IfOk result (λ found. IfSome found (λ f. f.taken ≤ length kept.now + 1)) }
{
    if depth == 0 {
        return Ok(None);
    }
    match read_fields(alloc, scope, depth - 1, kept)? {
        Some(fields) => Ok(struct_of(kept, fields)),
        None => Ok(None),
    }
}

/// The fields up to a closing brace or the end. It leaves as soon as a struct of them would have too many nodes.
#[cycle(types)]
fn read_fields(
    alloc: Global,
    scope: &Scope,
    depth: usize,
    kept: &[Lexeme],
) -> Result<Option<Fields>, OutOfMemory>
    requires { depth ≤ 64 }
    ensures some { IfOk result (λ found. IfSome found (λ f. Some (f.types, f.taken) ≡ runs begins_field (type_at (type_among scope.now.types) depth) (seen kept.now))) }
    ensures none { IfOk result (λ found. IfNone found (struct_of (seen kept.now) (runs begins_field (type_at (type_among scope.now.types) depth) (seen kept.now)) ≡ None)) }
    ensures within { IfOk result (λ found. IfSome found (λ f. f.taken ≤ length kept.now)) }
{
    let mut fields = Fields::new(alloc);
    'reading: while is_field(&kept[fields.taken..]) {
        match type_at(alloc, scope, depth, &kept[fields.taken..])? {
            Some(field) => {
                if !fields.add(field)? {
                    return Ok(None);
                }
            }
            None => return Ok(None),
        }
    }
    Ok(Some(fields))
}

/// Reads the type at the front of kept lexemes: a scalar, `[n x T]` with n below 2^64, `{ T, T }`, or a name, which stands for
/// its type of the scope; one that doesn't have 1 to 4,096 bytes, or has a zero byte, stands for nothing. The type comes with
/// the number of lexemes that spell it. `None` comes exactly where no type stands there that nests at most 64 deep and has at
/// most 4,096 nodes, in the text and with its names put in; LLVM's Language Reference, "Type System", has the forms. The error
/// is want of memory.
pub fn read_type(
    alloc: Global,
    scope: &Scope,
    kept: &[Lexeme],
) -> Result<Option<(Ty, usize)>, OutOfMemory>
    ensures exact { IfOk result (λ found. found ≡ written_type (type_among scope.now.types) (seen kept.now)) }
    ensures some { IfOk result (λ found. IfSome found (λ f. 0 < f.1)) }
    ensures within { IfOk result (λ found. IfSome found (λ f. f.1 ≤ length kept.now)) }
    ensures fits { IfOk result (λ found. IfSome found (λ f. IsTrue (fits f.0))) }
    ensures is_type { IfOk result (λ found. IfSome found (λ f. IsType f.0)) }
{
    match type_at(alloc, scope, DEEPEST, kept)? {
        Some(found) => Ok(Some((found.ty, found.taken))),
        None => Ok(None),
    }
}
