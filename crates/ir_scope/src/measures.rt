//! How deep types nest and how many nodes they have.
ghost use Rattle.std.specs.Prelude.{◌≡◌, ◌⊎◌, ◌<◌, ◌≤◌, ◌+◌, ◌^◌, map, sum, IfSome, IfNone};
ghost use Rattle.ir_types.specs.Nesting.{nesting, nodes, greatest};

use ir_types::Ty;

/// How deep a type nests, and how many nodes it has.
#[derive(Clone, Copy)]
pub(crate) struct Measure {
    pub(crate) nesting: usize,
    pub(crate) nodes: usize,
}

/// The measure of a type that nests at most `depth` deep and has at most `most` nodes. It recurses no deeper than that, and looks
/// at no more nodes.
#[cycle(measure)]
pub(crate) fn measured(ty: &Ty, depth: usize, most: usize) -> Option<Measure>
    ensures nesting { IfSome result (λ m. (m.nesting ≡ nesting ty.now) × (m.nesting ≤ depth)) }
    ensures nodes { IfSome result (λ m. (m.nodes ≡ nodes ty.now) × (m.nodes ≤ most)) }
    ensures none { IfNone result ((depth < nesting ty.now) ⊎ (most < nodes ty.now)) }
{
    if most == 0 {
        return None;
    }
    match ty {
        Ty::One(_) => Some(Measure {
            nesting: 0,
            nodes: 1,
        }),
        Ty::Array(_, element) => {
            if depth == 0 {
                return None;
            }
            let element = measured(element.get(), depth - 1, most - 1)?;
            Some(Measure {
                nesting: element.nesting + 1,
                nodes: element.nodes + 1,
            })
        }
        Ty::Struct(fields) => {
            if depth == 0 {
                return None;
            }
            let fields = all_measured(fields.as_slice(), depth - 1, most - 1)?;
            Some(Measure {
                nesting: fields.nesting + 1,
                nodes: fields.nodes + 1,
            })
        }
    }
}

/// The greatest nesting of these types, and the sum of their nodes.
#[cycle(measure)]
fn all_measured(fields: &[Ty], depth: usize, most: usize) -> Option<Measure>
    ensures nesting { IfSome result (λ m. (m.nesting ≡ greatest (map nesting fields.now)) × (m.nesting ≤ depth)) }
    ensures nodes { IfSome result (λ m. (m.nodes ≡ sum (map nodes fields.now)) × (m.nodes ≤ most)) }
    ensures none { IfNone result ((depth < greatest (map nesting fields.now)) ⊎ (most < sum (map nodes fields.now))) }
{
    let mut all = Measure {
        nesting: 0,
        nodes: 0,
    };
    for field in fields {
        let field = measured(field, depth, most - all.nodes)?;
        all.nesting = all.nesting.max(field.nesting);
        all.nodes += field.nodes;
    }
    Some(all)
}
