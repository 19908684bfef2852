//! From the text of a module to the module.
ghost use Rattle.std.specs.Prelude.{◌≡◌, ◌⊎◌, Result, Ok, Err, IfOk, IfErr};
ghost use Rattle.ir_lexer.specs.Tokens.{Tokens};
ghost use Rattle.ir_parser.specs.Modules.{module_of};
ghost use Rattle.ir_syntax.specs.declared.item.Module.{Module};
ghost use Rattle.ir_parser.specs.declared.fault.ReadFault.{ReadFault};
ghost use Rattle.ir_parser.specs.declared.fault.ReadFault.TheVariants as fault;
ghost use Rattle.ir_parser.specs.Spelled.{Spells, IsCause, IsRead};
ghost use Rattle.ir_parser.specs.Mirrors.Steps.{IsLexCause, IsModuleCause};

use crate::entities::{Entity, split};
use crate::fault::ReadFault;
use crate::items::{items, symbols, types_in};
use crate::laws::{a_spelled_text_has_no_cause, a_text_spells_one_module, the_cause_is_one_entity};
use crate::targets::{layout, triple};
use ir_lexer::{LexFault, Token, bad_byte_is_one, lex, tokens_or_bad_byte};
use ir_syntax::Module;
use sqlite_items::Items as List;
use std::alloc::Global;
use type_names::expand_types;

/// The tokens of a text, or its bad byte.
fn tokens(alloc: Global, bytes: &[u8]) -> Result<List<Token>, ReadFault>
    ensures read { IfOk result (λ tokens. Tokens bytes.now tokens) }
    ensures refused { IfErr result (IsLexCause bytes.now) }
{
    match lex(alloc, bytes) {
        Ok(tokens) => Ok(tokens),
        Err(LexFault::BadByte { at }) => Err(ReadFault::BadByte { at }),
        Err(LexFault::OutOfMemory) => Err(ReadFault::OutOfMemory),
    }
}

/// The module that the entities stand for, or the place of the first that doesn't resolve.
fn module_of(alloc: Global, entities: &[Entity]) -> Result<Module, ReadFault>
    ensures read { IfOk result (λ read. module_of entities.now ≡ Ok read) }
    ensures refused { IfErr result (IsModuleCause entities.now) }
{
    let types = types_in(alloc, entities)?;
    let symbols = symbols(alloc, entities)?;
    let expanded = expand_types(alloc, types.as_slice(), symbols)?;
    let items = items(alloc, &expanded, entities)?;
    Ok(Module {
        layout: layout(alloc, entities)?,
        triple: triple(alloc, entities)?,
        items,
    })
}

/// Reads the text of a module of the subset of LLVM's textual IR, by the LLVM Language Reference Manual.
///
/// The text is a list of entities. Variables ("Global Variables"), declarations and definitions ("Functions") become the
/// items, in their order. Named types ("Structure Type", "Opaque Structure Types") are put in where they are named. The
/// layout ("Data Layout") and the triple ("Target Triple") are those of the last `target` of each kind. Names of items
/// become their places, and addresses ("Constant Expressions") an item and an offset. Names may be used before they are
/// there, and a name is the same with quotes and without. A parameter without a name has the count of those before it
/// that have none or a decimal one. Of several alignments behind a variable the last counts, and a variable is a
/// declaration exactly where its linkage is written `external`. Of attributes ("Parameter Attributes") `signext` and
/// `zeroext` are kept, at what is returned, at parameters and at arguments.
///
/// Dropped are comments, `source_filename`, all other attributes and their groups ("Attribute Groups"), metadata and
/// attachments ("Metadata"), debug records, and declarations and calls of what begins with `llvm.dbg.` and
/// `llvm.lifetime.`: they give no item.
///
/// - `BadByte` carries the least offset, in bytes, from which no token, no blank and no comment goes on.
/// - `NotInSubset` carries the place of an entity, counted from 0: the first that the grammar of the subset doesn't spell;
///   or, where it spells them all, the first of these. A named type whose name another had before, or which isn't opaque
///   and stands for no type, as it reaches itself, names one that is opaque or isn't there, nests more than 64 deep or
///   has more than 4,096 nodes. An item whose name another had before. An item whose name, or the name of one of its
///   parameters, registers or blocks, isn't of 1 to 4,096 bytes, none of them zero, or is doubled among these. A
///   declaration that is dropped, or a definition with a call that is dropped, whose name breaks these limits. A
///   definition or a variable whose name begins with `llvm.`, and a declaration of such a name other than the intrinsics
///   that copy and fill memory. More than 32 parameters. A type, a constant or a body whose names stand for nothing, as
///   each name does that breaks these limits, or which doesn't fit where it is written.
/// - `OutOfMemory` comes where the allocator refuses memory.
pub fn read_module(alloc: Global, bytes: &[u8]) -> Result<Module, ReadFault>
    ensures spelled { IfOk result (λ m. Spells bytes.now m) }
    ensures refused { IfErr result (λ fault. IsCause bytes.now fault) }
    ensures exact { (read : Result Module ReadFault) → IsRead bytes.now read → (result ≡ read) ⊎ (result ≡ Err fault.OutOfMemory) }
{
    tokens_or_bad_byte();
    bad_byte_is_one();
    a_text_spells_one_module();
    a_spelled_text_has_no_cause();
    the_cause_is_one_entity();
    let entities = {
        let tokens = tokens(alloc, bytes)?;
        split(alloc, bytes, tokens.as_slice())?
    };
    module_of(alloc, entities.as_slice())
}
