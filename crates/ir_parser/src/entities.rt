//! The entities of a module, token by token.
ghost use Rattle.std.specs.Prelude.{◌≡◌, [], length, IfOk, IfErr};
ghost use Rattle.ir_lexer.specs.Tokens.{texts_of};
ghost use Rattle.ir_grammar.specs.Tokens.{seen};
ghost use Rattle.ir_parser.specs.Mirrors.Steps.{AreEntities, IsSplitCause};

use crate::fault::ReadFault;
use ir_grammar::{Lexeme, Name, entity_takes_one, read_nonterminal};
use ir_lexer::Token;
use sqlite_items::Items as List;
use std::alloc::Global;
use std::marker::Model;

/// What is kept of the tokens of an entity. Contracts see the list of it.
#[derive(Drop)]
pub(crate) struct Entity<'a> {
    kept: Vec<Lexeme<'a>>,
}

impl<'a> Model for Entity<'a> {
    ghost use Rattle.std.specs.Prelude.{List};
    ghost use Rattle.ir_grammar.specs.Tokens.{Kept, seen};

    ghost Value = { List Kept };

    ghost view = { λ e. seen e.kept.items };
}

impl<'a> Entity<'a> {
    /// What is kept, in order.
    pub(crate) fn kept(&self) -> &[Lexeme<'a>]
        ensures { seen result.now ≡ self.now }
    {
        self.kept.as_slice()
    }
}

/// The entities that the tokens spell, one after another, or the first place among them at which none is spelled.
pub(crate) fn split<'a>(
    alloc: Global,
    bytes: &'a [u8],
    tokens: &[Token],
) -> Result<List<Entity<'a>>, ReadFault>
    ensures read { IfOk result (λ entities. AreEntities (texts_of bytes.now tokens.now) entities []) }
    ensures refused { IfErr result (IsSplitCause (texts_of bytes.now tokens.now)) }
{
    entity_takes_one();
    let mut entities = List::new(alloc);
    let mut from = 0;
    'splitting: while from < tokens.len() {
        match read_nonterminal(alloc, bytes, tokens, from, Name::Entity)? {
            Some((kept, next)) => {
                entities.push(Entity { kept })?;
                from = next;
            }
            None => {
                return Err(ReadFault::NotInSubset {
                    entity: entities.len(),
                });
            }
        }
    }
    Ok(entities)
}
