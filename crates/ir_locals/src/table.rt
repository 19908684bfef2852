//! The names of a function, found by hash.
ghost use Rattle.std.specs.Prelude.{◌≡◌, ◌≤◌, length, ◌∷◌, [], true, Some, None, IfOk, if◌then◌else◌};
ghost use Rattle.ir_lexer.specs.Texts.{stands_for};
ghost use Rattle.ir_grammar.specs.Tokens.{seen};
ghost use Rattle.ir_locals.specs.Locals.{local_name, label_names, result_names, block_names, numbered, named, locals_of, are_locals, local_among, operand_in, block_in};
ghost use Rattle.ir_locals.specs.Adding.{HasAdded, waiting_name};

use crate::local::Local;
use crate::name::{decimal_name, decimals};
use crate::shapes::{begins_labelled, has_result, is_label, waiting};
use indexmap::IndexMap;
use ir_grammar::Lexeme;
use ir_lexer::{Kind, Token, decode, undecoded};
use ir_syntax::Operand;
use ir_types::{Bytes, OutOfMemory, is_name};
use std::alloc::Global;
use std::marker::Model;

/// The names of a function, each with what it stands for. Contracts see their list: the parameters, the registers and
/// the blocks. A name is found by hash.
#[derive(Drop)]
pub struct Locals {
    locals: IndexMap<Vec<u8>, Local>,
}

impl Model for Locals {
    ghost use Rattle.std.specs.Prelude.{ℕ, List, map};
    ghost use Rattle.ir_locals.specs.declared.local.Local.{Local};

    ghost Value = { List (List ℕ × Local) };

    ghost view = { λ l. map (λ e. (e.0.items, e.1)) l.locals.entries };
}

/// The bytes of a whole text, as a token.
fn whole(kind: Kind, text: &[u8]) -> Token
    ensures { result ≡ record { kind = kind; from = 0; to = length text.now } }
{
    Token {
        kind,
        from: 0,
        to: text.len(),
    }
}

impl Locals {
    fn new(alloc: Global) -> Locals
        ensures { result ≡ [] }
    {
        Locals {
            locals: IndexMap::new(alloc),
        }
    }

    /// What a name stands for.
    fn local(&self, name: &[u8]) -> Option<Local>
        ensures { result ≡ local_among self.now name.now }
    {
        self.locals.get(name).copied()
    }

    /// The parameter or the register of a name, where it is one's. Takes no memory.
    pub fn operand(&self, name: &[u8]) -> Option<Operand>
        ensures { result ≡ operand_in (local_among self.now name.now) }
    {
        match self.local(name) {
            Some(Local::Param(place)) => Some(Operand::Param(place)),
            Some(Local::Reg(number)) => Some(Operand::Reg(number)),
            Some(Local::Block(_)) => None,
            None => None,
        }
    }

    /// The place of the block of a name, where it is one's. Takes no memory.
    pub fn block(&self, name: &[u8]) -> Option<usize>
        ensures { result ≡ block_in (local_among self.now name.now) }
    {
        match self.local(name) {
            Some(Local::Block(place)) => Some(place),
            Some(Local::Param(_)) => None,
            Some(Local::Reg(_)) => None,
            None => None,
        }
    }

    /// The parameter or the register that is written so, as `%name`, plainly or in quotes. It takes memory only for a
    /// name that is written with a backslash; the error is want of it.
    pub fn operand_of(&self, alloc: Global, text: &[u8]) -> Result<Option<Operand>, OutOfMemory>
        ensures { IfOk result (λ found. found ≡ operand_in (local_among self.now (local_name text.now))) }
    {
        let token = whole(Kind::LocalName, text);
        match undecoded(text, token) {
            Some(name) => Ok(self.operand(name)),
            None => {
                let name = decode(alloc, text, token)?;
                Ok(self.operand(name.as_slice()))
            }
        }
    }

    /// The place of the block that is written so, as `%name`, plainly or in quotes. It takes memory only for a name that
    /// is written with a backslash; the error is want of it.
    pub fn block_of(&self, alloc: Global, text: &[u8]) -> Result<Option<usize>, OutOfMemory>
        ensures { IfOk result (λ found. found ≡ block_in (local_among self.now (local_name text.now))) }
    {
        let token = whole(Kind::LocalName, text);
        match undecoded(text, token) {
            Some(name) => Ok(self.block(name)),
            None => {
                let name = decode(alloc, text, token)?;
                Ok(self.block(name.as_slice()))
            }
        }
    }

    /// Adds a name, where it is one and is new.
    fn add(&mut self, alloc: Global, name: &[u8], local: Local) -> Result<bool, OutOfMemory>
        requires { are_locals self.old ≡ true }
        ensures { IfOk result (HasAdded self.old ((name.now, local) ∷ []) self.new) }
    {
        if !is_name(name) {
            return Ok(false);
        }
        if self.locals.contains_key(name) {
            return Ok(false);
        }
        let owned = Vec::from_slice(alloc, name)?;
        self.locals.insert(owned, local)?;
        Ok(true)
    }

    /// Adds the name that a token of this kind and text stands for.
    fn add_spelled(
        &mut self,
        alloc: Global,
        kind: Kind,
        text: &[u8],
        local: Local,
    ) -> Result<bool, OutOfMemory>
        requires { are_locals self.old ≡ true }
        ensures { IfOk result (HasAdded self.old ((stands_for kind text.now, local) ∷ []) self.new) }
    {
        let token = whole(kind, text);
        match undecoded(text, token) {
            Some(name) => self.add(alloc, name, local),
            None => {
                let name = decode(alloc, text, token)?;
                self.add(alloc, name.as_slice(), local)
            }
        }
    }

    /// Adds the parameters.
    fn add_params(&mut self, alloc: Global, params: &[Bytes]) -> Result<bool, OutOfMemory>
        requires { are_locals self.old ≡ true }
        ensures { IfOk result (HasAdded self.old (numbered Local.Param 0 params.now) self.new) }
    {
        for (place, name) in params.iter().enumerate() {
            if !self.add(alloc, name.as_slice(), Local::Param(place))? {
                return Ok(false);
            }
        }
        Ok(true)
    }

    /// Adds a register, where a name waits for it.
    fn add_register(
        &mut self,
        alloc: Global,
        text: Option<&[u8]>,
        number: usize,
    ) -> Result<bool, OutOfMemory>
        requires { are_locals self.old ≡ true }
        ensures { IfOk result (HasAdded self.old (named number (waiting_name text.entry ∷ [])) self.new) }
    {
        match text {
            Some(text) => self.add_spelled(alloc, Kind::LocalName, text, Local::Reg(number)),
            None => Ok(true),
        }
    }

    /// Adds the registers that have names. Each result counts, also one without a name.
    fn add_registers(&mut self, alloc: Global, kept: &[Lexeme]) -> Result<bool, OutOfMemory>
        requires { are_locals self.old ≡ true }
        ensures { IfOk result (HasAdded self.old (named 0 (result_names (seen kept.now))) self.new) }
    {
        let mut number = 0;
        let mut text = None;
        for lexeme in kept {
            if has_result(lexeme.shape) {
                if !self.add_register(alloc, text, number)? {
                    return Ok(false);
                }
                number += 1;
                text = None;
            } else {
                text = waiting(lexeme, text);
            }
        }
        Ok(true)
    }

    /// Adds the blocks that have labels, from a place on.
    fn add_labels(
        &mut self,
        alloc: Global,
        kept: &[Lexeme],
        first: usize,
    ) -> Result<bool, OutOfMemory>
        requires well { are_locals self.old ≡ true }
        requires few { first ≤ 1 }
        ensures { IfOk result (HasAdded self.old (numbered Local.Block first (label_names (seen kept.now))) self.new) }
    {
        let mut place = first;
        for lexeme in kept {
            if is_label(lexeme.shape) {
                if !self.add_spelled(alloc, Kind::Label, lexeme.text, Local::Block(place))? {
                    return Ok(false);
                }
                place += 1;
            }
        }
        Ok(true)
    }

    /// Adds the blocks. A first one without a label has the count of the parameters with decimal names.
    fn add_blocks(
        &mut self,
        alloc: Global,
        params: &[Bytes],
        kept: &[Lexeme],
    ) -> Result<bool, OutOfMemory>
        requires { are_locals self.old ≡ true }
        ensures { IfOk result (HasAdded self.old (numbered Local.Block 0 (block_names params.now (seen kept.now))) self.new) }
    {
        if begins_labelled(kept) {
            return self.add_labels(alloc, kept, 0);
        }
        let name = decimal_name(alloc, decimals(params))?;
        if !self.add(alloc, name.as_slice(), Local::Block(0))? {
            return Ok(false);
        }
        self.add_labels(alloc, kept, 1)
    }

    /// The names of a function with parameters of these names, over the tokens that the grammar keeps of its blocks: the
    /// parameters, then the results that have names, then the blocks. By the LLVM Language Reference Manual they share
    /// one set. A result is numbered among all results, with and without names. A first block without a label has the
    /// count of the parameters whose names are decimal as its name, since those without names are numbered from 0 on.
    /// `None` where a name is empty, is longer than 4,096 bytes, has a zero byte, or stands twice. The error is want of
    /// memory.
    pub fn of(
        alloc: Global,
        params: &[Bytes],
        kept: &[Lexeme],
    ) -> Result<Option<Locals>, OutOfMemory>
        ensures found { IfOk result (λ found. found ≡ (if are_locals (locals_of params.now (seen kept.now)) then Some (locals_of params.now (seen kept.now)) else None)) }
    {
        let mut locals = Locals::new(alloc);
        if !locals.add_params(alloc, params)? {
            return Ok(None);
        }
        if !locals.add_registers(alloc, kept)? {
            return Ok(None);
        }
        if !locals.add_blocks(alloc, params, kept)? {
            return Ok(None);
        }
        Ok(Some(locals))
    }
}
