//! Targets, variables and functions.
#![tactic(auto, using(crate::proofs::Bytes::written))]

ghost use Rattle.std.specs.Prelude.{◌≡◌, ◌∷◌, [], ◌++◌, OnOk, All, map, flat_map};
ghost use Rattle.ir_lexer.specs.Written.{bytes_of};
ghost use Rattle.ir_syntax.specs.FormedBody.{item_name, IsAlign};
ghost use Rattle.ir_syntax.specs.FormedItem.{FormedVar, FormedFunc, FormedItem};
ghost use Rattle.ir_writer.specs.Words.{space, listed, returned, open_paren, ext_before};
ghost use Rattle.ir_writer.specs.Modules.{target_parts, at_name, var_word, valued_parts, var_parts, declared_param, defined_params, func_with, item_parts};

use crate::blocks::write_blocks;
use crate::calls::write_dots;
use crate::constants::write_constant;
use crate::names::{write_name, write_quoted};
use crate::operands::{write_align, write_local};
use crate::types::write_type;
use crate::words::{
    scalar_word, write_ext_before, write_ext_behind, write_linkage, write_returned, write_separator,
};
use ir_syntax::{Func, Item, Param, Var};
use ir_types::{Bytes, OutOfMemory};

/// Adds the line of a target, where there is one.
pub fn write_target(out: &mut Bytes, part: &[u8], text: &Option<Bytes>) -> Result<(), OutOfMemory>
    ensures { OnOk result (out.new ≡ out.old ++ bytes_of (target_parts part.now text.now)) }
{
    match text {
        Some(text) => {
            out.append(b"target ")?;
            out.append(part)?;
            out.append(b" = ")?;
            write_quoted(out, text.as_slice())?;
            out.append(b"\n")
        }
        None => Ok(()),
    }
}

fn var_word(constant: bool) -> &'static [u8]
    ensures { bytes_of (var_word constant ∷ []) ≡ result.now }
{
    if constant { b"constant" } else { b"global" }
}

/// Adds what a variable is and its value, where it has one.
fn write_valued(out: &mut Bytes, items: &[Item], var: &Var) -> Result<(), OutOfMemory>
    ensures { OnOk result (out.new ≡ out.old ++ bytes_of (valued_parts (map item_name items.now) var.now var.now.init)) }
{
    match &var.init {
        Some(init) => {
            write_linkage(out, var.linkage)?;
            out.append(var_word(var.constant))?;
            out.append(b" ")?;
            write_type(out, &var.ty)?;
            out.append(b" ")?;
            write_constant(out, items, &var.ty, init)
        }
        None => {
            out.append(b"external ")?;
            out.append(var_word(var.constant))?;
            out.append(b" ")?;
            write_type(out, &var.ty)
        }
    }
}

/// Adds the line of a variable.
fn write_var(out: &mut Bytes, items: &[Item], var: &Var) -> Result<(), OutOfMemory>
    requires { FormedVar items.now var.now }
    ensures { OnOk result (out.new ≡ out.old ++ bytes_of (var_parts (map item_name items.now) var.now)) }
{
    out.append(b"@")?;
    write_name(out, var.name.as_slice())?;
    out.append(b" = ")?;
    write_valued(out, items, var)?;
    write_align(out, var.align)?;
    out.append(b"\n")
}

fn write_param(out: &mut Bytes, param: &Param) -> Result<(), OutOfMemory>
    ensures { OnOk result (out.new ≡ out.old ++ bytes_of (declared_param param.now)) }
{
    out.append(scalar_word(param.ty))?;
    write_ext_behind(out, param.ext)
}

/// Adds the parameters of a declaration with commas between them.
fn write_declared_params(out: &mut Bytes, params: &[Param]) -> Result<(), OutOfMemory>
    ensures { OnOk result (out.new ≡ out.old ++ bytes_of (listed (map declared_param params.now))) }
{
    for (place, param) in params.iter().enumerate() {
        write_separator(out, place)?;
        write_param(out, param)?;
    }
    Ok(())
}

/// Adds the parameters of a definition with commas between them.
fn write_defined_params(out: &mut Bytes, params: &[Param]) -> Result<(), OutOfMemory>
    ensures { OnOk result (out.new ≡ out.old ++ bytes_of (listed (defined_params 0 params.now))) }
{
    for (place, param) in params.iter().enumerate() {
        write_separator(out, place)?;
        write_param(out, param)?;
        out.append(b" ")?;
        write_local(out, b"%a", place)?;
    }
    Ok(())
}

/// Adds what a function returns, its name and an opening parenthesis.
fn write_start(out: &mut Bytes, func: &Func) -> Result<(), OutOfMemory>
    ensures { OnOk result (out.new ≡ out.old ++ bytes_of (ext_before func.now.ret_ext ++ returned func.now.returns ∷ space ∷ at_name func.now.name ∷ open_paren ∷ [])) }
{
    write_ext_before(out, func.ret_ext)?;
    write_returned(out, func.returns)?;
    out.append(b" @")?;
    write_name(out, func.name.as_slice())?;
    out.append(b"(")
}

/// Adds a declaration, or a definition with its blocks.
fn write_func(out: &mut Bytes, items: &[Item], func: &Func) -> Result<(), OutOfMemory>
    requires { FormedFunc items.now func.now }
    ensures { OnOk result (out.new ≡ out.old ++ bytes_of (func_with (map item_name items.now) func.now func.now.body)) }
{
    match &func.body {
        Some(body) => {
            out.append(b"define ")?;
            write_linkage(out, func.linkage)?;
            write_start(out, func)?;
            write_defined_params(out, func.params.as_slice())?;
            out.append(b") {\n")?;
            write_blocks(out, items, body.blocks.as_slice())?;
            out.append(b"}\n")
        }
        None => {
            out.append(b"declare ")?;
            write_start(out, func)?;
            write_declared_params(out, func.params.as_slice())?;
            write_dots(out, func.params.len(), func.variadic)?;
            out.append(b")\n")
        }
    }
}

fn write_item(out: &mut Bytes, items: &[Item], item: &Item) -> Result<(), OutOfMemory>
    requires { FormedItem items.now item.now }
    ensures { OnOk result (out.new ≡ out.old ++ bytes_of (item_parts (map item_name items.now) item.now)) }
{
    match item {
        Item::Var(var) => write_var(out, items, var),
        Item::Func(func) => write_func(out, items, func),
    }
}

/// Adds the items of a module.
pub fn write_items(out: &mut Bytes, items: &[Item]) -> Result<(), OutOfMemory>
    requires { All (FormedItem items.now) items.now }
    ensures { OnOk result (out.new ≡ out.old ++ bytes_of (flat_map (item_parts (map item_name items.now)) items.now)) }
{
    for item in items {
        write_item(out, items, item)?;
    }
    Ok(())
}
