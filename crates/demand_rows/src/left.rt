//! Modules in short: `name/parameters linkage: instructions; ret value | `, with callees by their place.
use ir_syntax::{Block, Const, Inst, Item, Linkage, Module, Operand, Term};
use ir_types::OutOfMemory;
use std::alloc::Global;

/// The functions of a module, each with ` | ` behind it.
pub fn module_text(alloc: Global, module: &Module) -> Result<String, OutOfMemory> {
    let mut text = String::new(alloc);
    for item in module.items.as_slice() {
        write_item(alloc, &mut text, item)?;
        text.push_str(" | ")?;
    }
    Ok(text)
}

fn operand_text(alloc: Global, operand: &Operand) -> Result<String, OutOfMemory> {
    let (sign, number) = signed(operand);
    Ok(format!(in alloc; "{sign}{number}")?)
}

fn signed(operand: &Operand) -> (&'static str, u64) {
    match operand {
        Operand::Param(k) => ("%a", *k as u64),
        Operand::Reg(k) => ("%v", *k as u64),
        Operand::Const(Const::Int(number)) => ("", *number),
        Operand::Const(Const::Addr(place, _)) => ("@", *place as u64),
        Operand::Const(_) => ("?", 0),
    }
}

fn write_inst(alloc: Global, text: &mut String, inst: &Inst) -> Result<(), OutOfMemory> {
    match inst {
        Inst::Bin { a, b, .. } => {
            text.push_str("add ")?;
            text.push_str(operand_text(alloc, a)?.as_str())?;
            text.push_str(" ")?;
            text.push_str(operand_text(alloc, b)?.as_str())?;
        }
        Inst::Call {
            fn_ty,
            callee,
            args,
            ..
        } => {
            let words = fn_ty.params.len();
            text.push_str(format!(in alloc; "call/{words} ")?.as_str())?;
            text.push_str(operand_text(alloc, callee)?.as_str())?;
            for arg in args.as_slice() {
                text.push_str(" ")?;
                text.push_str(operand_text(alloc, &arg.value)?.as_str())?;
            }
        }
        _ => text.push_str("?")?,
    }
    text.push_str("; ")?;
    Ok(())
}

fn write_block(alloc: Global, text: &mut String, block: &Block) -> Result<(), OutOfMemory> {
    for inst in block.insts.as_slice() {
        write_inst(alloc, text, inst)?;
    }
    match &block.term {
        Term::Ret(_, value) => {
            text.push_str("ret ")?;
            text.push_str(operand_text(alloc, value)?.as_str())?;
        }
        _ => text.push_str("?")?,
    }
    Ok(())
}

fn write_item(alloc: Global, text: &mut String, item: &Item) -> Result<(), OutOfMemory> {
    match item {
        Item::Func(func) => {
            text.push_str(str::from_utf8(func.name.as_slice()).unwrap_or("no text"))?;
            let params = func.params.len();
            let seen = match func.linkage {
                Linkage::Internal => "internal",
                Linkage::External => "external",
                _ => "other",
            };
            text.push_str(format!(in alloc; "/{params} {seen}: ")?.as_str())?;
            match &func.body {
                Some(body) => {
                    for block in body.blocks.as_slice() {
                        write_block(alloc, text, block)?;
                    }
                }
                None => text.push_str("?")?,
            }
        }
        Item::Var(_) => text.push_str("?")?,
    }
    Ok(())
}
