//! Bodies as text.
use crate::found::name_of;
use crate::shown::name_text;
use ir_syntax::{Block, Body, Const, Inst, Item, Operand, Phi, Term};
use std::alloc::Global;

fn offset_text(alloc: Global, offset: i64) -> anyhow::Result<String> {
    if offset == 0 {
        Ok(String::new(alloc))
    } else {
        Ok(format!(in alloc; "+{offset}")?)
    }
}

fn const_text(alloc: Global, items: &[Item], constant: &Const) -> anyhow::Result<String> {
    let word = match constant {
        Const::Int(number) => return Ok(format!(in alloc; "{number}")?),
        Const::Addr(place, offset) => {
            let name = match items.get(*place) {
                Some(item) => name_text(alloc, name_of(item))?,
                None => String::from_str(alloc, "nothing")?,
            };
            return Ok(format!(in alloc; "@{name}{offset}", offset = offset_text(alloc, *offset)?)?);
        }
        Const::Null => "null",
        Const::Undef => "undef",
        Const::Poison => "poison",
        Const::Zero => "zero",
        Const::Text(_) => "text",
        Const::Many(_) => "many",
    };
    Ok(String::from_str(alloc, word)?)
}

fn operand_text(alloc: Global, items: &[Item], operand: &Operand) -> anyhow::Result<String> {
    match operand {
        Operand::Param(place) => Ok(format!(in alloc; "#{place}")?),
        Operand::Reg(number) => Ok(format!(in alloc; "%{number}")?),
        Operand::Const(constant) => const_text(alloc, items, constant),
    }
}

fn add_phi(alloc: Global, text: &mut String, items: &[Item], phi: &Phi) -> anyhow::Result<()> {
    text.push_str(" phi")?;
    for (operand, block) in phi.entries.as_slice() {
        let operand = operand_text(alloc, items, operand)?;
        text.push_str(format!(in alloc; " {operand}/{block}")?.as_str())?;
    }
    text.push_str(";")?;
    Ok(())
}

fn inst_word(inst: &Inst) -> &'static str {
    match inst {
        Inst::Bin { .. } => "bin",
        Inst::Icmp { .. } => "icmp",
        Inst::Select { .. } => "select",
        Inst::Cast { .. } => "cast",
        Inst::Alloca { .. } => "alloca",
        Inst::Load { .. } => "load",
        Inst::Store { .. } => "store",
        Inst::Gep { .. } => "gep",
        Inst::Call { .. } => "call",
    }
}

fn add_inst(alloc: Global, text: &mut String, items: &[Item], inst: &Inst) -> anyhow::Result<()> {
    text.push_str(format!(in alloc; " {word}", word = inst_word(inst))?.as_str())?;
    for k in 0..inst.operand_count() {
        if let Some(operand) = inst.operand(k) {
            let operand = operand_text(alloc, items, operand)?;
            text.push_str(format!(in alloc; " {operand}")?.as_str())?;
        }
    }
    text.push_str(";")?;
    Ok(())
}

fn switch_text(
    alloc: Global,
    value: String,
    default: usize,
    cases: &[(u64, usize)],
) -> anyhow::Result<String> {
    let mut text = format!(in alloc; "switch {value} {default}")?;
    for (number, block) in cases {
        text.push_str(format!(in alloc; " {number}/{block}")?.as_str())?;
    }
    Ok(text)
}

fn term_text(alloc: Global, items: &[Item], term: &Term) -> anyhow::Result<String> {
    match term {
        Term::RetVoid => Ok(String::from_str(alloc, "ret")?),
        Term::Ret(_, value) => {
            let value = operand_text(alloc, items, value)?;
            Ok(format!(in alloc; "ret {value}")?)
        }
        Term::Br(to) => Ok(format!(in alloc; "br {to}")?),
        Term::CondBr(cond, one, other) => {
            let cond = operand_text(alloc, items, cond)?;
            Ok(format!(in alloc; "br {cond} {one} {other}")?)
        }
        Term::Switch {
            value,
            default,
            cases,
            ..
        } => {
            let value = operand_text(alloc, items, value)?;
            switch_text(alloc, value, *default, cases.as_slice())
        }
        Term::Unreachable => Ok(String::from_str(alloc, "unreachable")?),
    }
}

fn block_text(alloc: Global, items: &[Item], block: &Block) -> anyhow::Result<String> {
    let mut text = String::new(alloc);
    for phi in block.phis.as_slice() {
        add_phi(alloc, &mut text, items, phi)?;
    }
    for inst in block.insts.as_slice() {
        add_inst(alloc, &mut text, items, inst)?;
    }
    let term = term_text(alloc, items, &block.term)?;
    text.push_str(format!(in alloc; " {term}")?.as_str())?;
    Ok(text)
}

/// A line for each block: its place, its phis and instructions with their operands, and its terminator. The items are those of
/// the body's module.
pub(crate) fn body_text(alloc: Global, items: &[Item], body: &Body) -> anyhow::Result<String> {
    let mut text = String::new(alloc);
    for (place, block) in body.blocks.as_slice().iter().enumerate() {
        let block = block_text(alloc, items, block)?;
        text.push_str(format!(in alloc; "\n  {place}:{block}")?.as_str())?;
    }
    Ok(text)
}
