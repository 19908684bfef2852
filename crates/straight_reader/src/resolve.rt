//! From definitions to the module that they stand for.
ghost use Rattle.std.specs.Prelude.{◌≡◌, [], ◌∷◌, ◌++◌, map, length, replicate, true, false, option_map, IfOk, OnSome, MatchOption};
ghost use Rattle.std.specs.List.{All, list_all};
ghost use Rattle.ir_syntax.specs.Straight.{word_param, word_type};
ghost use Rattle.name_table.specs.Places.{is_among};
ghost use Rattle.straight_form.specs.Names.{is_name};
ghost use Rattle.straight_form.specs.Resolved.{local_of, operand_of, operands_of, name_of, word_arg, addition, inst_of, insts_of, are_params, body_of, func_of, items_of};
ghost use Rattle.straight_reader.specs.Forms.{IsNamed, call_with, call_named, step_of};

use crate::numbers::integer_of;
use ir_syntax::{Arg, Block, Body, Const, Func, Inst, Item, Linkage, Operand, Param, Term};
use ir_types::{BinOp, Bytes, Ext, Flags, FnType, OutOfMemory, Scalar};
use name_table::Names;
use sqlite_items::Items as List;
use std::alloc::Global;
use straight_form::{Entity, Line, Value};

/// The most instructions of a body, with its terminator.
const MOST_INSTRUCTIONS: usize = 1048576;

/// The most parameters of a function, and arguments of a call.
const MOST_PARAMS: usize = 32;

fn is_among(name: &[u8], names: &Names) -> bool
    ensures { result ≡ is_among name.now names.now }
{
    match names.place_of(name) {
        Some(_) => true,
        None => false,
    }
}

/// The parameter of a name, or else the register.
fn local(name: &[u8], params: &Names, registers: &Names) -> Option<Operand>
    ensures { result ≡ local_of params.now registers.now name.now }
{
    match params.place_of(name) {
        Some(place) => Some(Operand::Param(place)),
        None => match registers.place_of(name) {
            Some(place) => Some(Operand::Reg(place)),
            None => None,
        },
    }
}

/// The operand, where its digits fit 32 bits, or a parameter or a line above has its name.
fn operand(value: &Value, params: &Names, registers: &Names) -> Option<Operand>
    ensures { result ≡ operand_of params.now registers.now value.now }
{
    match value {
        Value::Number(digits) => match integer_of(digits.as_slice()) {
            Some(number) => Some(Operand::Const(Const::Int(number))),
            None => None,
        },
        Value::Local(name) => local(name.as_slice(), params, registers),
    }
}

fn name_of(line: &Line) -> &Bytes
    ensures { result.now ≡ name_of line.now }
{
    match line {
        Line::Add { name, .. } => name,
        Line::Call { name, .. } => name,
    }
}

/// `add i32 a, b`.
fn addition(a: Operand, b: Operand) -> Inst
    ensures { result ≡ addition a b }
{
    let flags = Flags {
        nuw: false,
        nsw: false,
        exact: false,
        disjoint: false,
    };
    Inst::Bin {
        op: BinOp::Add,
        flags,
        ty: Scalar::I32,
        a,
        b,
    }
}

/// The arguments of a call, where each is an operand.
fn args(
    alloc: Global,
    values: &[Value],
    params: &Names,
    registers: &Names,
) -> Result<Option<List<Arg>>, OutOfMemory>
    ensures { IfOk result (λ found. found ≡ option_map (map word_arg) (operands_of params.now registers.now values.now)) }
{
    let mut args = List::new(alloc);
    for value in values {
        match operand(value, params, registers) {
            Some(value) => args.push(Arg {
                ty: Scalar::I32,
                ext: Ext::Plain,
                value,
            })?,
            None => return Ok(None),
        }
    }
    Ok(Some(args))
}

/// `call i32` of the function at a place.
fn call_with(alloc: Global, place: usize, args: List<Arg>) -> Result<Inst, OutOfMemory>
    ensures { IfOk result (λ inst. inst ≡ call_with place args) }
{
    let fn_ty = FnType {
        params: List::from_vec(vec![in alloc; Scalar::I32; args.len()]?),
        variadic: false,
        returns: Some(Scalar::I32),
    };
    Ok(Inst::Call {
        fn_ty,
        ret_ext: Ext::Plain,
        callee: Operand::Const(Const::Addr(place, 0)),
        args,
    })
}

/// The call of a function by its name, with these words.
fn call(
    alloc: Global,
    callee: &[u8],
    values: &[Value],
    functions: &Names,
    params: &Names,
    registers: &Names,
) -> Result<Option<Inst>, OutOfMemory>
    ensures { IfOk result (λ found. found ≡ call_named functions.now params.now registers.now callee.now values.now) }
{
    if values.len() > MOST_PARAMS {
        return Ok(None);
    }
    let place = match functions.place_of(callee) {
        Some(place) => place,
        None => return Ok(None),
    };
    match args(alloc, values, params, registers)? {
        Some(args) => Ok(Some(call_with(alloc, place, args)?)),
        None => Ok(None),
    }
}

/// The instruction of a line, over the parameters and the registers above it.
fn inst(
    alloc: Global,
    line: &Line,
    functions: &Names,
    params: &Names,
    registers: &Names,
) -> Result<Option<Inst>, OutOfMemory>
    ensures { IfOk result (λ found. found ≡ inst_of functions.now params.now registers.now line.now) }
{
    match line {
        Line::Add { a, b, .. } => {
            let a = match operand(a, params, registers) {
                Some(a) => a,
                None => return Ok(None),
            };
            match operand(b, params, registers) {
                Some(b) => Ok(Some(addition(a, b))),
                None => Ok(None),
            }
        }
        Line::Call { callee, args, .. } => call(
            alloc,
            callee.as_slice(),
            args.as_slice(),
            functions,
            params,
            registers,
        ),
    }
}

/// The instruction of a line whose name is new. Then the registers have it too.
fn step(
    alloc: Global,
    line: &Line,
    functions: &Names,
    params: &Names,
    registers: &mut Names,
) -> Result<Option<Inst>, OutOfMemory>
    ensures inst { IfOk result (λ found. found ≡ step_of functions.now params.now registers.old line.now) }
    ensures registers { IfOk result (λ found. OnSome found (registers.new ≡ registers.old ++ name_of line.now ∷ [])) }
{
    let name = name_of(line).as_slice();
    if is_among(name, params) {
        return Ok(None);
    }
    let inst = match inst(alloc, line, functions, params, registers)? {
        Some(inst) => inst,
        None => return Ok(None),
    };
    if registers.add(alloc, name)? {
        Ok(Some(inst))
    } else {
        Ok(None)
    }
}

/// The instructions of the lines, from no register on. Then the registers are the names of the lines.
fn insts(
    alloc: Global,
    lines: &[Line],
    functions: &Names,
    params: &Names,
    registers: &mut Names,
) -> Result<Option<List<Inst>>, OutOfMemory>
    requires none { registers.old ≡ [] }
    requires named { list_all (λ line. is_name (name_of line)) lines.now ≡ true }
    ensures insts { IfOk result (λ found. found ≡ insts_of functions.now params.now [] lines.now) }
    ensures registers { IfOk result (λ found. OnSome found (registers.new ≡ map name_of lines.now)) }
{
    let mut insts = List::new(alloc);
    for line in lines {
        match step(alloc, line, functions, params, registers)? {
            Some(inst) => insts.push(inst)?,
            None => return Ok(None),
        }
    }
    Ok(Some(insts))
}

/// The names of the parameters, where they are at most 32 and none is doubled.
fn params(alloc: Global, names: &[Bytes]) -> Result<Option<Names>, OutOfMemory>
    requires { list_all is_name names.now ≡ true }
    ensures { IfOk result (λ found. MatchOption found (are_params names.now ≡ false) (λ params. (params ≡ names.now) × (are_params names.now ≡ true))) }
{
    if names.len() > MOST_PARAMS {
        return Ok(None);
    }
    let mut params = Names::new(alloc);
    for name in names {
        if !params.add(alloc, name.as_slice())? {
            return Ok(None);
        }
    }
    Ok(Some(params))
}

/// The body of a definition without a label.
fn body(alloc: Global, entity: &Entity, functions: &Names) -> Result<Option<Body>, OutOfMemory>
    requires { IsNamed entity.now }
    ensures { IfOk result (λ found. found ≡ body_of functions.now entity.now) }
{
    if entity.lines.len() >= MOST_INSTRUCTIONS {
        return Ok(None);
    }
    let params = match params(alloc, entity.params.as_slice())? {
        Some(params) => params,
        None => return Ok(None),
    };
    let mut registers = Names::new(alloc);
    let lines = entity.lines.as_slice();
    let insts = match insts(alloc, lines, functions, &params, &mut registers)? {
        Some(insts) => insts,
        None => return Ok(None),
    };
    let result = match operand(&entity.result, &params, &registers) {
        Some(result) => result,
        None => return Ok(None),
    };
    let mut blocks = List::new(alloc);
    blocks.push(Block {
        phis: List::new(alloc),
        insts,
        term: Term::Ret(Scalar::I32, result),
    })?;
    Ok(Some(Body { blocks }))
}

/// So many parameters of i32.
fn word_params(alloc: Global, count: usize) -> Result<List<Param>, OutOfMemory>
    ensures { IfOk result (λ params. params ≡ replicate count word_param) }
{
    let mut params = List::new(alloc);
    for _at in 0..count {
        params.push(Param {
            ty: Scalar::I32,
            ext: Ext::Plain,
        })?;
    }
    Ok(params)
}

/// The function of a definition without a label.
fn func(alloc: Global, entity: &Entity, functions: &Names) -> Result<Option<Item>, OutOfMemory>
    requires { IsNamed entity.now }
    ensures { IfOk result (λ found. found ≡ func_of functions.now entity.now) }
{
    let body = match body(alloc, entity, functions)? {
        Some(body) => body,
        None => return Ok(None),
    };
    let linkage = if entity.internal {
        Linkage::Internal
    } else {
        Linkage::External
    };
    Ok(Some(Item::Func(Func {
        name: entity.name.copy(alloc)?,
        linkage,
        returns: Some(Scalar::I32),
        ret_ext: Ext::Plain,
        params: word_params(alloc, entity.params.len())?,
        variadic: false,
        body: Some(body),
    })))
}

/// The functions of definitions without labels.
pub fn items(
    alloc: Global,
    entities: &[Entity],
    functions: &Names,
) -> Result<Option<List<Item>>, OutOfMemory>
    requires { All IsNamed entities.now }
    ensures { IfOk result (λ found. found ≡ items_of functions.now entities.now) }
{
    let mut items = List::new(alloc);
    for entity in entities {
        match func(alloc, entity, functions)? {
            Some(item) => items.push(item)?,
            None => return Ok(None),
        }
    }
    Ok(Some(items))
}
