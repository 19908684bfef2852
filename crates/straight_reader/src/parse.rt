//! From lexemes to definitions. A label makes the text none of the form, so none is read.
ghost use Rattle.std.specs.Option.{option_copied};
ghost use Rattle.std.specs.Prelude.{◌≡◌, ◌+◌, ◌*◌, ◌^◌, ◌<◌, ◌≤◌, length, IfOk, IfSome};
ghost use Rattle.straight_form.specs.Spelled.{seen};
ghost use Rattle.straight_reader.specs.Readings.{addition_at, word_at, words_from, inside_at, group_at, group_len, call_at, verb_at, line_at, begins_line, line_len, lines_len, lines_from, name_in, names_in, params_at, end_at, body_at, block_at, params_by, head_at, linkage_at, entity_at, entity_len, entities_from};

use crate::pieces::{at_name, is_local, is_mark, is_word, local_name, value};
use ir_types::{Bytes, OutOfMemory};
use sqlite_items::Items as List;
use std::alloc::Global;
use straight_form::{Entity, Lexeme, Line, Value};

/// The addition of `%name = add i32 a, b`.
#[tactic(auto, unfolding(crate::specs::Readings::addition_by))]
fn addition(alloc: Global, name: &Lexeme, operands: &[Lexeme]) -> Result<Option<Line>, OutOfMemory>
    ensures exact { IfOk result (λ found. found ≡ addition_at (name.now.kind, name.now.text.now) (seen operands.now)) }
    ensures within { IfOk result (λ found. IfSome found (λ line. line_len line ≤ length operands.now + 4)) }
{
    let (a, b) = match operands {
        [a, comma, b, ..] => {
            if is_mark(comma, b',') {
                (a, b)
            } else {
                return Ok(None);
            }
        }
        _ => return Ok(None),
    };
    let name = match local_name(alloc, name)? {
        Some(name) => name,
        None => return Ok(None),
    };
    let a = match value(alloc, a)? {
        Some(a) => a,
        None => return Ok(None),
    };
    match value(alloc, b)? {
        Some(b) => Ok(Some(Line::Add { name, a, b })),
        None => Ok(None),
    }
}

/// The operand of `i32 a`, and whether a comma stands behind it rather than the end of the group.
#[tactic(auto, unfolding(crate::specs::Readings::word_by))]
fn word(alloc: Global, lexemes: &[Lexeme]) -> Result<Option<(Value, bool)>, OutOfMemory>
    ensures exact { IfOk result (λ found. found ≡ word_at (seen lexemes.now)) }
    ensures within { IfOk result (λ found. IfSome found (λ _. 3 ≤ length lexemes.now)) }
{
    match lexemes {
        [ty, operand, sign, ..] => {
            let more = is_mark(sign, b',');
            if !is_word(ty, b"i32") || !(more || is_mark(sign, b')')) {
                return Ok(None);
            }
            match value(alloc, operand)? {
                Some(operand) => Ok(Some((operand, more))),
                None => Ok(None),
            }
        }
        _ => Ok(None),
    }
}

/// The operands of `i32 a, i32 b)`, up to the end of the group. Each takes three lexemes.
fn words(alloc: Global, lexemes: &[Lexeme]) -> Result<Option<List<Value>>, OutOfMemory>
    ensures exact { IfOk result (λ found. found ≡ words_from 0 (seen lexemes.now)) }
    ensures within { IfOk result (λ found. IfSome found (λ words. (0 < length words) × (3 * length words ≤ length lexemes.now))) }
{
    let mut words = List::new(alloc);
    let mut at = 0;
    'reading: while at < lexemes.len() {
        match word(alloc, &lexemes[at..])? {
            Some((operand, more)) => {
                words.push(operand)?;
                at += 3;
                if !more {
                    return Ok(Some(words));
                }
            }
            None => return Ok(None),
        }
    }
    Ok(None)
}

/// The operands of `i32 a, i32 b)` or `)`.
fn inside(alloc: Global, lexemes: &[Lexeme]) -> Result<Option<List<Value>>, OutOfMemory>
    ensures exact { IfOk result (λ found. found ≡ inside_at (seen lexemes.now)) }
    ensures within { IfOk result (λ found. IfSome found (λ words. group_len (length words) ≤ length lexemes.now + 1)) }
{
    match lexemes {
        [first, ..] => {
            if is_mark(first, b')') {
                Ok(Some(List::new(alloc)))
            } else {
                words(alloc, lexemes)
            }
        }
        [] => Ok(None),
    }
}

/// The operands of `(i32 a, i32 b)`.
fn group(alloc: Global, lexemes: &[Lexeme]) -> Result<Option<List<Value>>, OutOfMemory>
    ensures exact { IfOk result (λ found. found ≡ group_at (seen lexemes.now)) }
    ensures within { IfOk result (λ found. IfSome found (λ words. group_len (length words) ≤ length lexemes.now)) }
{
    match lexemes {
        [opened, rest @ ..] => {
            if is_mark(opened, b'(') {
                inside(alloc, rest)
            } else {
                Ok(None)
            }
        }
        [] => Ok(None),
    }
}

/// How many lexemes a group of so many operands takes.
fn group_len(count: usize) -> usize
    requires { group_len count < 2 ^ 64 }
    ensures { result ≡ group_len count }
{
    if count == 0 { 2 } else { 3 * count + 1 }
}

/// The call of `%name = call i32 @callee(i32 a, i32 b)`.
fn call(alloc: Global, name: &Lexeme, called: &[Lexeme]) -> Result<Option<Line>, OutOfMemory>
    ensures exact { IfOk result (λ found. found ≡ call_at (name.now.kind, name.now.text.now) (seen called.now)) }
    ensures within { IfOk result (λ found. IfSome found (λ line. line_len line ≤ length called.now + 4)) }
{
    match called {
        [callee, rest @ ..] => {
            let name = match local_name(alloc, name)? {
                Some(name) => name,
                None => return Ok(None),
            };
            let callee = match at_name(alloc, callee)? {
                Some(callee) => callee,
                None => return Ok(None),
            };
            match group(alloc, rest)? {
                Some(args) => Ok(Some(Line::Call { name, callee, args })),
                None => Ok(None),
            }
        }
        [] => Ok(None),
    }
}

/// What stands behind `%name =`.
#[tactic(auto, unfolding(crate::specs::Readings::verb_by))]
fn instruction(
    alloc: Global,
    name: &Lexeme,
    lexemes: &[Lexeme],
) -> Result<Option<Line>, OutOfMemory>
    ensures exact { IfOk result (λ found. found ≡ verb_at (name.now.kind, name.now.text.now) (seen lexemes.now)) }
    ensures within { IfOk result (λ found. IfSome found (λ line. line_len line ≤ length lexemes.now + 2)) }
{
    match lexemes {
        [verb, ty, rest @ ..] => {
            if !is_word(ty, b"i32") {
                Ok(None)
            } else if is_word(verb, b"add") {
                addition(alloc, name, rest)
            } else if is_word(verb, b"call") {
                call(alloc, name, rest)
            } else {
                Ok(None)
            }
        }
        _ => Ok(None),
    }
}

/// The line at the front.
fn line(alloc: Global, lexemes: &[Lexeme]) -> Result<Option<Line>, OutOfMemory>
    ensures exact { IfOk result (λ found. found ≡ line_at (seen lexemes.now)) }
    ensures within { IfOk result (λ found. IfSome found (λ line. line_len line ≤ length lexemes.now)) }
{
    match lexemes {
        [name, equals, rest @ ..] => {
            if is_mark(equals, b'=') {
                instruction(alloc, name, rest)
            } else {
                Ok(None)
            }
        }
        _ => Ok(None),
    }
}

/// The operand of `ret i32 result }`.
fn end(alloc: Global, lexemes: &[Lexeme]) -> Result<Option<Value>, OutOfMemory>
    ensures exact { IfOk result (λ found. found ≡ end_at (seen lexemes.now)) }
    ensures within { IfOk result (λ found. IfSome found (λ _. 4 ≤ length lexemes.now)) }
{
    match lexemes {
        [word, ty, operand, closed, ..] => {
            if is_word(word, b"ret") && is_word(ty, b"i32") && is_mark(closed, b'}') {
                value(alloc, operand)
            } else {
                Ok(None)
            }
        }
        _ => Ok(None),
    }
}

/// Whether a line begins here.
fn begins_line(lexemes: &[Lexeme]) -> bool
    ensures exact { result ≡ begins_line (seen lexemes.now) }
{
    match lexemes {
        [first, ..] => is_local(first),
        [] => false,
    }
}

/// How many lexemes a line takes.
fn line_len(line: &Line) -> usize
    requires { line_len line.now < 2 ^ 64 }
    ensures { result ≡ line_len line.now }
{
    match line {
        Line::Add { .. } => 7,
        Line::Call { args, .. } => 5 + group_len(args.len()),
    }
}

/// How many lexemes the lines take.
fn lines_len(lines: &[Line]) -> usize
    requires { lines_len lines.now < 2 ^ 64 }
    ensures { result ≡ lines_len lines.now }
{
    let mut len = 0;
    for line in lines {
        len += line_len(line);
    }
    len
}

/// The lines up to the first lexeme where none begins.
fn lines(alloc: Global, lexemes: &[Lexeme]) -> Result<Option<List<Line>>, OutOfMemory>
    ensures exact { IfOk result (λ found. found ≡ lines_from 0 (seen lexemes.now)) }
    ensures within { IfOk result (λ found. IfSome found (λ lines. lines_len lines ≤ length lexemes.now)) }
{
    let mut lines = List::new(alloc);
    let mut at = 0;
    'reading: while begins_line(&lexemes[at..]) {
        match line(alloc, &lexemes[at..])? {
            Some(line) => {
                at += line_len(&line);
                lines.push(line)?;
            }
            None => return Ok(None),
        }
    }
    Ok(Some(lines))
}

/// The name of a parameter.
fn name_in(value: &Value) -> Option<&Bytes>
    ensures { option_copied result ≡ name_in value.now }
{
    match value {
        Value::Number(_) => None,
        Value::Local(name) => Some(name),
    }
}

/// The names of parameters, where each of these is a name.
fn names_in(alloc: Global, values: &[Value]) -> Result<Option<List<Bytes>>, OutOfMemory>
    ensures exact { IfOk result (λ found. found ≡ names_in values.now) }
    ensures same { IfOk result (λ found. IfSome found (λ names. length names ≡ length values.now)) }
{
    let mut names = List::new(alloc);
    for value in values {
        match name_in(value) {
            Some(name) => names.push(name.copy(alloc)?)?,
            None => return Ok(None),
        }
    }
    Ok(Some(names))
}

/// The parameters of `(i32 %p, i32 %q)`.
fn params(alloc: Global, lexemes: &[Lexeme]) -> Result<Option<List<Bytes>>, OutOfMemory>
    ensures exact { IfOk result (λ found. found ≡ params_at (seen lexemes.now)) }
    ensures within { IfOk result (λ found. IfSome found (λ params. group_len (length params) ≤ length lexemes.now)) }
{
    match group(alloc, lexemes)? {
        Some(values) => names_in(alloc, values.as_slice()),
        None => Ok(None),
    }
}

/// The lines of a function, and its end.
#[tactic(auto, unfolding(crate::specs::Readings::body_at))]
fn body(
    alloc: Global,
    internal: bool,
    name: Bytes,
    params: List<Bytes>,
    lexemes: &[Lexeme],
) -> Result<Option<Entity>, OutOfMemory>
    ensures exact { IfOk result (λ found. found ≡ body_at internal name params (seen lexemes.now)) }
    ensures within { IfOk result (λ found. IfSome found (λ e. lines_len e.lines + 4 ≤ length lexemes.now)) }
    ensures head { IfOk result (λ found. IfSome found (λ e. (e.internal ≡ internal) × (e.params ≡ params))) }
{
    let lines = match lines(alloc, lexemes)? {
        Some(lines) => lines,
        None => return Ok(None),
    };
    match end(alloc, &lexemes[lines_len(lines.as_slice())..])? {
        Some(result) => Ok(Some(Entity {
            internal,
            name,
            params,
            label: None,
            lines,
            result,
        })),
        None => Ok(None),
    }
}

/// The block of a function, from its brace on.
fn block(
    alloc: Global,
    internal: bool,
    name: Bytes,
    params: List<Bytes>,
    lexemes: &[Lexeme],
) -> Result<Option<Entity>, OutOfMemory>
    ensures exact { IfOk result (λ found. found ≡ block_at internal name params (seen lexemes.now)) }
    ensures within { IfOk result (λ found. IfSome found (λ e. lines_len e.lines + 5 ≤ length lexemes.now)) }
    ensures head { IfOk result (λ found. IfSome found (λ e. (e.internal ≡ internal) × (e.params ≡ params))) }
{
    match lexemes {
        [brace, rest @ ..] => {
            if is_mark(brace, b'{') {
                body(alloc, internal, name, params, rest)
            } else {
                Ok(None)
            }
        }
        [] => Ok(None),
    }
}

/// The parameters of a function, and its block.
#[tactic(auto, unfolding(crate::specs::Readings::params_by))]
fn behind_name(
    alloc: Global,
    internal: bool,
    name: Bytes,
    lexemes: &[Lexeme],
) -> Result<Option<Entity>, OutOfMemory>
    ensures exact { IfOk result (λ found. found ≡ params_by internal name (seen lexemes.now)) }
    ensures within { IfOk result (λ found. IfSome found (λ e. group_len (length e.params) + lines_len e.lines + 5 ≤ length lexemes.now)) }
    ensures linkage { IfOk result (λ found. IfSome found (λ e. e.internal ≡ internal)) }
{
    match params(alloc, lexemes)? {
        Some(params) => {
            let taken = group_len(params.len());
            block(alloc, internal, name, params, &lexemes[taken..])
        }
        None => Ok(None),
    }
}

/// The head of a function behind its linkage, and its block.
fn head(alloc: Global, internal: bool, lexemes: &[Lexeme]) -> Result<Option<Entity>, OutOfMemory>
    ensures exact { IfOk result (λ found. found ≡ head_at internal (seen lexemes.now)) }
    ensures within { IfOk result (λ found. IfSome found (λ e. group_len (length e.params) + lines_len e.lines + 7 ≤ length lexemes.now)) }
    ensures linkage { IfOk result (λ found. IfSome found (λ e. e.internal ≡ internal)) }
{
    match lexemes {
        [ty, name, rest @ ..] => {
            if !is_word(ty, b"i32") {
                return Ok(None);
            }
            match at_name(alloc, name)? {
                Some(name) => behind_name(alloc, internal, name, rest),
                None => Ok(None),
            }
        }
        _ => Ok(None),
    }
}

/// The definition behind `define`.
fn definition(alloc: Global, lexemes: &[Lexeme]) -> Result<Option<Entity>, OutOfMemory>
    ensures exact { IfOk result (λ found. found ≡ linkage_at (seen lexemes.now)) }
    ensures within { IfOk result (λ found. IfSome found (λ e. entity_len e ≤ length lexemes.now + 1)) }
{
    match lexemes {
        [linkage, rest @ ..] => {
            if is_word(linkage, b"internal") {
                head(alloc, true, rest)
            } else {
                head(alloc, false, lexemes)
            }
        }
        [] => Ok(None),
    }
}

/// The definition at the front.
fn entity(alloc: Global, lexemes: &[Lexeme]) -> Result<Option<Entity>, OutOfMemory>
    ensures exact { IfOk result (λ found. found ≡ entity_at (seen lexemes.now)) }
    ensures within { IfOk result (λ found. IfSome found (λ e. entity_len e ≤ length lexemes.now)) }
{
    match lexemes {
        [define, rest @ ..] => {
            if is_word(define, b"define") {
                definition(alloc, rest)
            } else {
                Ok(None)
            }
        }
        [] => Ok(None),
    }
}

/// How many lexemes a definition without a label takes.
fn entity_len(entity: &Entity) -> usize
    requires { entity_len entity.now < 2 ^ 64 }
    ensures { result ≡ entity_len entity.now }
{
    let around = if entity.internal { 9 } else { 8 };
    around + group_len(entity.params.len()) + lines_len(entity.lines.as_slice())
}

/// The definitions that the lexemes spell, one after another.
pub fn entities(alloc: Global, lexemes: &[Lexeme]) -> Result<Option<List<Entity>>, OutOfMemory>
    ensures { IfOk result (λ found. found ≡ entities_from 0 (seen lexemes.now)) }
{
    let mut entities = List::new(alloc);
    let mut at = 0;
    'reading: while at < lexemes.len() {
        match entity(alloc, &lexemes[at..])? {
            Some(entity) => {
                at += entity_len(&entity);
                entities.push(entity)?;
            }
            None => return Ok(None),
        }
    }
    Ok(Some(entities))
}
