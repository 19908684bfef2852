//! The production of a nonterminal that a token begins.
ghost use Rattle.std.specs.Prelude.{◌≡◌, ◌∷◌, ◌++◌, [], false};
ghost use Rattle.ir_grammar.specs.declared.grammar.Item.TheVariants as item;
ghost use Rattle.ir_grammar.specs.declared.grammar.Name.TheVariants as the;
ghost use Rattle.ir_grammar.specs.declared.grammar.Terminal.TheVariants as a;
ghost use Rattle.ir_grammar.specs.declared.grammar.Keep.TheVariants as kept;
ghost use Rattle.ir_grammar.specs.Blocks.{phis_where, own_lines, terminators, lines, named_line, switch_type, case};
ghost use Rattle.ir_grammar.specs.Calls.{called, void_callee, named_call};
ghost use Rattle.ir_grammar.specs.Constants.{address_flags, operand, operand_of, element, base};
ghost use Rattle.ir_grammar.specs.Attributes.{attribute};
ghost use Rattle.ir_grammar.specs.Entities.{attributed, variable};
ghost use Rattle.ir_grammar.specs.Items.{each_then, comma, open_paren, ptr};
ghost use Rattle.ir_grammar.specs.Types.{type, type_body};
ghost use Rattle.ir_grammar.specs.Values.{value, select_arms};
ghost use Rattle.ir_grammar.specs.Mirrors.Steps.{rule_of, by_rule, by_step};
ghost use Rattle.ir_grammar.specs.Mirrors.Walk.{first_of, turn_at};

use crate::attributes::{
    align_or_attachment, align_part, attached_node, attachment, attribute, attribute_align, braced,
    braces_part, call_attribute, comma_attachment, equal_string, extension, group, meta_node,
    meta_value, parentheses_part, parenthesized,
};
use crate::blocks::{
    block, body, branch, entry_or_attachment, entry_part, label_alone, phi_alone, return_value,
    terminators,
};
use crate::calls::{argument, more_types, named_call, next_type, types, whole_type};
use crate::constants::{constant, constant_index, number};
use crate::entities::{
    declared, declared_params, entity, external, linkage_word, more_declared, next_declared,
    own_variable, param, param_name, target_part, variable_option, variable_part,
};
use crate::grammar::{Item, Keep, Name, Terminal};
use crate::items::{
    A_LOCAL, A_SCALAR, ADDRESS_FLAGS, ATTACHMENTS, ATTRIBUTES, CLOSE_PAREN, COMMA, EQUALS, LABEL,
    OPEN_PAREN, OPEN_SQUARE, OPERAND, POINTER,
};
use crate::rules::{Rule, Step};
use crate::shape::{AtName, Shape};
use crate::terminals::stands_for;
use crate::types::ty;
use crate::values::{
    alloca_option, alloca_part, arithmetic, index_or_attachment, index_part, other_value,
};
use ir_types::Scalar;

/// The rule with nothing more behind it.
fn alone(rule: Option<Rule>) -> Option<Step>
    ensures { by_step result ≡ by_rule rule }
{
    match rule {
        Some(rule) => Some(rule.then(None, &[])),
        None => None,
    }
}

/// `%name`, or a constant.
fn operand(shape: Shape) -> Option<Rule>
    ensures { by_rule result ≡ first_of operand shape }
{
    if stands_for(Terminal::Only(Shape::Local), shape) {
        Some(Rule::keeps(&[]))
    } else {
        constant(shape)
    }
}

/// `T C`.
fn element(shape: Shape) -> Option<Step>
    ensures { by_step result ≡ first_of element shape }
{
    match ty(shape) {
        Some(rule) => Some(rule.then(None, &[Item::One(Name::Constant)])),
        None => None,
    }
}

/// `opaque`, or a type.
fn type_body(shape: Shape) -> Option<Rule>
    ensures { by_rule result ≡ first_of type_body shape }
{
    if stands_for(Terminal::Only(Shape::Opaque), shape) {
        Some(Rule::keeps(&[]))
    } else {
        ty(shape)
    }
}

/// `T a, T b`, with one type.
fn select_arms(shape: Shape) -> Option<Step>
    ensures { by_step result ≡ first_of select_arms shape }
{
    match shape {
        Shape::Scalar(ty) => {
            let other = Item::Token(Terminal::Only(Shape::Scalar(ty)), Keep::Drops);
            let rule = Rule::keeps(&[OPERAND, COMMA]);
            Some(rule.then(Some(other), &[OPERAND]))
        }
        _ => None,
    }
}

/// An instruction that has a result, other than a phi and a call.
fn value(shape: Shape) -> Option<Rule>
    ensures { by_rule result ≡ first_of value shape }
{
    match arithmetic(shape) {
        Some(rule) => Some(rule),
        None => other_value(shape),
    }
}

/// What a constant address stands on, where so many of them are open.
fn base(count: u8, shape: Shape) -> Option<Step>
    ensures { by_step result ≡ first_of (base count) shape }
{
    if stands_for(Terminal::AnyAt, shape) {
        return Some(Rule::keeps(&[]).then(None, &[]));
    }
    if count < 64 && stands_for(Terminal::Only(Shape::Gep), shape) {
        return Some(address().then(
            Some(Item::One(Name::Base(count + 1))),
            &[Item::Many(Name::ConstantIndex), CLOSE_PAREN],
        ));
    }
    None
}

/// What stands before the base of a constant address.
fn address() -> Rule
    ensures { rule_of result ≡ (kept.AsAddress, address_flags ∷ open_paren ∷ item.One the.Type ∷ comma ∷ ptr ∷ []) }
{
    Rule::as_address(&[
        ADDRESS_FLAGS,
        OPEN_PAREN,
        Item::One(Name::Type),
        COMMA,
        POINTER,
    ])
}

/// Behind the attributes of a call without a name.
fn called(phis: bool, shape: Shape) -> Option<Step>
    ensures { by_step result ≡ first_of (called phis) shape }
{
    match shape {
        Shape::Scalar(_) => {
            let rule = Rule::as_returned(&[
                Item::May(Name::WholeType),
                OPERAND,
                OPEN_PAREN,
                Item::Separated(Name::Argument),
                CLOSE_PAREN,
                Item::Many(Name::CallAttribute),
                ATTACHMENTS,
            ]);
            Some(rule.then(Some(Item::One(Name::Lines(false))), &[]))
        }
        Shape::Void => {
            let rule = Rule::keeps(&[Item::May(Name::WholeType)]);
            Some(rule.then(Some(Item::One(Name::VoidCallee(phis))), &[]))
        }
        _ => None,
    }
}

/// `%name`, or a constant that is no name of debug information.
fn called_operand(shape: Shape) -> Option<Rule>
    ensures { by_rule result ≡ first_of (operand_of a.CalledAt) shape }
{
    if stands_for(Terminal::Only(Shape::At(AtName::Debug)), shape) {
        None
    } else {
        operand(shape)
    }
}

/// The callee of a call of `void`, the rest of it, and the lines behind it.
fn void_callee(phis: bool, shape: Shape) -> Option<Step>
    ensures { by_step result ≡ first_of (void_callee phis) shape }
{
    if stands_for(Terminal::Only(Shape::At(AtName::Debug)), shape) {
        let rule = Rule::keeps(&[
            Item::One(Name::Group),
            Item::Many(Name::CallAttribute),
            ATTACHMENTS,
        ]);
        return Some(rule.then(Some(Item::One(Name::Lines(phis))), &[]));
    }
    match called_operand(shape) {
        Some(rule) => Some(rule.then(
            None,
            &[
                OPEN_PAREN,
                Item::Separated(Name::Argument),
                CLOSE_PAREN,
                Item::Many(Name::CallAttribute),
                ATTACHMENTS,
                Item::One(Name::Lines(false)),
            ],
        )),
        None => None,
    }
}

/// A phi, where one may still come.
fn phi(phis: bool, shape: Shape) -> Option<Rule>
    ensures { by_rule result ≡ first_of (phis_where phis) shape }
{
    if phis { phi_alone(shape) } else { None }
}

/// A line other than an instruction that has a result and a terminator.
fn own_line(phis: bool, shape: Shape) -> Option<Step>
    ensures { by_step result ≡ first_of (own_lines phis) shape }
{
    match shape {
        Shape::Local => {
            let rule = Rule::as_result(&[EQUALS]);
            Some(rule.then(Some(Item::One(Name::NamedLine(phis))), &[]))
        }
        Shape::Record => {
            let rule = Rule::drops(&[Item::One(Name::Group)]);
            Some(rule.then(Some(Item::One(Name::Lines(phis))), &[]))
        }
        Shape::Store => {
            let rule = Rule::keeps(&[
                A_SCALAR,
                OPERAND,
                COMMA,
                POINTER,
                OPERAND,
                Item::May(Name::AlignPart),
            ]);
            Some(rule.then(Some(Item::One(Name::Lines(false))), &[]))
        }
        Shape::Call => {
            let rule = Rule::keeps(&[ATTRIBUTES, Item::May(Name::Extension), ATTRIBUTES]);
            Some(rule.then(Some(Item::One(Name::Called(phis))), &[]))
        }
        Shape::Tail => {
            let rule = Rule::drops(&[
                Item::Token(Terminal::Only(Shape::Call), Keep::Keeps),
                ATTRIBUTES,
                Item::May(Name::Extension),
                ATTRIBUTES,
            ]);
            Some(rule.then(Some(Item::One(Name::Called(phis))), &[]))
        }
        _ => None,
    }
}

/// An instruction that has a result, with the lines behind it.
fn value_line(shape: Shape) -> Option<Step>
    ensures { by_step result ≡ first_of (each_then (item.One (the.Lines false) ∷ []) value) shape }
{
    match value(shape) {
        Some(rule) => Some(rule.then(Some(Item::One(Name::Lines(false))), &[])),
        None => None,
    }
}

/// A terminator, or an instruction that has a result.
fn plain_line(shape: Shape) -> Option<Step>
    ensures { by_step result ≡ first_of (terminators ++ each_then (item.One (the.Lines false) ∷ []) value) shape }
{
    match alone(terminators(shape)) {
        Some(step) => Some(step),
        None => value_line(shape),
    }
}

/// A phi where one may still come, a terminator, or an instruction that has a result.
fn common_line(phis: bool, shape: Shape) -> Option<Step>
    ensures { by_step result ≡ first_of (phis_where phis ++ (terminators ++ each_then (item.One (the.Lines false) ∷ []) value)) shape }
{
    match alone(phi(phis, shape)) {
        Some(step) => Some(step),
        None => plain_line(shape),
    }
}

/// The lines of a block.
fn lines(phis: bool, shape: Shape) -> Option<Step>
    ensures { by_step result ≡ first_of (lines phis) shape }
{
    match own_line(phis, shape) {
        Some(step) => Some(step),
        None => common_line(phis, shape),
    }
}

/// A call or another instruction that has a result.
fn named_value(shape: Shape) -> Option<Rule>
    ensures { by_rule result ≡ first_of (named_call ++ value) shape }
{
    match named_call(shape) {
        Some(rule) => Some(rule),
        None => value(shape),
    }
}

/// A call or another instruction that has a result, with the lines behind it.
fn named_value_line(shape: Shape) -> Option<Step>
    ensures { by_step result ≡ first_of (each_then (item.One (the.Lines false) ∷ []) (named_call ++ value)) shape }
{
    match named_value(shape) {
        Some(rule) => Some(rule.then(Some(Item::One(Name::Lines(false))), &[])),
        None => None,
    }
}

/// An instruction with a name, and the lines behind it.
fn named_line(phis: bool, shape: Shape) -> Option<Step>
    ensures { by_step result ≡ first_of (named_line phis) shape }
{
    match alone(phi(phis, shape)) {
        Some(step) => Some(step),
        None => named_value_line(shape),
    }
}

/// `T v, label %d [ cases ]`.
fn switch_type(shape: Shape) -> Option<Step>
    ensures { by_step result ≡ first_of switch_type shape }
{
    match shape {
        Shape::Scalar(ty) => {
            let rule = Rule::keeps(&[OPERAND, COMMA, LABEL, A_LOCAL, OPEN_SQUARE]);
            Some(rule.then(
                Some(Item::Many(Name::Case(ty))),
                &[Item::Token(Terminal::Only(Shape::CloseSquare), Keep::Keeps)],
            ))
        }
        _ => None,
    }
}

/// `T n, label %l`.
fn case(ty: Scalar, shape: Shape) -> Option<Rule>
    ensures { by_rule result ≡ first_of (case ty) shape }
{
    if stands_for(Terminal::Only(Shape::Scalar(ty)), shape) {
        Some(Rule::drops(&[Item::One(Name::Number), COMMA, LABEL, A_LOCAL]))
    } else {
        None
    }
}

/// Attributes of a variable, and what stands behind them.
fn attributed(shape: Shape) -> Option<Step>
    ensures { by_step result ≡ first_of (each_then attributed attribute) shape }
{
    match attribute(shape) {
        Some(rule) => Some(rule.then(
            None,
            &[
                ATTRIBUTES,
                Item::Token(Terminal::GlobalOrConstant, Keep::Keeps),
                Item::One(Name::Type),
                Item::One(Name::Constant),
                Item::Many(Name::VariablePart),
            ],
        )),
        None => None,
    }
}

/// Behind the name of a variable.
fn variable(shape: Shape) -> Option<Step>
    ensures { by_step result ≡ first_of variable shape }
{
    match alone(own_variable(shape)) {
        Some(step) => Some(step),
        None => attributed(shape),
    }
}

/// The production of the nonterminal that a token of the shape begins.
pub fn turn_at(name: Name, shape: Shape) -> Option<Step>
    ensures { by_step result ≡ turn_at name shape }
{
    match name {
        Name::Parenthesized => alone(parenthesized(shape)),
        Name::ParenthesesPart => alone(parentheses_part(shape)),
        Name::Braced => alone(braced(shape)),
        Name::BracesPart => alone(braces_part(shape)),
        Name::Group => alone(group(shape)),
        Name::Attribute => alone(attribute(shape)),
        Name::CallAttribute => alone(call_attribute(shape)),
        Name::EqualString => alone(equal_string(shape)),
        Name::AttributeAlign => alone(attribute_align(shape)),
        Name::Extension => alone(extension(shape)),
        Name::Attachment => alone(attachment(shape)),
        Name::AttachedNode => alone(attached_node(shape)),
        Name::CommaAttachment => alone(comma_attachment(shape)),
        Name::AlignPart => alone(align_part(shape)),
        Name::AlignOrAttachment => alone(align_or_attachment(shape)),
        Name::Type => alone(ty(shape)),
        Name::Constant => alone(constant(shape)),
        Name::Element => element(shape),
        Name::Number => alone(number(shape)),
        Name::Base(count) => base(count, shape),
        Name::ConstantIndex => alone(constant_index(shape)),
        Name::Operand => alone(operand(shape)),
        Name::WholeType => alone(whole_type(shape)),
        Name::Types => alone(types(shape)),
        Name::MoreTypes => alone(more_types(shape)),
        Name::NextType => alone(next_type(shape)),
        Name::Argument => alone(argument(shape)),
        Name::SelectArms => select_arms(shape),
        Name::AllocaPart => alone(alloca_part(shape)),
        Name::AllocaOption => alone(alloca_option(shape)),
        Name::IndexPart => alone(index_part(shape)),
        Name::IndexOrAttachment => alone(index_or_attachment(shape)),
        Name::EntryPart => alone(entry_part(shape)),
        Name::EntryOrAttachment => alone(entry_or_attachment(shape)),
        Name::Body => alone(body(shape)),
        Name::Block => alone(block(shape)),
        Name::Label => alone(label_alone(shape)),
        Name::Lines(phis) => lines(phis, shape),
        Name::NamedLine(phis) => named_line(phis, shape),
        Name::Called(phis) => called(phis, shape),
        Name::VoidCallee(phis) => void_callee(phis, shape),
        Name::ReturnValue => alone(return_value(shape)),
        Name::Branch => alone(branch(shape)),
        Name::SwitchType => switch_type(shape),
        Name::Case(ty) => alone(case(ty, shape)),
        Name::Entity => alone(entity(shape)),
        Name::TargetPart => alone(target_part(shape)),
        Name::TypeBody => alone(type_body(shape)),
        Name::Variable => variable(shape),
        Name::VariablePart => alone(variable_part(shape)),
        Name::VariableOption => alone(variable_option(shape)),
        Name::External => alone(external(shape)),
        Name::LinkageWord => alone(linkage_word(shape)),
        Name::Declared => alone(declared(shape)),
        Name::DeclaredParams => alone(declared_params(shape)),
        Name::MoreDeclared => alone(more_declared(shape)),
        Name::NextDeclared => alone(next_declared(shape)),
        Name::Param => alone(param(shape)),
        Name::ParamName => alone(param_name(shape)),
        Name::MetaValue => alone(meta_value(shape)),
        Name::MetaNode => alone(meta_node(shape)),
    }
}
