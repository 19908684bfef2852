//! The shapes of words.
ghost use Rattle.std.specs.Prelude.{◌≡◌};
ghost use Rattle.std.specs.List.{list_all};
ghost use Rattle.std.specs.Char.{is_ascii_digit};
ghost use Rattle.ir_grammar.specs.Words.{is_integer_type, other_word, among, word_shape, words_in_dots, words_in_a, words_in_b, words_in_c, words_in_d, words_in_e, words_in_f, words_in_g, words_in_h, words_in_i, words_in_l, words_in_m, words_in_n, words_in_o, words_in_p, words_in_r, words_in_s, words_in_t, words_in_u, words_in_v, words_in_w, words_in_x, words_in_z};

use crate::shape::{Flag, Free, Shape, Value};
use ir_syntax::Linkage;
use ir_types::{BinOp, CastOp, Ext, Pred, Scalar};

/// Whether all of these bytes are decimal digits.
fn are_digits(text: &[u8]) -> bool
    ensures { result ≡ list_all is_ascii_digit text.now }
{
    text.iter().all(|byte| byte.is_ascii_digit())
}

/// Whether the word is `i` and decimal digits.
fn is_integer_type(text: &[u8]) -> bool
    ensures { result ≡ is_integer_type text.now }
{
    match text {
        [b'i', digits @ ..] => !digits.is_empty() && are_digits(digits),
        _ => false,
    }
}

/// The shape of any other word: integer types and words that end in `cc` are reserved.
fn other_word(text: &[u8]) -> Shape
    ensures { result ≡ other_word text.now }
{
    if is_integer_type(text) {
        return Shape::Reserved;
    }
    if text.ends_with(b"cc") {
        Shape::Reserved
    } else {
        Shape::Free(Free::Other)
    }
}

/// The words that begin with `.`.
fn words_in_dots(text: &[u8]) -> Shape
    ensures { result ≡ among words_in_dots text.now (other_word text.now) }
{
    if text == b"...".as_slice() {
        return Shape::Dots;
    }
    other_word(text)
}

/// The words that begin with `a`.
fn words_in_a(text: &[u8]) -> Shape
    ensures { result ≡ among words_in_a text.now (other_word text.now) }
{
    if text == b"alloca".as_slice() {
        return Shape::Alloca;
    }
    if text == b"attributes".as_slice() {
        return Shape::AttributesWord;
    }
    if text == b"align".as_slice() {
        return Shape::Align;
    }
    if text == b"add".as_slice() {
        return Shape::Bin(BinOp::Add);
    }
    if text == b"ashr".as_slice() {
        return Shape::Bin(BinOp::Ashr);
    }
    if text == b"and".as_slice() {
        return Shape::Bin(BinOp::And);
    }
    if text == b"asm".as_slice() {
        return Shape::Reserved;
    }
    if text == b"alias".as_slice() {
        return Shape::Reserved;
    }
    if text == b"addrspace".as_slice() {
        return Shape::Reserved;
    }
    if text == b"appending".as_slice() {
        return Shape::Reserved;
    }
    if text == b"available_externally".as_slice() {
        return Shape::Reserved;
    }
    if text == b"atomicrmw".as_slice() {
        return Shape::Reserved;
    }
    other_word(text)
}

/// The words that begin with `b`.
fn words_in_b(text: &[u8]) -> Shape
    ensures { result ≡ among words_in_b text.now (other_word text.now) }
{
    if text == b"br".as_slice() {
        return Shape::Br;
    }
    if text == b"bfloat".as_slice() {
        return Shape::Reserved;
    }
    if text == b"byval".as_slice() {
        return Shape::Reserved;
    }
    if text == b"byref".as_slice() {
        return Shape::Reserved;
    }
    other_word(text)
}

/// The words that begin with `c`.
fn words_in_c(text: &[u8]) -> Shape
    ensures { result ≡ among words_in_c text.now (other_word text.now) }
{
    if text == b"call".as_slice() {
        return Shape::Call;
    }
    if text == b"constant".as_slice() {
        return Shape::ConstantWord;
    }
    if text == b"comdat".as_slice() {
        return Shape::Reserved;
    }
    if text == b"common".as_slice() {
        return Shape::Reserved;
    }
    if text == b"cmpxchg".as_slice() {
        return Shape::Reserved;
    }
    if text == b"callbr".as_slice() {
        return Shape::Reserved;
    }
    if text == b"catchswitch".as_slice() {
        return Shape::Reserved;
    }
    if text == b"catchret".as_slice() {
        return Shape::Reserved;
    }
    if text == b"cleanupret".as_slice() {
        return Shape::Reserved;
    }
    other_word(text)
}

/// The words that begin with `d`.
fn words_in_d(text: &[u8]) -> Shape
    ensures { result ≡ among words_in_d text.now (other_word text.now) }
{
    if text == b"declare".as_slice() {
        return Shape::Declare;
    }
    if text == b"define".as_slice() {
        return Shape::Define;
    }
    if text == b"distinct".as_slice() {
        return Shape::Distinct;
    }
    if text == b"disjoint".as_slice() {
        return Shape::Free(Free::Flag(Flag::Disjoint));
    }
    if text == b"datalayout".as_slice() {
        return Shape::Free(Free::Datalayout);
    }
    if text == b"double".as_slice() {
        return Shape::Reserved;
    }
    if text == b"dllimport".as_slice() {
        return Shape::Reserved;
    }
    if text == b"dllexport".as_slice() {
        return Shape::Reserved;
    }
    other_word(text)
}

/// The words that begin with `e`.
fn words_in_e(text: &[u8]) -> Shape
    ensures { result ≡ among words_in_e text.now (other_word text.now) }
{
    if text == b"external".as_slice() {
        return Shape::Linkage(Linkage::External);
    }
    if text == b"exact".as_slice() {
        return Shape::Free(Free::Flag(Flag::Exact));
    }
    if text == b"eq".as_slice() {
        return Shape::Free(Free::Pred(Pred::Eq));
    }
    if text == b"externally_initialized".as_slice() {
        return Shape::Reserved;
    }
    if text == b"extern_weak".as_slice() {
        return Shape::Reserved;
    }
    if text == b"extractvalue".as_slice() {
        return Shape::Reserved;
    }
    other_word(text)
}

/// The words that begin with `f`.
fn words_in_f(text: &[u8]) -> Shape
    ensures { result ≡ among words_in_f text.now (other_word text.now) }
{
    if text == b"false".as_slice() {
        return Shape::Value(Value::False);
    }
    if text == b"float".as_slice() {
        return Shape::Reserved;
    }
    if text == b"fp128".as_slice() {
        return Shape::Reserved;
    }
    if text == b"fence".as_slice() {
        return Shape::Reserved;
    }
    if text == b"freeze".as_slice() {
        return Shape::Reserved;
    }
    if text == b"fcmp".as_slice() {
        return Shape::Reserved;
    }
    other_word(text)
}

/// The words that begin with `g`.
fn words_in_g(text: &[u8]) -> Shape
    ensures { result ≡ among words_in_g text.now (other_word text.now) }
{
    if text == b"getelementptr".as_slice() {
        return Shape::Gep;
    }
    if text == b"global".as_slice() {
        return Shape::Global;
    }
    if text == b"gc".as_slice() {
        return Shape::Reserved;
    }
    other_word(text)
}

/// The words that begin with `h`.
fn words_in_h(text: &[u8]) -> Shape
    ensures { result ≡ among words_in_h text.now (other_word text.now) }
{
    if text == b"half".as_slice() {
        return Shape::Reserved;
    }
    other_word(text)
}

/// The words that begin with `i`.
fn words_in_i(text: &[u8]) -> Shape
    ensures { result ≡ among words_in_i text.now (other_word text.now) }
{
    if text == b"i1".as_slice() {
        return Shape::Scalar(Scalar::I1);
    }
    if text == b"i8".as_slice() {
        return Shape::Scalar(Scalar::I8);
    }
    if text == b"i16".as_slice() {
        return Shape::Scalar(Scalar::I16);
    }
    if text == b"i32".as_slice() {
        return Shape::Scalar(Scalar::I32);
    }
    if text == b"i64".as_slice() {
        return Shape::Scalar(Scalar::I64);
    }
    if text == b"icmp".as_slice() {
        return Shape::Icmp;
    }
    if text == b"internal".as_slice() {
        return Shape::Linkage(Linkage::Internal);
    }
    if text == b"inbounds".as_slice() {
        return Shape::Free(Free::Flag(Flag::Inbounds));
    }
    if text == b"ifunc".as_slice() {
        return Shape::Reserved;
    }
    if text == b"inalloca".as_slice() {
        return Shape::Reserved;
    }
    if text == b"inreg".as_slice() {
        return Shape::Reserved;
    }
    if text == b"invoke".as_slice() {
        return Shape::Reserved;
    }
    if text == b"indirectbr".as_slice() {
        return Shape::Reserved;
    }
    if text == b"insertvalue".as_slice() {
        return Shape::Reserved;
    }
    other_word(text)
}

/// The words that begin with `l`.
fn words_in_l(text: &[u8]) -> Shape
    ensures { result ≡ among words_in_l text.now (other_word text.now) }
{
    if text == b"load".as_slice() {
        return Shape::Load;
    }
    if text == b"label".as_slice() {
        return Shape::LabelWord;
    }
    if text == b"lshr".as_slice() {
        return Shape::Bin(BinOp::Lshr);
    }
    if text == b"linkonce".as_slice() {
        return Shape::Reserved;
    }
    if text == b"linkonce_odr".as_slice() {
        return Shape::Reserved;
    }
    if text == b"landingpad".as_slice() {
        return Shape::Reserved;
    }
    other_word(text)
}

/// The words that begin with `m`.
fn words_in_m(text: &[u8]) -> Shape
    ensures { result ≡ among words_in_m text.now (other_word text.now) }
{
    if text == b"mul".as_slice() {
        return Shape::Bin(BinOp::Mul);
    }
    if text == b"metadata".as_slice() {
        return Shape::Reserved;
    }
    if text == b"module".as_slice() {
        return Shape::Reserved;
    }
    if text == b"musttail".as_slice() {
        return Shape::Reserved;
    }
    other_word(text)
}

/// The words that begin with `n`.
fn words_in_n(text: &[u8]) -> Shape
    ensures { result ≡ among words_in_n text.now (other_word text.now) }
{
    if text == b"notail".as_slice() {
        return Shape::Tail;
    }
    if text == b"null".as_slice() {
        return Shape::Value(Value::Null);
    }
    if text == b"nuw".as_slice() {
        return Shape::Free(Free::Flag(Flag::Nuw));
    }
    if text == b"nsw".as_slice() {
        return Shape::Free(Free::Flag(Flag::Nsw));
    }
    if text == b"nneg".as_slice() {
        return Shape::Free(Free::Flag(Flag::Nneg));
    }
    if text == b"nusw".as_slice() {
        return Shape::Free(Free::Flag(Flag::Nusw));
    }
    if text == b"ne".as_slice() {
        return Shape::Free(Free::Pred(Pred::Ne));
    }
    if text == b"none".as_slice() {
        return Shape::Reserved;
    }
    if text == b"nest".as_slice() {
        return Shape::Reserved;
    }
    other_word(text)
}

/// The words that begin with `o`.
fn words_in_o(text: &[u8]) -> Shape
    ensures { result ≡ among words_in_o text.now (other_word text.now) }
{
    if text == b"opaque".as_slice() {
        return Shape::Opaque;
    }
    if text == b"or".as_slice() {
        return Shape::Bin(BinOp::Or);
    }
    other_word(text)
}

/// The words that begin with `p`.
fn words_in_p(text: &[u8]) -> Shape
    ensures { result ≡ among words_in_p text.now (other_word text.now) }
{
    if text == b"ptr".as_slice() {
        return Shape::Scalar(Scalar::Ptr);
    }
    if text == b"phi".as_slice() {
        return Shape::Phi;
    }
    if text == b"private".as_slice() {
        return Shape::Linkage(Linkage::Private);
    }
    if text == b"poison".as_slice() {
        return Shape::Value(Value::Poison);
    }
    if text == b"ppc_fp128".as_slice() {
        return Shape::Reserved;
    }
    if text == b"partition".as_slice() {
        return Shape::Reserved;
    }
    if text == b"prefix".as_slice() {
        return Shape::Reserved;
    }
    if text == b"prologue".as_slice() {
        return Shape::Reserved;
    }
    if text == b"personality".as_slice() {
        return Shape::Reserved;
    }
    if text == b"preallocated".as_slice() {
        return Shape::Reserved;
    }
    other_word(text)
}

/// The words that begin with `r`.
fn words_in_r(text: &[u8]) -> Shape
    ensures { result ≡ among words_in_r text.now (other_word text.now) }
{
    if text == b"ret".as_slice() {
        return Shape::Ret;
    }
    if text == b"resume".as_slice() {
        return Shape::Reserved;
    }
    other_word(text)
}

/// The words that begin with `s`.
fn words_in_s(text: &[u8]) -> Shape
    ensures { result ≡ among words_in_s text.now (other_word text.now) }
{
    if text == b"select".as_slice() {
        return Shape::Select;
    }
    if text == b"store".as_slice() {
        return Shape::Store;
    }
    if text == b"switch".as_slice() {
        return Shape::Switch;
    }
    if text == b"source_filename".as_slice() {
        return Shape::SourceFilename;
    }
    if text == b"signext".as_slice() {
        return Shape::Ext(Ext::Signed);
    }
    if text == b"sub".as_slice() {
        return Shape::Bin(BinOp::Sub);
    }
    if text == b"sdiv".as_slice() {
        return Shape::Bin(BinOp::Sdiv);
    }
    if text == b"srem".as_slice() {
        return Shape::Bin(BinOp::Srem);
    }
    if text == b"shl".as_slice() {
        return Shape::Bin(BinOp::Shl);
    }
    if text == b"sext".as_slice() {
        return Shape::Cast(CastOp::Sext);
    }
    if text == b"sgt".as_slice() {
        return Shape::Free(Free::Pred(Pred::Sgt));
    }
    if text == b"sge".as_slice() {
        return Shape::Free(Free::Pred(Pred::Sge));
    }
    if text == b"slt".as_slice() {
        return Shape::Free(Free::Pred(Pred::Slt));
    }
    if text == b"sle".as_slice() {
        return Shape::Free(Free::Pred(Pred::Sle));
    }
    if text == b"section".as_slice() {
        return Shape::Reserved;
    }
    if text == b"sret".as_slice() {
        return Shape::Reserved;
    }
    if text == b"swiftself".as_slice() {
        return Shape::Reserved;
    }
    if text == b"swifterror".as_slice() {
        return Shape::Reserved;
    }
    if text == b"swiftasync".as_slice() {
        return Shape::Reserved;
    }
    other_word(text)
}

/// The words that begin with `t`.
fn words_in_t(text: &[u8]) -> Shape
    ensures { result ≡ among words_in_t text.now (other_word text.now) }
{
    if text == b"tail".as_slice() {
        return Shape::Tail;
    }
    if text == b"to".as_slice() {
        return Shape::To;
    }
    if text == b"type".as_slice() {
        return Shape::TypeWord;
    }
    if text == b"target".as_slice() {
        return Shape::Target;
    }
    if text == b"true".as_slice() {
        return Shape::Value(Value::True);
    }
    if text == b"trunc".as_slice() {
        return Shape::Cast(CastOp::Trunc);
    }
    if text == b"triple".as_slice() {
        return Shape::Free(Free::Triple);
    }
    if text == b"token".as_slice() {
        return Shape::Reserved;
    }
    if text == b"thread_local".as_slice() {
        return Shape::Reserved;
    }
    other_word(text)
}

/// The words that begin with `u`.
fn words_in_u(text: &[u8]) -> Shape
    ensures { result ≡ among words_in_u text.now (other_word text.now) }
{
    if text == b"unreachable".as_slice() {
        return Shape::Unreachable;
    }
    if text == b"undef".as_slice() {
        return Shape::Value(Value::Undef);
    }
    if text == b"udiv".as_slice() {
        return Shape::Bin(BinOp::Udiv);
    }
    if text == b"urem".as_slice() {
        return Shape::Bin(BinOp::Urem);
    }
    if text == b"ugt".as_slice() {
        return Shape::Free(Free::Pred(Pred::Ugt));
    }
    if text == b"uge".as_slice() {
        return Shape::Free(Free::Pred(Pred::Uge));
    }
    if text == b"ult".as_slice() {
        return Shape::Free(Free::Pred(Pred::Ult));
    }
    if text == b"ule".as_slice() {
        return Shape::Free(Free::Pred(Pred::Ule));
    }
    if text == b"uselistorder".as_slice() {
        return Shape::Reserved;
    }
    if text == b"uselistorder_bb".as_slice() {
        return Shape::Reserved;
    }
    other_word(text)
}

/// The words that begin with `v`.
fn words_in_v(text: &[u8]) -> Shape
    ensures { result ≡ among words_in_v text.now (other_word text.now) }
{
    if text == b"void".as_slice() {
        return Shape::Void;
    }
    if text == b"va_arg".as_slice() {
        return Shape::Reserved;
    }
    other_word(text)
}

/// The words that begin with `w`.
fn words_in_w(text: &[u8]) -> Shape
    ensures { result ≡ among words_in_w text.now (other_word text.now) }
{
    if text == b"weak".as_slice() {
        return Shape::Reserved;
    }
    if text == b"weak_odr".as_slice() {
        return Shape::Reserved;
    }
    other_word(text)
}

/// The words that begin with `x`.
fn words_in_x(text: &[u8]) -> Shape
    ensures { result ≡ among words_in_x text.now (other_word text.now) }
{
    if text == b"x".as_slice() {
        return Shape::X;
    }
    if text == b"xor".as_slice() {
        return Shape::Bin(BinOp::Xor);
    }
    if text == b"x86_fp80".as_slice() {
        return Shape::Reserved;
    }
    if text == b"x86_amx".as_slice() {
        return Shape::Reserved;
    }
    other_word(text)
}

/// The words that begin with `z`.
fn words_in_z(text: &[u8]) -> Shape
    ensures { result ≡ among words_in_z text.now (other_word text.now) }
{
    if text == b"zeroext".as_slice() {
        return Shape::Ext(Ext::Unsigned);
    }
    if text == b"zeroinitializer".as_slice() {
        return Shape::Value(Value::Zero);
    }
    if text == b"zext".as_slice() {
        return Shape::Cast(CastOp::Zext);
    }
    other_word(text)
}

/// The shape of a word.
pub fn word_shape(text: &[u8]) -> Shape
    ensures { result ≡ word_shape text.now }
{
    match text {
        [b'.', ..] => words_in_dots(text),
        [b'a', ..] => words_in_a(text),
        [b'b', ..] => words_in_b(text),
        [b'c', ..] => words_in_c(text),
        [b'd', ..] => words_in_d(text),
        [b'e', ..] => words_in_e(text),
        [b'f', ..] => words_in_f(text),
        [b'g', ..] => words_in_g(text),
        [b'h', ..] => words_in_h(text),
        [b'i', ..] => words_in_i(text),
        [b'l', ..] => words_in_l(text),
        [b'm', ..] => words_in_m(text),
        [b'n', ..] => words_in_n(text),
        [b'o', ..] => words_in_o(text),
        [b'p', ..] => words_in_p(text),
        [b'r', ..] => words_in_r(text),
        [b's', ..] => words_in_s(text),
        [b't', ..] => words_in_t(text),
        [b'u', ..] => words_in_u(text),
        [b'v', ..] => words_in_v(text),
        [b'w', ..] => words_in_w(text),
        [b'x', ..] => words_in_x(text),
        [b'z', ..] => words_in_z(text),
        _ => other_word(text),
    }
}
