//! What counts of a token for the grammar.
use ir_syntax::Linkage;
use ir_types::{BinOp, CastOp, Ext, Pred, Scalar};

/// What kind of symbol a name after `@` names.
#[derive(Clone, Copy, Debug, PartialEq, Eq)]
pub enum AtName {
    /// A name that doesn't begin with `llvm.`.
    Plain,
    /// An intrinsic that copies or fills memory.
    Memory,
    /// A name that begins with `llvm.dbg.` or `llvm.lifetime.`.
    Debug,
    /// Any other name that begins with `llvm.`.
    Other,
}

/// What kind of integer decimal digits write.
#[derive(Clone, Copy, Debug, PartialEq, Eq)]
pub enum Digits {
    /// A power of two from 1 to 2^32.
    Power,
    /// Any other number below 2^64, without a sign.
    Count,
    /// Any other integer.
    Other,
}

/// The words that stand for a value.
#[derive(Clone, Copy, Debug, PartialEq, Eq)]
pub enum Value {
    True,
    False,
    Null,
    Undef,
    Poison,
    /// `zeroinitializer`.
    Zero,
}

/// The words that are flags of instructions.
#[derive(Clone, Copy, Debug, PartialEq, Eq)]
pub enum Flag {
    Nuw,
    Nsw,
    Exact,
    Disjoint,
    Nneg,
    Inbounds,
    Nusw,
}

/// The words that aren't reserved: each may be an attribute.
#[derive(Clone, Copy, Debug, PartialEq, Eq)]
pub enum Free {
    Flag(Flag),
    Pred(Pred),
    Datalayout,
    Triple,
    Other,
}

/// What counts of a token for the grammar.
#[derive(Clone, Copy, Debug, PartialEq, Eq)]
pub enum Shape {
    /// `@name`.
    At(AtName),
    /// `%name`.
    Local,
    /// `#` and a name that doesn't begin with `dbg_`.
    Hash,
    /// `#dbg_` and any more.
    Record,
    /// `!` alone.
    Bang,
    /// `!` and a word.
    Meta,
    Str,
    CStr,
    Label,
    Int(Digits),
    Equals,
    Comma,
    OpenParen,
    CloseParen,
    OpenSquare,
    CloseSquare,
    OpenBrace,
    CloseBrace,
    OtherMark,
    Scalar(Scalar),
    Void,
    Linkage(Linkage),
    /// `signext` or `zeroext`.
    Ext(Ext),
    Value(Value),
    Bin(BinOp),
    Cast(CastOp),
    Icmp,
    Select,
    Phi,
    Alloca,
    Load,
    Store,
    /// `getelementptr`, of an instruction where it is kept.
    Gep,
    Call,
    Ret,
    Br,
    Switch,
    Unreachable,
    /// `tail` or `notail`.
    Tail,
    To,
    LabelWord,
    X,
    /// `...`.
    Dots,
    Global,
    ConstantWord,
    Declare,
    Define,
    TypeWord,
    Opaque,
    Target,
    SourceFilename,
    /// `attributes`.
    AttributesWord,
    Distinct,
    Align,
    /// A word that isn't reserved.
    Free(Free),
    /// A reserved word that stands nowhere.
    Reserved,
    /// The end of the text.
    End,
    /// `%name` before the `=` of an instruction: no token has this shape, but it may be kept so.
    Result,
    /// `getelementptr` of a constant: no token has this shape, but it may be kept so.
    Address,
    /// The scalar that a call returns: no token has this shape, but it may be kept so.
    Returned(Scalar),
}
