//! What the productions of the grammar are made of.
use crate::shape::{Flag, Shape};
use ir_types::Scalar;

/// A set of tokens, by their shapes.
#[derive(Clone, Copy, Debug, PartialEq, Eq)]
pub enum Terminal {
    /// Tokens of this shape alone.
    Only(Shape),
    /// Any name after `@`.
    AnyAt,
    /// A name after `@` that isn't one of debug information.
    CalledAt,
    /// A name after `@` that may be declared: one that doesn't begin with `llvm.`, or an intrinsic.
    DeclaredAt,
    /// `#` and a name.
    AnyHash,
    /// `!`, with or without a name.
    AnyMeta,
    /// An integer.
    AnyInt,
    /// An integer below 2^64, without a sign.
    CountInt,
    /// `i1`, `i8`, `i16`, `i32`, `i64` or `ptr`.
    AnyScalar,
    /// `i1`, `i8`, `i16`, `i32` or `i64`.
    IntegerScalar,
    /// `void`, or a scalar.
    VoidOrScalar,
    /// `external`, `internal` or `private`.
    AnyLinkage,
    /// `signext` or `zeroext`.
    AnyExt,
    /// `true`, `false`, `null`, `undef`, `poison` or `zeroinitializer`.
    AnyValue,
    /// A predicate of `icmp`.
    AnyPred,
    /// `global` or `constant`.
    GlobalOrConstant,
    /// A word that isn't reserved: flags and predicates are such words.
    FreeWord,
    /// Any token but `(` and `)`.
    NoParenthesis,
    /// Any token but `{` and `}`.
    NoBrace,
}

/// Whether a token is kept, and as what.
#[derive(Clone, Copy, Debug, PartialEq, Eq)]
pub enum Keep {
    Drops,
    Keeps,
    /// As the name of a result.
    AsResult,
    /// As the beginning of a constant address.
    AsAddress,
    /// A scalar, as what a call returns.
    AsReturned,
}

/// A flag of an instruction, and whether it is kept.
#[derive(Clone, Copy, Debug, PartialEq, Eq)]
pub struct FlagPart {
    pub flag: Flag,
    pub keep: Keep,
}

/// The flags that may still come, at most three.
#[derive(Clone, Copy, Debug, PartialEq, Eq)]
pub struct Flags {
    pub a: Option<FlagPart>,
    pub b: Option<FlagPart>,
    pub c: Option<FlagPart>,
}

/// The nonterminals of the grammar.
#[derive(Clone, Copy, Debug, PartialEq, Eq)]
pub enum Name {
    /// `( .. )`.
    Parenthesized,
    /// What stands between parentheses: a token, or a group of its own.
    ParenthesesPart,
    /// `{ .. }`.
    Braced,
    /// What stands between braces: a token, or a group of its own.
    BracesPart,
    /// `( .. )` or `{ .. }`.
    Group,
    /// A word that isn't reserved, with or without a group; a string, with or without `=` and a string; a hash; `align` and a number.
    Attribute,
    /// The same of a call, behind which a debug record may stand.
    CallAttribute,
    /// `= string`.
    EqualString,
    /// `n` or `( n )`, a power of two up to 2^32.
    AttributeAlign,
    /// `signext` or `zeroext`.
    Extension,
    /// `!name` and what stands behind it.
    Attachment,
    /// `!` and a group in braces, or `!name` with or without a group in parentheses.
    AttachedNode,
    /// `, attachment`.
    CommaAttachment,
    /// `, align n` or `, attachment`, and more attachments.
    AlignPart,
    /// `align n` or an attachment, and more attachments.
    AlignOrAttachment,
    /// A type.
    Type,
    /// A constant.
    Constant,
    /// A type and a constant of it.
    Element,
    /// A constant that is a number.
    Number,
    /// What a constant address stands on, where so many of them are open.
    Base(u8),
    /// `, iN n`.
    ConstantIndex,
    /// `%name` or a constant.
    Operand,
    /// `( types )`, with `...` behind them or not.
    WholeType,
    /// The types of a whole type, and `)`.
    Types,
    /// `)`, or a comma and more types.
    MoreTypes,
    /// More types behind a comma.
    NextType,
    /// `T attributes a`.
    Argument,
    /// `T a, T b`, with one type.
    SelectArms,
    /// `, iN n`, `, align n` or an attachment, behind the type of an `alloca`.
    AllocaPart,
    /// The same without the comma.
    AllocaOption,
    /// An index, or an attachment, behind a comma.
    IndexPart,
    /// The same without the comma.
    IndexOrAttachment,
    /// An entry, or an attachment, behind a comma.
    EntryPart,
    /// The same without the comma.
    EntryOrAttachment,
    /// `{ blocks }`.
    Body,
    /// A block with its label.
    Block,
    /// A label.
    Label,
    /// The lines of a block with its terminator: whether phis may still come.
    Lines(bool),
    /// An instruction that has a name, and the lines behind it.
    NamedLine(bool),
    /// What a call without a name returns, the rest of it, and the lines behind it.
    Called(bool),
    /// The callee of a call of `void`, the rest of it, and the lines behind it.
    VoidCallee(bool),
    /// `void`, or `T a`.
    ReturnValue,
    /// `label %l`, or `i1 c, label %l, label %m`.
    Branch,
    /// `T v, label %d [ cases ]`.
    SwitchType,
    /// `T c, label %l`.
    Case(Scalar),
    /// A top-level entity of a module.
    Entity,
    /// `datalayout = string`, or `triple = string`.
    TargetPart,
    /// `opaque`, or a type.
    TypeBody,
    /// What stands behind the name of a variable.
    Variable,
    /// `, align n` or `, attachment`.
    VariablePart,
    /// `align n` or an attachment.
    VariableOption,
    /// `external`.
    External,
    /// `external`, `internal` or `private`.
    LinkageWord,
    /// The name and the parameters of a declaration.
    Declared,
    /// The parameters of a declaration, and `)`.
    DeclaredParams,
    /// `)`, or a comma and more parameters.
    MoreDeclared,
    /// More parameters behind a comma.
    NextDeclared,
    /// `T attributes [%name]`.
    Param,
    /// `%name`.
    ParamName,
    /// `[distinct] !name`, with or without a group.
    MetaValue,
    /// `!name`, with or without a group.
    MetaNode,
}

/// What stands at a place of a production.
#[derive(Clone, Copy, Debug, PartialEq, Eq)]
pub enum Item {
    /// One token.
    Token(Terminal, Keep),
    One(Name),
    /// One or nothing.
    May(Name),
    /// Any number.
    Many(Name),
    /// Any number, with commas between them, which are dropped.
    Separated(Name),
    /// A comma and one more, any number of times.
    Further(Name),
    /// These flags in any order, each at most once.
    AnyOrder(Flags),
}
