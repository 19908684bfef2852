//! Items that stand in many productions.
use crate::grammar::{FlagPart, Flags, Item, Keep, Name, Terminal};
use crate::shape::{Digits, Flag, Shape};
use ir_types::Scalar;

/// `,`, dropped.
pub const COMMA: Item = Item::Token(Terminal::Only(Shape::Comma), Keep::Drops);

/// `=`, dropped.
pub const EQUALS: Item = Item::Token(Terminal::Only(Shape::Equals), Keep::Drops);

/// `(`, dropped.
pub const OPEN_PAREN: Item = Item::Token(Terminal::Only(Shape::OpenParen), Keep::Drops);

/// The `)` that ends a list, kept.
pub const CLOSE_PAREN: Item = Item::Token(Terminal::Only(Shape::CloseParen), Keep::Keeps);

/// `[`, dropped.
pub const OPEN_SQUARE: Item = Item::Token(Terminal::Only(Shape::OpenSquare), Keep::Drops);

/// `]`, dropped.
pub const CLOSE_SQUARE: Item = Item::Token(Terminal::Only(Shape::CloseSquare), Keep::Drops);

/// `ptr`, dropped.
pub const POINTER: Item = Item::Token(Terminal::Only(Shape::Scalar(Scalar::Ptr)), Keep::Drops);

/// `label`, dropped.
pub const LABEL: Item = Item::Token(Terminal::Only(Shape::LabelWord), Keep::Drops);

/// A scalar, kept.
pub const A_SCALAR: Item = Item::Token(Terminal::AnyScalar, Keep::Keeps);

/// `%name`, kept.
pub const A_LOCAL: Item = Item::Token(Terminal::Only(Shape::Local), Keep::Keeps);

/// A power of two, kept.
pub const POWER: Item = Item::Token(Terminal::Only(Shape::Int(Digits::Power)), Keep::Keeps);

/// One operand.
pub const OPERAND: Item = Item::One(Name::Operand);

/// Attributes.
pub const ATTRIBUTES: Item = Item::Many(Name::Attribute);

/// Attachments, each behind a comma.
pub const ATTACHMENTS: Item = Item::Many(Name::CommaAttachment);

/// `[inbounds] [nusw] [nuw]` in any order; the last two are dropped.
pub const ADDRESS_FLAGS: Item = Item::AnyOrder(Flags {
    a: Some(FlagPart {
        flag: Flag::Inbounds,
        keep: Keep::Keeps,
    }),
    b: Some(FlagPart {
        flag: Flag::Nusw,
        keep: Keep::Drops,
    }),
    c: Some(FlagPart {
        flag: Flag::Nuw,
        keep: Keep::Drops,
    }),
});
