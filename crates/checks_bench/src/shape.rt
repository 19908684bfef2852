//! The shapes of bodies that are measured.
use std::fmt;

/// A shape of a body. What its size counts is said where the body is built.
#[derive(Clone, Copy, Debug, PartialEq, Eq)]
pub enum Shape {
    /// Blocks one after the other.
    Chain,
    /// Branches to two blocks, each with a join.
    Ladder,
    /// One block of additions.
    Line,
    /// One switch, with all its edges to one block.
    Switch,
}

impl Shape {
    /// The shape of this name, and `None` where no shape has it.
    pub fn named(name: &str) -> Option<Shape> {
        match name {
            "chain" => Some(Shape::Chain),
            "ladder" => Some(Shape::Ladder),
            "line" => Some(Shape::Line),
            "switch" => Some(Shape::Switch),
            _ => None,
        }
    }
}

impl fmt::Display for Shape {
    fn fmt<W: fmt::Write>(&self, f: &mut fmt::Formatter<W>) -> fmt::Result {
        match self {
            Shape::Chain => write!(f, "chain"),
            Shape::Ladder => write!(f, "ladder"),
            Shape::Line => write!(f, "line"),
            Shape::Switch => write!(f, "switch"),
        }
    }
}
