//! What a token that begins a production does.
ghost use Rattle.std.specs.Prelude.{◌≡◌, ◌++◌, ◌∷◌};
ghost use Rattle.std.specs.Option.{option_to_list};
ghost use Rattle.ir_grammar.specs.declared.grammar.Keep.TheVariants as kept;
ghost use Rattle.ir_grammar.specs.Mirrors.Steps.{rule_of, step_of};

use crate::grammar::{Item, Keep};

/// What becomes of the first token of a production, and what stands behind it.
#[derive(Clone, Copy, Debug)]
pub struct Rule {
    pub keep: Keep,
    pub behind: &'static [Item],
}

/// The same, with an item and others behind it.
#[derive(Clone, Copy, Debug)]
pub struct Step {
    pub keep: Keep,
    pub behind: &'static [Item],
    pub then: Option<Item>,
    pub last: &'static [Item],
}

impl Rule {
    pub fn keeps(behind: &'static [Item]) -> Rule
        ensures { rule_of result ≡ (kept.Keeps, behind.now) }
    {
        Rule {
            keep: Keep::Keeps,
            behind,
        }
    }

    pub fn drops(behind: &'static [Item]) -> Rule
        ensures { rule_of result ≡ (kept.Drops, behind.now) }
    {
        Rule {
            keep: Keep::Drops,
            behind,
        }
    }

    pub fn as_result(behind: &'static [Item]) -> Rule
        ensures { rule_of result ≡ (kept.AsResult, behind.now) }
    {
        Rule {
            keep: Keep::AsResult,
            behind,
        }
    }

    pub fn as_returned(behind: &'static [Item]) -> Rule
        ensures { rule_of result ≡ (kept.AsReturned, behind.now) }
    {
        Rule {
            keep: Keep::AsReturned,
            behind,
        }
    }

    pub fn as_address(behind: &'static [Item]) -> Rule
        ensures { rule_of result ≡ (kept.AsAddress, behind.now) }
    {
        Rule {
            keep: Keep::AsAddress,
            behind,
        }
    }

    /// The rule with an item behind it, and others.
    pub fn then(self, item: Option<Item>, last: &'static [Item]) -> Step
        ensures { step_of result ≡ (self.keep, self.behind.now ++ (option_to_list item ++ last.now)) }
    {
        Step {
            keep: self.keep,
            behind: self.behind,
            then: item,
            last,
        }
    }
}
