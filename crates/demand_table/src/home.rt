//! Where a row's chain begins.
ghost use Rattle.std.specs.Prelude.{◌≡◌, ◌<◌};
ghost use Rattle.table_rule.specs.Layout.{home};

/// The home slot of a row of these words.
pub(crate) fn home_of(words: &[u64]) -> usize
    ensures home { result ≡ home words.now }
    ensures low { result < 131072 }
{
    let mut mixed = words.len() as u64;
    for word in words {
        mixed = mixed.wrapping_add(*word).wrapping_mul(11400714819323198485);
    }
    (mixed / 140737488355328) as usize
}
