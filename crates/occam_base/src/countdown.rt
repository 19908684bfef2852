//! Which calls of a fake fail: numbers of calls, counted down where they stand.
ghost use Rattle.std.specs.Prelude.{◌≡◌, ◌↔◌, IsTrue};
ghost use Rattle.occam_base.specs.Failing.{FailsNow, after_call};

use sqlite_items::Items as List;

/// Counts this call down, and says whether it is one that fails.
pub fn is_failing(numbers: &mut List<u64>) -> bool
    ensures fails { IsTrue result ↔ FailsNow numbers.old }
    ensures counted { numbers.new ≡ after_call numbers.old }
{
    let fails = numbers.as_slice().contains(&1);
    count_down(numbers);
    fails
}

// Lowers each number by one.
fn count_down(numbers: &mut List<u64>)
    ensures { numbers.new ≡ after_call numbers.old }
{
    for at in 0..numbers.len() {
        let number = numbers.as_slice()[at];
        numbers.set(at, number.saturating_sub(1));
    }
}
