//! The numbers of calls, and the count of faults.

ghost use Rattle.std.specs.Prelude.{◌≡◌, ◌≤◌};
ghost use Rattle.vata_outside.specs.Outside.{next_count};
ghost use Rattle.vata_outside.specs.Memory.{is_failing};

use crate::outside::Failed;

/// Counts a fault, up to the last value of a u64.
pub fn fault(count: &mut u64) -> Failed
    ensures rose { count.new ≡ next_count count.old }
    ensures later { count.old ≤ count.new }
{
    *count = count.saturating_add(1);
    Failed
}

/// Numbers the next call, up to the last value of a u64. True where that number is among the failing ones.
pub fn fails_next(calls: &mut u64, failing: &[u64]) -> bool
    ensures number { calls.new ≡ next_count calls.old }
    ensures value { result ≡ is_failing failing.now calls.old }
{
    *calls = calls.saturating_add(1);
    failing.contains(&*calls)
}
