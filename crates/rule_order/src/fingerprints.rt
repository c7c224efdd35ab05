//! Numbers of rules, which are the same for the same rule.

ghost use Rattle.std.specs.Prelude.{◌≡◌, ◌≢◌, true, false, map, AllPairs, IfOk};
ghost use Rattle.std.specs.List.Sorted.{IsNonDecreasing};
ghost use Rattle.rule_order.specs.Fingerprint.{fingerprint};

use std::alloc::{AllocError, Global};
use std::hash::{FoldHasher, Hash, Hasher};
use ta_model::Rule;

/// A number of 64 bits, which few other rules have.
fn fingerprint(rule: &Rule) -> u64
    ensures { result ≡ fingerprint rule.now }
{
    let mut hasher = FoldHasher::default();
    rule.hash(&mut hasher);
    hasher.finish()
}

fn fingerprints(alloc: Global, rules: &[Rule]) -> Result<Vec<u64>, AllocError>
    ensures { IfOk result (λ v. v.items ≡ map fingerprint rules.now) }
{
    let mut numbers = Vec::with_capacity(alloc, rules.len())?;
    for rule in rules {
        numbers.push(fingerprint(rule))?;
    }
    Ok(numbers)
}

/// Whether two neighbours of a list in rising order are equal.
fn has_equal_neighbours(numbers: &[u64]) -> bool
    requires { IsNonDecreasing numbers.now }
    ensures no { result ≡ false → AllPairs ◌≢◌ numbers.now }
    ensures yes { result ≡ true → ¬ AllPairs ◌≢◌ numbers.now }
{
    for i in 1..numbers.len() {
        if numbers[i] == numbers[i - 1] {
            return true;
        }
    }
    false
}

/// Whether two rules of the list have the same number. Where none have, no rule stands in it twice.
pub fn may_repeat(alloc: Global, rules: &[Rule]) -> Result<bool, AllocError>
    ensures no { IfOk result (λ may. may ≡ false → AllPairs ◌≢◌ rules.now) }
    ensures yes { IfOk result (λ may. may ≡ true → ¬ AllPairs ◌≢◌ (map fingerprint rules.now)) }
{
    let mut numbers = fingerprints(alloc, rules)?;
    numbers.sort_unstable();
    Ok(has_equal_neighbours(&numbers))
}
