//! Tuples of children that differ at one place.

ghost use Rattle.std.specs.Prelude.{◌≡◌, ◌≢◌, ◌<◌, ◌↔◌, ℕ, Some, IsTrue, IfSome, length, slice_set};
ghost use Rattle.tree_definitions.specs.Relation.{IsAt};

/// What stands at place i of the tuple with r at place p.
fn kid_of_exchange(kids: &[u32], p: usize, r: u32, i: usize) -> u32
    requires { i < length kids.now }
    ensures { IsAt (slice_set kids.now p r) i result }
{
    if i == p { r } else { kids[i] }
}

/// Whether the second tuple is the first with r at place p. Takes no memory.
pub fn is_exchange(low: &[u32], p: usize, r: u32, high: &[u32]) -> bool
    ensures { IsTrue result ↔ (high.now ≡ slice_set low.now p r) }
{
    if low.len() != high.len() {
        return false;
    }
    for i in 0..low.len() {
        if high[i] != kid_of_exchange(low, p, r, i) {
            return false;
        }
    }
    true
}

/// The place where the tuples differ, if there is one alone. Takes no memory.
pub fn difference(low: &[u32], high: &[u32]) -> Option<usize>
    ensures within { IfSome result (λ p. (p < length low.now) × (p < length high.now)) }
    ensures alone { (p q r : ℕ) → IsAt low.now p q → q ≢ r → high.now ≡ slice_set low.now p r
        → (result ≡ Some p) × IsAt high.now p r }
{
    if low.len() != high.len() {
        return None;
    }
    for at in 0..low.len() {
        if low[at] != high[at] {
            if is_exchange(low, at, high[at], high) {
                return Some(at);
            }
            return None;
        }
    }
    None
}
