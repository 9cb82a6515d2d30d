//! How many blocks are reachable where a cycle starts, for the tests that compare them.

ghost use Rattle.std.specs.Prelude.{◌≡◌, ◌≤◌, ◌<◌, ◌⊎◌, All, Any, IfSome, IfNone};

/// How many blocks are reachable at the start of a cycle that comes after so many units, at least
/// `before` and fewer than `after`.
pub fn blocks_at_start(starts: &[(u64, u64)], before: u64, after: u64) -> Option<u64>
    ensures found { IfSome result (λ blocks. Any (λ start.
        (before ≤ start.0) × (start.0 < after) × (start.1 ≡ blocks)) starts.now) }
    ensures none { IfNone result (All (λ start. (start.0 < before) ⊎ (after ≤ start.0)) starts.now) }
{
    for (units, blocks) in starts {
        if before <= *units && *units < after {
            return Some(*blocks);
        }
    }
    None
}
