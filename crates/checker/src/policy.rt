// Which bound is tried after a bound.
ghost use Rattle.std.specs.Prelude.{◌≡◌, ◌<◌, ◌≤◌};
ghost use Rattle.checker.specs.Turns.{next_bound};

// The bound after `bound`, where `limit` is the largest.
pub fn next_bound(bound: u32, limit: u32) -> u32
    ensures is_one_more { result ≡ next_bound bound limit }
    ensures rises_to_the_limit { bound < limit → (bound < result) × (result ≤ limit) }
{
    bound.saturating_add(1).min(limit)
}
