ghost use Rattle.std.specs.Prelude.{◌≡◌, ◌≤◌};
ghost use Rattle.run_ends.specs.Counts.{next_count, Rose};

/// One more, or the last value of a u64 where the count stands there.
pub fn count_up(count: u64) -> u64
    ensures next { result ≡ next_count count }
    ensures rose { Rose count result }
    ensures later { count ≤ result }
{
    count.saturating_add(1)
}
