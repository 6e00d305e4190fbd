//! Counts that stay at their last value.
ghost use Rattle.std.specs.Prelude.{◌≡◌, ◌≤◌};
ghost use Rattle.emtp_io.specs.Cabinet.{one_more, Rose};

/// Counts one more, and answers the count.
pub fn count_one(count: &mut u64) -> u64
    ensures counted { count.new ≡ one_more count.old }
    ensures value { result ≡ count.new }
{
    *count = count.saturating_add(1);
    *count
}

/// Counts one more fault.
pub fn raise(count: &mut u64)
    ensures counted { count.new ≡ one_more count.old }
    ensures later { count.old ≤ count.new }
    ensures rose { Rose count.old count.new }
{
    *count = count.saturating_add(1);
}
