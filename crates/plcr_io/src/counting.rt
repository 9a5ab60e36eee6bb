//! Counts of 64 bits.
ghost use Rattle.std.specs.Prelude.{◌≡◌};
ghost use Rattle.plcr_io.specs.Counting.{next};

/// A count, one higher. It stays at its greatest value.
pub(crate) fn one_more(count: u64) -> u64
    ensures { result ≡ next count }
{
    count.saturating_add(1)
}
