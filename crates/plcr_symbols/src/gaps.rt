ghost use Rattle.std.specs.Prelude.{◌≡◌, ◌<◌, ◌≤◌, ℕ, Some, length, slice_index};
ghost use Rattle.std.specs.List.Sorted.{IsNonDecreasing};
ghost use Rattle.plcr_symbols.specs.Symbols.{greater, where_its_address};
ghost use Rattle.plcr_symbols.specs.inner.Gaps.{Gains, in_gap};

use crate::symbol::SymbolAt;

// The index of the first address that isn't below another.
fn gap_of(addresses: &[u64], value: u64) -> usize
    requires { IsNonDecreasing addresses.now }
    ensures inside { result ≤ length addresses.now }
    ensures before { (k : ℕ) → k < result → slice_index addresses.now k < value }
    ensures past { (k : ℕ) → result ≤ k → k < length addresses.now →
        value ≤ slice_index addresses.now k }
{
    addresses.partition_point(|address| *address < value)
}

// The greater of two symbols, the first on a tie.
fn greater(first: Option<SymbolAt>, later: SymbolAt) -> Option<SymbolAt>
    ensures { result ≡ greater first (Some later) }
{
    match first {
        Some(symbol) if symbol.value >= later.value => first,
        _ => Some(later),
    }
}

/// Keeps a symbol in its gap, where none with an address as great is kept there.
pub fn keep(addresses: &[u64], found: &mut [Option<SymbolAt>], symbol: SymbolAt)
    requires rising { IsNonDecreasing addresses.now }
    requires room { length found.old ≡ length addresses.now }
    ensures gains { Gains addresses.now
        (λ k. where_its_address (in_gap addresses.now k) (Some symbol)) found.old found.new }
    ensures size { length found.new ≡ length found.old }
{
    let gap = gap_of(addresses, symbol.value);
    if gap < found.len() {
        found[gap] = greater(found[gap], symbol);
    }
}
