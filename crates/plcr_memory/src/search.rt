ghost use Rattle.std.specs.Prelude.{◌≡◌, ◌≤◌, ◌<◌, ℕ, IsTrue, All, length};
ghost use Rattle.plcr_memory.specs.Regions.{AreApart, IsBacked, byte_in, covers, region_over};
ghost use Rattle.plcr_memory.specs.inner.Order.{IsOrder, placed_at};
ghost use Rattle.std.specs.List.Sorted.{IsNonDecreasingBy};
ghost use Rattle.plcr_memory.specs.declared.order.Placed.{Placed};

use crate::order::Placed;
use crate::region::Region;

fn starts_by(order: &[Placed], at: u64) -> usize
    requires { IsNonDecreasingBy (λ (o : Placed). o.start) order.now }
    ensures inside { result ≤ length order.now }
    ensures before { (k : ℕ) → k < result → (placed_at order.now k).start ≤ at }
    ensures past { (k : ℕ) → result ≤ k → k < length order.now →
        at < (placed_at order.now k).start }
{
    order.partition_point(|placed| placed.start <= at)
}

/// The region that covers an address, by halves.
#[tactic(auto, using(crate::proofs::Searches::order_rises))]
pub fn region_holding(regions: &[Region], order: &[Placed], at: u64) -> Option<Region>
    requires sized { All (λ r. 1 ≤ r.size) regions.now }
    requires apart { AreApart regions.now }
    requires order { IsOrder regions.now order.now }
    ensures { result ≡ region_over regions.now at }
{
    let after = starts_by(order, at);
    if after == 0 {
        return None;
    }
    let region = regions[order[after - 1].index];
    if at - region.start < region.size {
        Some(region)
    } else {
        None
    }
}

/// The byte of a region at an address that it covers.
pub fn byte_of(file: &[u8], region: &Region, at: u64) -> u8
    requires backed { IsBacked file.now region.now }
    requires covered { IsTrue (covers region.now at) }
    ensures { result ≡ byte_in file.now region.now at }
{
    let offset = at - region.start;
    if offset < region.len as u64 {
        file[region.from + offset as usize]
    } else {
        0
    }
}
