ghost use Rattle.std.specs.Prelude.{◌≡◌, ◌≤◌, ◌<◌, ◌+◌, ◌^◌, ◌↔◌, IsTrue, All, MatchOption, IfOk, IfErr, OnOk, length};
ghost use Rattle.plcr_memory.specs.Regions.{Ends, Share, AreApart, AreApartBelow};
ghost use Rattle.plcr_memory.specs.Faults.{IsFault, IsFirstWrap, IsFirstOverlap};
ghost use Rattle.plcr_memory.specs.inner.Order.{IsOrder};

use crate::fault::MemoryFault;
use crate::order::{Placed, order_of};
use crate::region::Region;
use std::alloc::Global;

#[tactic(auto, using(crate::proofs::Shares::wrap_test))]
fn wraps(region: &Region) -> bool
    requires { 1 ≤ region.now.size }
    ensures { IsTrue result ↔ (2 ^ 64 < region.now.start + region.now.size) }
{
    let Region { start, size, .. } = *region;
    size - 1 > u64::MAX - start
}

// The first region that passes the last address.
fn first_wrap(regions: &[Region]) -> Option<usize>
    requires { All (λ r. 1 ≤ r.size) regions.now }
    ensures { MatchOption result (All Ends regions.now) (IsFirstWrap regions.now) }
{
    for (index, region) in regions.iter().enumerate() {
        if wraps(region) {
            return Some(index);
        }
    }
    None
}

#[tactic(auto, using(crate::proofs::Shares::share_test, crate::proofs::Shares::share_test_back))]
fn share(one: &Region, other: &Region) -> bool
    requires one { 1 ≤ one.now.size }
    requires other { 1 ≤ other.now.size }
    ensures { IsTrue result ↔ Share one.now other.now }
{
    if one.start <= other.start {
        other.start - one.start < one.size
    } else {
        one.start - other.start < other.size
    }
}

// Whether no two of the first `count` regions share an address, in one pass over the order.
#[tactic(auto, using(crate::proofs::Passes::passed_over, crate::proofs::Passes::passed_more, crate::proofs::Passes::clash, crate::proofs::Passes::passed_end))]
fn are_apart(regions: &[Region], order: &[Placed], count: usize) -> bool
    requires sized { All (λ r. 1 ≤ r.size) regions.now }
    requires order { IsOrder regions.now order.now }
    requires inside { count ≤ length regions.now }
    ensures { IsTrue result ↔ AreApartBelow count regions.now }
{
    // The first address past all the regions that were passed.
    let mut free = 0u128;
    for placed in order {
        let Placed { start, size, index } = *placed;
        if index < count {
            if u128::from(start) < free {
                return false;
            }
            free = u128::from(start) + u128::from(size);
        }
    }
    true
}

// The first region that shares an address with an earlier one, by halves over the length of the
// front.
#[tactic(auto, using(crate::proofs::Halves::halves_start, crate::proofs::Halves::halves_end))]
fn second_of_overlap(regions: &[Region], order: &[Placed]) -> usize
    requires sized { All (λ r. 1 ≤ r.size) regions.now }
    requires order { IsOrder regions.now order.now }
    requires clash { ¬ AreApart regions.now }
    ensures inside { result < length regions.now }
    ensures least { AreApartBelow result regions.now }
    ensures clashes { ¬ AreApartBelow (result + 1) regions.now }
{
    let mut low = 0;
    let mut high = regions.len();
    while high - low > 1 {
        let middle = low + (high - low) / 2;
        if are_apart(regions, order, middle) {
            low = middle;
        } else {
            high = middle;
        }
    }
    low
}

// The first region that shares an address with an earlier one, behind the first such earlier one.
#[tactic(auto, using(crate::proofs::Halves::apart_more))]
fn first_overlap(regions: &[Region], order: &[Placed]) -> (usize, usize)
    requires sized { All (λ r. 1 ≤ r.size) regions.now }
    requires order { IsOrder regions.now order.now }
    requires clash { ¬ AreApart regions.now }
    ensures { IsFirstOverlap regions.now result.0 result.1 }
{
    let second = second_of_overlap(regions, order);
    for first in 0..second {
        if share(&regions[first], &regions[second]) {
            return (first, second);
        }
    }
    unreachable!()
}

/// The order of regions that may stand in one memory, or the first fault.
pub fn lawful_order(alloc: Global, regions: &[Region]) -> Result<Vec<Placed>, MemoryFault>
    requires { All (λ r. 1 ≤ r.size) regions.now }
    ensures lawful { OnOk result (All Ends regions.now × AreApart regions.now) }
    ensures order { IfOk result (λ order. IsOrder regions.now order.items) }
    ensures fault { IfErr result (IsFault regions.now) }
{
    if let Some(index) = first_wrap(regions) {
        return Err(MemoryFault::Wraps { index });
    }
    let order = order_of(alloc, regions)?;
    if are_apart(regions, order.as_slice(), regions.len()) {
        Ok(order)
    } else {
        let (first, second) = first_overlap(regions, order.as_slice());
        Err(MemoryFault::Overlap { first, second })
    }
}
