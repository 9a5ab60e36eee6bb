ghost use Rattle.std.specs.Prelude.{IfOk};
ghost use Rattle.plcr_memory.specs.inner.Order.{IsOrder};

use crate::region::Region;
use std::alloc::{AllocError, Global};

/// Where a region lies, and its index in the list as given.
#[derive(Clone, Copy, Debug, PartialEq, Eq)]
pub struct Placed {
    pub start: u64,
    pub size: u64,
    pub index: usize,
}

/// The regions by rising starts.
#[tactic(auto, using(crate::proofs::Orders::listed_more))]
pub fn order_of(alloc: Global, regions: &[Region]) -> Result<Vec<Placed>, AllocError>
    ensures { IfOk result (λ order. IsOrder regions.now order.items) }
{
    let mut order = Vec::with_capacity(alloc, regions.len())?;
    for (index, region) in regions.iter().enumerate() {
        order.push(Placed {
            start: region.start,
            size: region.size,
            index,
        })?;
    }
    order.sort_unstable_by_key(|placed| placed.start);
    Ok(order)
}
