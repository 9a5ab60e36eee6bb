//! The owner takes an image out of the list.
ghost use Rattle.std.specs.Prelude.{◌≡◌};
ghost use Rattle.plcr_nodes.specs.Owning.{Follows, IsUnlinked};

use crate::nodes::Nodes;
use crate::owner::{Owner, relink};
use crate::plays::Unlinking;
use crate::words::place_of;

impl Owner {
    /// Takes a node out of the list: makes the link of the place before it lead to the node after
    /// it.
    pub fn unlink(&mut self, nodes: &Nodes, before: u32, node: u32)
        requires table { self.old.table ≡ nodes.now }
        requires follows { Follows before node self.old.history }
        ensures entry { IsUnlinked self.old node self.new }
    {
        let next = self.links[node as usize];
        nodes
            .table
            .shared
            .swap::<Unlinking>(&mut self.seat, place_of(before), next as u64);
        relink(&mut self.links, before, next);
    }
}
