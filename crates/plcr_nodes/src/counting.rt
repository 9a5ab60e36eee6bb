//! The owner counts its changes at the gate, and looks at the stamps of passes.
ghost use Rattle.std.specs.Prelude.{◌≡◌, ◌<◌};
ghost use Rattle.plcr_machine.specs.Passes.{counts};
ghost use Rattle.plcr_machine.specs.declared.limits.TheConstants.{MOST_CHANGES};
ghost use Rattle.plcr_nodes.specs.Owning.{IsCounted, IsLooked};

use crate::nodes::Nodes;
use crate::owner::Owner;
use crate::plays::{Counting, Looking};
use crate::words::{GATE, stamp_word};

impl Owner {
    /// Counts a change: adds 1 to the gate, and gives the number of counts before. No node becomes
    /// free by it.
    pub fn count(&mut self, nodes: &Nodes) -> u32
        requires table { self.old.table ≡ nodes.now }
        requires fewer { counts self.old.history < MOST_CHANGES }
        ensures counted { IsCounted self.old result self.new }
    {
        nodes
            .table
            .shared
            .fetch_add::<Counting>(&mut self.seat, GATE, 1) as u32
    }

    /// Looks at the stamp of a pass, and gives it: 0 where the pass is not announced, else one more
    /// than the number of counts that it announced. A removed node is free once each pass was
    /// found, since the node's unload, with 0 or with a stamp from after the count of that unload.
    pub fn look(&mut self, nodes: &Nodes, pass: u32) -> u64
        requires table { self.old.table ≡ nodes.now }
        requires pass { pass < self.old.passes }
        ensures looked { IsLooked self.old pass result self.new }
    {
        nodes
            .table
            .shared
            .load::<Looking>(&mut self.seat, stamp_word(self.links.len(), pass))
    }
}
