//! A pass announces that it may go in, by its stamp, and takes that back.
//!
//! A stamp is 0, or one more than a number of counts that its pass had seen. It is stored before
//! the pass goes in and taken back after the pass has come out. So whoever is inside has a stamp,
//! and no unload that is counted while it is inside is among the counts of that stamp.
ghost use Rattle.std.specs.Prelude.{◌≡◌, ◌≤◌, true, false};
ghost use Rattle.plcr_machine.specs.declared.entry.Entry.TheVariants.{Announce, Retire};
ghost use Rattle.plcr_machine.specs.Passes.{counts, is_announced, is_inside};
ghost use Rattle.plcr_nodes.specs.Tokens.{IsEntry, IsGlanced};

use crate::nodes::Nodes;
use crate::pass::NodePass;
use crate::plays::{Announcing, Glancing, Retiring};
use crate::words::GATE;

impl NodePass {
    /// Looks at the gate, and gives the number of counts so far.
    pub fn glance(&mut self, nodes: &Nodes) -> u32
        requires table { self.old.table ≡ nodes.now }
        ensures seen { IsGlanced self.old result self.new }
    {
        nodes.table.shared.load::<Glancing>(&mut self.seat, GATE) as u32
    }

    /// Announces that the pass may go in, with a number of counts that it has seen, as a glance
    /// gives it. While the stamp stands, a look at it lets go of no node whose unload is not among
    /// these counts. A pass that is not announced is out.
    pub fn announce(&mut self, nodes: &Nodes, seen: u32)
        requires table { self.old.table ≡ nodes.now }
        requires retired { is_announced self.old.number self.old.history ≡ false }
        requires seen { seen ≤ counts self.old.history }
        ensures entry { IsEntry (Announce self.old.number seen) self.old self.new }
    {
        nodes
            .table
            .shared
            .swap::<Announcing>(&mut self.seat, self.stamp, seen as u64 + 1);
    }

    /// Takes the announcement back.
    pub fn retire(&mut self, nodes: &Nodes)
        requires table { self.old.table ≡ nodes.now }
        requires announced { is_announced self.old.number self.old.history ≡ true }
        requires out { is_inside self.old.number self.old.history ≡ false }
        ensures entry { IsEntry (Retire self.old.number) self.old self.new }
    {
        nodes
            .table
            .shared
            .swap::<Retiring>(&mut self.seat, self.stamp, 0);
    }
}
