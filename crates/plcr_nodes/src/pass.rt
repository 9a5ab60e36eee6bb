//! A pass, which walks the list.
ghost use Rattle.std.specs.Prelude.{◌≡◌, ◌⊎◌, ◌<◌, true, false};
ghost use Rattle.plcr_machine.specs.Passes.{is_announced, is_inside};
ghost use Rattle.plcr_nodes.specs.Entries.{among};
ghost use Rattle.plcr_nodes.specs.Payload.{image_words};
ghost use Rattle.plcr_nodes.specs.Tokens.{IsEntered, IsLeft, IsFollowed, IsRead};

use crate::nodes::Nodes;
use crate::plays::{Entering, Following, Leaving, Reading};
use crate::view::View;
use crate::words::{GATE, place_of};
use atomic_table::Seat;
use std::marker::Model;

/// A walker of the list, which is announced or not, and in or out. Contracts see what it knows.
#[derive(Drop)]
pub struct NodePass {
    pub(crate) seat: Seat<(), View>,
    /// The word of its stamp.
    pub(crate) stamp: usize,
}

impl Model for NodePass {
    ghost use Rattle.plcr_nodes.specs.Tokens.{PassState};
    ghost use Rattle.plcr_nodes.specs.inner.Seats.{pass_state, IsPassing};

    ghost Value = { PassState };

    ghost view = { λ p. pass_state p.seat.table_id p.seat.me.0 };

    ghost invariant = { λ p. IsPassing p.seat.table_id p.seat.me p.stamp };
}

impl NodePass {
    /// Goes in, and gives the number of counts before.
    pub fn enter(&mut self, nodes: &Nodes) -> u32
        requires table { self.old.table ≡ nodes.now }
        requires announced { is_announced self.old.number self.old.history ≡ true }
        requires out { is_inside self.old.number self.old.history ≡ false }
        ensures entered { IsEntered self.old result self.new }
    {
        nodes.table.shared.load::<Entering>(&mut self.seat, GATE) as u32
    }

    /// Comes out, and gives the number of counts before. The pass stays announced.
    pub fn leave(&mut self, nodes: &Nodes) -> u32
        requires table { self.old.table ≡ nodes.now }
        requires inside { is_inside self.old.number self.old.history ≡ true }
        ensures left { IsLeft self.old result self.new }
    {
        nodes.table.shared.load::<Leaving>(&mut self.seat, GATE) as u32
    }

    /// Where the link of a place leads: the head, 0, or a node that the walk was given. The end is
    /// 0 too.
    pub fn next_link(&mut self, nodes: &Nodes, node: u32) -> u32
        requires table { self.old.table ≡ nodes.now }
        requires inside { is_inside self.old.number self.old.history ≡ true }
        requires known { (node ≡ 0) ⊎ (among node self.old.given ≡ true) }
        ensures link { IsFollowed self.old node result self.new }
    {
        let found = nodes
            .table
            .shared
            .load::<Following>(&mut self.seat, place_of(node));
        found as u32
    }

    /// One payload word of the image on a node that the walk was given: 0 is the header, 1 the
    /// length of its name, and then come the words of the name.
    pub fn payload(&mut self, nodes: &Nodes, node: u32, word: u32) -> u64
        requires table { self.old.table ≡ nodes.now }
        requires known { (0 < node) × (among node self.old.given ≡ true) }
        requires word { word < image_words node self.old.history self.old.names }
        ensures word { IsRead self.old node word result self.new }
    {
        nodes
            .table
            .shared
            .load::<Reading>(&mut self.seat, place_of(node) + (word as usize + 1))
    }
}
