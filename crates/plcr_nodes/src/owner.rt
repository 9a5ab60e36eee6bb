//! The owner, which changes the list.
ghost use Rattle.std.specs.Prelude.{◌≡◌, ◌+◌, ◌<◌, ◌≤◌, ◌∷◌, true, vec_len, slice_set};
ghost use Rattle.plcr_machine.specs.Lists.{live, loads};
ghost use Rattle.plcr_machine.specs.Links.{last_place};
ghost use Rattle.plcr_machine.specs.Nodes.{is_free};
ghost use Rattle.plcr_machine.specs.declared.limits.TheConstants.{MOST_CHANGES};
ghost use Rattle.plcr_nodes.specs.declared.words.TheConstants.{PAYLOAD_WORDS};
ghost use Rattle.plcr_nodes.specs.Names.{store, IsFilled, IsEnded};
ghost use Rattle.plcr_nodes.specs.Owning.{IsLinked};
ghost use Rattle.plcr_nodes.specs.inner.Seats.{owner_state, IsOwner};

use crate::nodes::Nodes;
use crate::plays::{Filling, Linking};
use crate::view::View;
use crate::words::place_of;
use atomic_table::Seat;
use std::marker::Model;

/// Who changes the list. It remembers where links lead. Contracts see what it knows of the history.
#[derive(Drop)]
pub struct Owner {
    pub(crate) seat: Seat<(), View>,
    /// Where the link of each place of the list leads, by place.
    pub(crate) links: Vec<u32>,
}

/// Notes where the link of a place leads.
pub(crate) fn relink(links: &mut Vec<u32>, place: u32, to: u32)
    requires { place < vec_len links.old }
    ensures { links.new.items ≡ slice_set links.old.items place to }
{
    links[place as usize] = to;
}

// Makes the link of the last place lead to a filled node, in one exchange, and gives where it led
// before: to the end.
fn exchange_tail(nodes: &Nodes, seat: &mut Seat<(), View>, tail: u32, node: u32) -> u64
    requires table { seat.old.table_id ≡ nodes.now }
    requires owner { IsOwner seat.old.table_id seat.old.me }
    requires tail { tail ≡ last_place 0 (live seat.old.me.0.history) }
    requires filled { (0 < node) × IsFilled node seat.old.me.0.filled }
    requires ended { IsEnded node seat.old.me.0.filled }
    ensures table { seat.new.table_id ≡ seat.old.table_id }
    ensures owner { IsOwner seat.new.table_id seat.new.me }
    ensures entry { IsLinked (owner_state seat.old.table_id seat.old.me.0) node
        (owner_state seat.new.table_id seat.new.me.0) }
    ensures end { result ≡ 0 }
{
    nodes
        .table
        .shared
        .swap::<Linking>(seat, place_of(tail), node as u64)
}

impl Model for Owner {
    ghost use Rattle.plcr_nodes.specs.Tokens.{OwnerState};
    ghost use Rattle.plcr_nodes.specs.inner.Seats.{owner_state, IsOwning};

    ghost Value = { OwnerState };

    ghost view = { λ o. owner_state o.seat.table_id o.seat.me.0 };

    ghost invariant = { λ o. IsOwning o.seat.table_id o.seat.me o.links.items };
}

impl Owner {
    /// Stores one payload word in a free node: 0 is the header, 1 the length of the name, and then
    /// come the words of the name.
    pub fn fill(&mut self, nodes: &Nodes, node: u32, word: u32, value: u64)
        requires table { self.old.table ≡ nodes.now }
        requires node { (0 < node) × (node ≤ self.old.nodes) }
        requires free { is_free self.old.passes node self.old.history ≡ true }
        requires word { word < PAYLOAD_WORDS }
        ensures stored { self.new ≡ record self.old {
          filled =
              store node (word + 1) value ∷ self.old.filled;
        } }
    {
        nodes.table.shared.store::<Filling>(
            &mut self.seat,
            place_of(node) + (word as usize + 1),
            value,
        );
    }

    /// Stores the end as the link of a free node.
    pub fn end_link(&mut self, nodes: &Nodes, node: u32)
        requires table { self.old.table ≡ nodes.now }
        requires node { (0 < node) × (node ≤ self.old.nodes) }
        requires free { is_free self.old.passes node self.old.history ≡ true }
        ensures stored { self.new ≡ record self.old { filled = store node 0 0 ∷ self.old.filled } }
    {
        nodes
            .table
            .shared
            .store::<Filling>(&mut self.seat, place_of(node), 0);
    }

    /// Puts a filled node at the end of the list: makes the link of the last place lead to it.
    pub fn link(&mut self, nodes: &Nodes, tail: u32, node: u32)
        requires table { self.old.table ≡ nodes.now }
        requires tail { tail ≡ last_place 0 (live self.old.history) }
        requires filled { (0 < node) × IsFilled node self.old.filled }
        requires ended { IsEnded node self.old.filled }
        requires few { loads self.old.history < MOST_CHANGES }
        ensures entry { IsLinked self.old node self.new }
    {
        exchange_tail(nodes, &mut self.seat, tail, node);
        relink(&mut self.links, tail, node);
        relink(&mut self.links, node, 0);
    }
}
