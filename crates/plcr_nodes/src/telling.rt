//! What one token has seen is told to another: by a note, or as a pass is joined into the owner for
//! good.
ghost use Rattle.std.specs.Prelude.{◌≡◌, ◌<◌, [], false};
ghost use Rattle.plcr_machine.specs.Passes.{is_announced};
ghost use Rattle.plcr_nodes.specs.Telling.{note_of_owner, note_of_pass, IsPassTold, IsOwnerTold, IsJoined};
ghost use Rattle.plcr_nodes.specs.inner.Telling.{IsGathered};

use crate::nodes::Nodes;
use crate::owner::Owner;
use crate::pass::NodePass;
use crate::plays::{Gathering, Hearing, Learning, Noting};
use crate::view::View;
use crate::words::GATE;
use atomic_table::Seat;
use std::marker::Model;

/// A copy of what a token has seen, without its rights. It has no bytes, and one that is dropped
/// tells nobody.
#[derive(Drop)]
pub struct NodeNote {
    pub(crate) seat: Seat<(), View>,
}

impl Model for NodeNote {
    ghost use Rattle.plcr_nodes.specs.Tokens.{NoteState};
    ghost use Rattle.plcr_nodes.specs.inner.Seats.{note_state, IsNote};

    ghost Value = { NoteState };

    ghost view = { λ n. note_state n.seat.table_id n.seat.me.0 };

    ghost invariant = { λ n. IsNote n.seat.me };
}

// Joins a seat into the owner's, which then sees what both had seen. The join by itself tells
// nothing of the table.
fn gather(nodes: &Nodes, seat: &mut Seat<(), View>, other: Seat<(), View>)
    requires tables { (seat.old.table_id ≡ nodes.now) × (other.table_id ≡ nodes.now)
        × (0 < nodes.now.words) }
    requires lives { (seat.old.me.0.spent ≡ false) × (other.me.0.spent ≡ false) }
    requires light { other.me.1 ≡ [] }
    ensures table { seat.new.table_id ≡ seat.old.table_id }
    ensures gathered { IsGathered seat.old.me other.me.0 seat.new.me }
{
    nodes.table.shared.join_seat::<Hearing>(seat, other);
    nodes.table.shared.load::<Gathering>(seat, GATE);
}

impl Owner {
    /// A note of what the owner has seen.
    pub fn note(&mut self, nodes: &Nodes) -> NodeNote
        requires table { self.old.table ≡ nodes.now }
        ensures same { self.new ≡ self.old }
        ensures note { result ≡ note_of_owner self.old }
    {
        NodeNote {
            seat: nodes.table.shared.split_seat::<Noting>(&mut self.seat),
        }
    }

    /// Takes in what a note's token had seen.
    pub fn told(&mut self, nodes: &Nodes, note: NodeNote)
        requires table { (self.old.table ≡ nodes.now) × (note.table ≡ nodes.now) }
        ensures told { IsOwnerTold self.old note self.new }
    {
        let NodeNote { seat } = note;
        gather(nodes, &mut self.seat, seat);
    }

    /// Joins a pass that is neither in nor announced, for good. The owner then knows all that the
    /// pass did.
    pub fn join(&mut self, nodes: &Nodes, pass: NodePass)
        requires table { (self.old.table ≡ nodes.now) × (pass.table ≡ nodes.now) }
        requires retired { is_announced pass.number pass.history ≡ false }
        ensures joined { IsJoined self.old pass self.new }
    {
        let NodePass { seat, .. } = pass;
        gather(nodes, &mut self.seat, seat);
    }
}

impl NodePass {
    /// A note of what the pass has seen.
    pub fn note(&mut self, nodes: &Nodes) -> NodeNote
        requires table { self.old.table ≡ nodes.now }
        ensures same { self.new ≡ self.old }
        ensures note { result ≡ note_of_pass self.old }
    {
        NodeNote {
            seat: nodes.table.shared.split_seat::<Noting>(&mut self.seat),
        }
    }

    /// Takes in what a note's token had seen. What the walk was given stays.
    pub fn told(&mut self, nodes: &Nodes, note: NodeNote)
        requires table { (self.old.table ≡ nodes.now) × (note.table ≡ nodes.now) }
        ensures told { IsPassTold self.old note self.new }
    {
        let NodeNote { seat } = note;
        nodes
            .table
            .shared
            .join_seat::<Hearing>(&mut self.seat, seat);
        nodes.table.shared.load::<Learning>(&mut self.seat, GATE);
    }
}
