//! Passes, and the holds in which they walk the list.
ghost use Rattle.std.specs.Prelude.{◌≡◌, All, map, length, IfOk};
ghost use Rattle.plcr_imagelist.specs.inner.Holding.{walker_state, IsReady};
ghost use Rattle.plcr_imagelist.specs.Holds.{IsHeld, IsNext, IsReleased, IsWalking};
ghost use Rattle.plcr_imagelist.specs.Carrying.{OnlySees};

use crate::books::last_of;
use crate::list::ImageList;
use plcr_macho::Spot;
use plcr_nodes::NodePass;
use std::alloc::{AllocError, Global};
use std::marker::Model;

/// A walker of the list that is out. Contracts see what it knows.
#[derive(Drop)]
pub struct Pass {
    pub(crate) pass: NodePass,
    /// Room for what a walk meets.
    pub(crate) met: Vec<u32>,
    /// Room for an index of it.
    pub(crate) spots: Vec<Spot>,
}

impl Model for Pass {
    ghost use Rattle.std.specs.Prelude.{◌≤◌, vec_capacity};
    ghost use Rattle.plcr_imagelist.specs.Holds.{WalkerState};
    ghost use Rattle.plcr_imagelist.specs.inner.Holding.{walker_state, IsOut};

    ghost Value = { WalkerState };

    ghost view = { λ p. walker_state p.pass };

    ghost invariant = { λ p. IsOut (walker_state p.pass) × (p.pass.nodes ≤ vec_capacity p.met)
        × (p.pass.nodes ≤ vec_capacity p.spots) };
}

/// A pass that is in, with its walk. While it is in, no node that it may reach is loaded again, so
/// it has to come out by
/// `leave`. Contracts see what it knows and the images that it has met.
pub struct Hold {
    pub(crate) pass: NodePass,
    /// The nodes of the images that the walk has met.
    pub(crate) met: Vec<u32>,
    pub(crate) ended: bool,
    /// How many changes were counted before the enter.
    pub(crate) low: u32,
    /// Room for an index, how many spots of it the one made last has, and of how many images.
    pub(crate) spots: Vec<Spot>,
    pub(crate) filled: usize,
    pub(crate) count: usize,
}

impl Model for Hold {
    ghost use Rattle.std.specs.Prelude.{◌≤◌, vec_capacity};
    ghost use Rattle.plcr_macho.specs.Spots.{IsSettled};
    ghost use Rattle.plcr_imagelist.specs.Holds.{HoldState};
    ghost use Rattle.plcr_imagelist.specs.inner.Indexing.{extents_in};
    ghost use Rattle.plcr_imagelist.specs.inner.Holding.{walker_state, images_on, IsHolding};

    ghost Value = { HoldState };

    ghost view = { λ h. record {
      walker = walker_state h.pass;
      met =
          images_on h.met.items h.pass.history;
      ended = h.ended;
      extents =
          extents_in h.count h.spots.items h.filled;
    } };

    ghost invariant = { λ h. IsHolding h.pass h.met.items h.ended h.low
        × (h.pass.nodes ≤ vec_capacity h.met) × (h.pass.nodes ≤ vec_capacity h.spots)
        × IsSettled h.count h.spots.items h.filled };
}

/// How many changes were counted before a hold's enter, and before its leave.
#[derive(Clone, Copy, Debug, PartialEq, Eq)]
pub struct Window {
    pub low: u32,
    pub high: u32,
}

impl Pass {
    // A pass with room for what it meets.
    fn open(alloc: Global, pass: NodePass, nodes: u32) -> Result<Pass, AllocError>
        requires { IsReady nodes pass }
        ensures { IfOk result (λ p. p ≡ walker_state pass) }
    {
        let met = Vec::with_capacity(alloc, nodes as usize)?;
        let spots = Vec::with_capacity(alloc, nodes as usize)?;
        Ok(Pass { pass, met, spots })
    }

    /// Passes with room for what they meet, in the same order.
    pub(crate) fn open_all(
        alloc: Global,
        all: Vec<NodePass>,
        nodes: u32,
    ) -> Result<Vec<Pass>, AllocError>
        requires { All (IsReady nodes) all.items }
        ensures { IfOk result (λ v. v.items ≡ map walker_state all.items) }
    {
        let mut rest = all;
        rest.reverse();
        let mut opened = Vec::with_capacity(alloc, rest.len())?;
        while let Some(pass) = rest.pop() {
            opened.push(Pass::open(alloc, pass, nodes)?)?;
        }
        Ok(opened)
    }

    /// Announces itself, goes in, and begins a walk.
    pub fn enter(self, list: &ImageList) -> Hold
        requires { self.table ≡ list.now }
        ensures entered { IsHeld self result }
        ensures walking { IsWalking result }
        ensures list { result.walker.table ≡ self.table }
    {
        let Pass {
            mut pass,
            mut met,
            spots,
        } = self;
        met.clear();
        let seen = pass.glance(&list.nodes);
        pass.announce(&list.nodes, seen);
        let low = pass.enter(&list.nodes);
        Hold {
            pass,
            met,
            ended: false,
            low,
            spots,
            filled: 0,
            count: 0,
        }
    }
}

impl Hold {
    /// Meets the image that follows the one met last, or else ends the walk: says whether it met
    /// one. Once it has ended it stays as it is. In one hold it says yes at most as often as the
    /// list has nodes.
    pub fn next(&mut self, list: &ImageList) -> bool
        requires { self.old.walker.table ≡ list.now }
        ensures next { IsNext self.old result self.new }
        ensures sees { OnlySees self.old.walker self.new.walker }
        ensures walking { IsWalking self.new }
        ensures list { self.new.walker.table ≡ self.old.walker.table }
    {
        if self.ended {
            return false;
        }
        let last = last_of(&self.met);
        let found = self.pass.next_link(&list.nodes, last);
        if found == 0 {
            self.ended = true;
            return false;
        }
        self.met.push_reserved(found);
        true
    }

    /// How many images the walk has met.
    pub fn met(&self) -> u32
        ensures { result ≡ length self.now.met }
    {
        self.met.len() as u32
    }

    /// Whether the walk has ended.
    pub fn has_ended(&self) -> bool
        ensures { result ≡ self.now.ended }
    {
        self.ended
    }

    /// Comes out, takes the announcement back, and gives the window of the hold.
    pub fn leave(self, list: &ImageList) -> (Pass, Window)
        requires { self.walker.table ≡ list.now }
        ensures released { IsReleased self result.0 result.1.low result.1.high }
        ensures list { result.0.table ≡ self.walker.table }
    {
        let Hold {
            mut pass,
            met,
            ended: _,
            low,
            spots,
            filled: _,
            count: _,
        } = self;
        let high = pass.leave(&list.nodes);
        pass.retire(&list.nodes);
        (Pass { pass, met, spots }, Window { low, high })
    }
}
