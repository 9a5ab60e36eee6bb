//! Holds that lie in a collection.
ghost use Rattle.std.specs.Prelude.{◌≡◌};
ghost use Rattle.plcr_imagelist.specs.Holds.{IsWalking};

use crate::hold::Hold;
use plcr_macho::Spot;
use plcr_nodes::NodePass;
use std::marker::Model;

/// A hold that is kept among other values, as in a `Vec`, which wants what may be dropped. It is
/// the same hold, and contracts see the same of it: its pass is in, and comes out only once it is a
/// `Hold` again and left. One that is dropped stays in for good, and the nodes that it may reach
/// are never free again.
#[derive(Drop)]
pub struct KeptHold {
    pass: NodePass,
    met: Vec<u32>,
    ended: bool,
    low: u32,
    spots: Vec<Spot>,
    filled: usize,
    count: usize,
}

impl Model for KeptHold {
    ghost use Rattle.std.specs.Prelude.{◌≤◌, vec_capacity};
    ghost use Rattle.plcr_macho.specs.Spots.{IsSettled};
    ghost use Rattle.plcr_imagelist.specs.Holds.{HoldState};
    ghost use Rattle.plcr_imagelist.specs.inner.Indexing.{extents_in};
    ghost use Rattle.plcr_imagelist.specs.inner.Holding.{walker_state, images_on, IsHolding};

    ghost Value = { HoldState };

    ghost view = { λ h. record {
      walker = walker_state h.pass;
      met =
          images_on h.met.items h.pass.history;
      ended = h.ended;
      extents =
          extents_in h.count h.spots.items h.filled;
    } };

    ghost invariant = { λ h. IsHolding h.pass h.met.items h.ended h.low
        × (h.pass.nodes ≤ vec_capacity h.met) × (h.pass.nodes ≤ vec_capacity h.spots)
        × IsSettled h.count h.spots.items h.filled };
}

impl Hold {
    /// The hold as a value that a collection may have.
    pub fn keep(self) -> KeptHold
        ensures { result ≡ self }
    {
        let Hold {
            pass,
            met,
            ended,
            low,
            spots,
            filled,
            count,
        } = self;
        KeptHold {
            pass,
            met,
            ended,
            low,
            spots,
            filled,
            count,
        }
    }
}

impl KeptHold {
    /// The hold, to go on with.
    pub fn resume(self) -> Hold
        ensures same { result ≡ self }
        ensures walking { IsWalking result }
    {
        let KeptHold {
            pass,
            met,
            ended,
            low,
            spots,
            filled,
            count,
        } = self;
        Hold {
            pass,
            met,
            ended,
            low,
            spots,
            filled,
            count,
        }
    }
}
