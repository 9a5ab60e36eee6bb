//! A sink whose bytes nobody reads.

use plcr_io::{PutFailed, Sink};

/// It takes all bytes, and keeps none.
#[derive(Drop)]
pub(crate) struct Ignored;

impl Sink for Ignored {
    ghost use Rattle.std.specs.Prelude.{[], None};

    ghost written = { λ _. None };

    ghost faults = { λ _. 0 };

    ghost mark = { λ _. [] };

    fn put(&mut self, piece: &[u8]) -> Result<usize, PutFailed> {
        Ok(piece.len())
    }
}
