//! A count of bytes.
ghost use Rattle.std.specs.Prelude.{◌≡◌, ◌≤◌, ◌-◌, ◌^◌};
ghost use Rattle.plcr_wire.specs.Pen.{counter_pen};

use crate::{Ink, Put, varint_len};
use plcr_io::PutFailed;

/// Counts the bytes that it is given. At `u64::MAX` it stays. It never fails.
#[derive(Drop)]
pub struct Counter {
    bytes: u64,
    ghost within: { bytes ≤ 2 ^ 64 - 1 },
}

impl Counter {
    /// A count of no bytes.
    pub fn new() -> Counter
        ensures { ⟦<Counter as Put>⟧.pen result ≡ counter_pen 0 }
    {
        Counter { bytes: 0 }
    }

    /// How many bytes it was given, or `u64::MAX` where there were more.
    pub fn count(&self) -> u64
        ensures { ⟦<Counter as Put>⟧.pen self.now ≡ counter_pen result }
    {
        self.bytes
    }
}

impl Put for Counter {
    ghost use Rattle.plcr_wire.specs.inner.Shown.{counter_shown};

    ghost pen = { λ c. counter_pen c.bytes };

    fn byte(&mut self, _b: u8) -> Result<(), PutFailed> {
        self.bytes = self.bytes.saturating_add(1);
        Ok(())
    }

    ghost shows_some = { λ c. counter_shown c.bytes c.within };
}

impl Ink for Counter {
    #[tactic(auto, using(crate::proofs::Writing::counter_wrote))]
    fn raw(&mut self, bytes: &[u8]) {
        self.bytes = self.bytes.saturating_add(bytes.len() as u64);
    }

    #[tactic(auto, using(crate::proofs::Writing::counter_wrote))]
    fn varint(&mut self, value: u64) {
        self.bytes = self.bytes.saturating_add(varint_len(value));
    }
}
