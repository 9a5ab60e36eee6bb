//! Sinks: where bytes are written, piece by piece.
ghost use Rattle.std.specs.Prelude.{◌≡◌, ℕ, ◌<◌, ◌≤◌, List, length, take, Option, IfOk, OnOk, OnErr};
ghost use Rattle.std.specs.Io.KnownBytes.{append_known};
ghost use Rattle.plcr_base.specs.Causes.{Rose};
ghost use Rattle.plcr_base.specs.Told.{AppendsProperFront};

use std::alloc::AllocError;

/// A sink didn't take a piece.
#[derive(Clone, Copy, Debug, Drop, PartialEq, Eq)]
pub struct PutFailed;

/// Memory ran out.
#[derive(Clone, Copy, Debug, Drop, PartialEq, Eq)]
pub struct NoMemory;

impl From<AllocError> for NoMemory {
    fn from(_: AllocError) -> Self {
        NoMemory
    }
}

/// A sink of bytes. It needs no memory to write to it.
pub trait Sink {
    /// The bytes so far, where the sink tells them.
    ghost written: { Self → Option (List ℕ) };

    /// How often it has failed.
    ghost faults: { Self → ℕ };

    /// Plain data of the sink's own choice, which no put changes.
    ghost mark: { Self → List ℕ };

    /// Writes a front of a piece that isn't empty: its first byte at least. At `Ok(n)` that were
    /// the first `n` bytes, at `Err` none.
    fn put(&mut self, piece: &[u8]) -> Result<usize, PutFailed>
        requires { 0 < length piece.now }
        ensures some { IfOk result (λ n. 0 < n) }
        ensures within { IfOk result (λ n. n ≤ length piece.now) }
        ensures written { IfOk result
            (λ n. written self.new ≡ append_known (written self.old) (take n piece.now)) }
        ensures err { OnErr result (written self.new ≡ written self.old) }
        ensures cause { OnErr result (Rose (faults self.old) (faults self.new)) }
        ensures later { faults self.old ≤ faults self.new }
        ensures mark { mark self.new ≡ mark self.old };

    /// Whether a put is dear, as a call of the system is: few great pieces are better then than
    /// many small ones.
    fn is_dear(&self) -> bool {
        false
    }
}

/// Writes all of these bytes. At `Err` a front of them was written, and not all.
#[tactic(auto, using(plcr_base::proofs::Appended::up_to_start, plcr_base::proofs::Appended::up_to_put, plcr_base::proofs::Appended::up_to_end, plcr_base::proofs::Appended::up_to_err))]
pub fn put_all<K: Sink>(sink: &mut K, bytes: &[u8]) -> Result<(), PutFailed>
    ensures ok { OnOk result (K.written sink.new ≡ append_known (K.written sink.old) bytes.now) }
    ensures err { OnErr result
        (AppendsProperFront (K.written sink.old) (K.written sink.new) bytes.now) }
    ensures cause { OnErr result (Rose (K.faults sink.old) (K.faults sink.new)) }
    ensures later { K.faults sink.old ≤ K.faults sink.new }
    ensures mark { K.mark sink.new ≡ K.mark sink.old }
{
    let mut rest = bytes;
    while !rest.is_empty() {
        let taken = sink.put(rest)?;
        rest = rest.split_at(taken).1;
    }
    Ok(())
}
