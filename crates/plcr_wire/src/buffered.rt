//! Bytes on their way to a sink, gathered into pieces.
ghost use Rattle.std.specs.Prelude.{◌≡◌, ℕ, ◌+◌, ◌≤◌, ◌<◌, List, [], ◌∷◌, ◌++◌, length, drop, Option, Some, true, false, OnOk, OnErr, ◌⊎◌};
ghost use Rattle.std.specs.Io.KnownBytes.{append_known};
ghost use Rattle.plcr_base.specs.Causes.{Rose};
ghost use Rattle.plcr_wire.specs.Pen.{sink_pen, Puts, PutsProperFront, HoldsNothing, Ended, Lost, Wrote};
ghost use Rattle.plcr_wire.specs.Varint.{varint};

use crate::held::{end_held, push_all, put_held};
use crate::varint::{VARINT_BYTES, push_varint};
use crate::wires::{Wire, tag_number};
use crate::{Ink, Put, put_varint};
use arrayvec::ArrayVec;
use plcr_io::{PutFailed, Sink};

/// A sink of a capture gets pieces of so many bytes.
pub const PIECE: usize = 256;

/// A sink of a text gets pieces of so many bytes, since each may be a call of the system.
pub const TEXT_PIECE: usize = 4096;

/// Gathers bytes, and puts them to a sink in pieces of 256 bytes, and the rest at the end.
pub type Buffered<'a, K> = Pieces<'a, K, PIECE>;

/// Gathers bytes, and puts them to a sink in pieces of 4,096 bytes, and the rest at the end.
pub type BufferedText<'a, K> = Pieces<'a, K, TEXT_PIECE>;

/// Gathers bytes, and puts them to a sink in pieces of `ROOM` bytes, and the rest at the end.
///
/// It stands directly on the borrow of the sink, so that its owner learns what the sink has at the
/// end. It can't be dropped: only `finish` ends it, which tells whether bytes were lost.
pub struct Pieces<'a, K: Sink, const ROOM: usize> {
    sink: &'a mut K,
    held: ArrayVec<u8, ROOM>,
    failed: bool,
    ghost roomy: { 0 < ROOM },
}

impl<'a, K: Sink, const ROOM: usize> Pieces<'a, K, ROOM> {
    ghost use Rattle.plcr_wire.specs.Sinks.{ended_sink, sink_of};

    /// Holds nothing yet.
    pub fn new(sink: &'a mut K) -> Pieces<'a, K, ROOM>
        requires { 0 < ROOM }
        ensures same_sink { sink_of result ≡ sink.entry.ghost_name }
        ensures pen { ⟦<Pieces<'a, K, ROOM> as Put>⟧.pen result
            ≡ sink_pen sink.entry.ghost_name (K.written sink.old) (K.faults sink.old)
            (K.mark sink.old) [] false }
    {
        Pieces {
            sink,
            held: ArrayVec::new(),
            failed: false,
        }
    }

    // Puts what is held. At `Ok` nothing is held any more; at `Err` what the sink didn't take still
    // is.
    fn pass_on(&mut self) -> Result<(), PutFailed>
        ensures given { Puts (⟦<Pieces<'a, K, ROOM> as Put>⟧.pen self.old)
            (⟦<Pieces<'a, K, ROOM> as Put>⟧.pen self.new) [] }
        ensures ok { OnOk result (self.new.held.items ≡ []) }
        ensures cause { OnErr result (Rose (⟦<Pieces<'a, K, ROOM> as Put>⟧.pen self.old).faults
            (⟦<Pieces<'a, K, ROOM> as Put>⟧.pen self.new).faults) }
        ensures same_sink { sink_of self.new ≡ sink_of self.old }
    {
        put_held(self.sink, &mut self.held)
    }

    /// Puts what is held. At `Ok` nothing is held any more, and none was lost before; at `Err` what
    /// the sink didn't take still is, or bytes were lost before.
    pub fn flush(&mut self) -> Result<(), PutFailed>
        ensures given { Puts (⟦<Pieces<'a, K, ROOM> as Put>⟧.pen self.old)
            (⟦<Pieces<'a, K, ROOM> as Put>⟧.pen self.new) [] }
        ensures ok { OnOk result (HoldsNothing (⟦<Pieces<'a, K, ROOM> as Put>⟧.pen self.new).page) }
        ensures whole { OnOk result ((⟦<Pieces<'a, K, ROOM> as Put>⟧.pen self.old).failed ≡ false) }
        ensures cause { OnErr result (((⟦<Pieces<'a, K, ROOM> as Put>⟧.pen self.old).failed ≡ true)
            ⊎ Rose (⟦<Pieces<'a, K, ROOM> as Put>⟧.pen self.old).faults
            (⟦<Pieces<'a, K, ROOM> as Put>⟧.pen self.new).faults) }
        ensures same_sink { sink_of self.new ≡ sink_of self.old }
    {
        if self.failed {
            return Err(PutFailed);
        }
        self.pass_on()
    }

    /// Puts what is held, and ends. At `Ok` the sink has all the bytes given; at `Err` a front of
    /// them, not all.
    pub fn finish(self) -> Result<(), PutFailed>
        ensures ok { OnOk result
            (Ended (⟦<Pieces<'a, K, ROOM> as Put>⟧.pen self.entry)
            (K.written (ended_sink self.exit).now)) }
        ensures err { OnErr result
            (Lost (⟦<Pieces<'a, K, ROOM> as Put>⟧.pen self.entry)
            (K.written (ended_sink self.exit).now)) }
        ensures later { (⟦<Pieces<'a, K, ROOM> as Put>⟧.pen self.entry).faults
            ≤ K.faults (ended_sink self.exit).now }
        ensures cause { OnErr result
            (((⟦<Pieces<'a, K, ROOM> as Put>⟧.pen self.entry).failed ≡ true)
            ⊎ Rose (⟦<Pieces<'a, K, ROOM> as Put>⟧.pen self.entry).faults
            (K.faults (ended_sink self.exit).now)) }
        ensures mark { K.mark (ended_sink self.exit).now
            ≡ (⟦<Pieces<'a, K, ROOM> as Put>⟧.pen self.entry).mark }
    {
        let Pieces {
            sink,
            mut held,
            failed,
        } = self;
        end_held(sink, &mut held, failed)
    }

    // Holds these bytes too, for which there is room.
    #[tactic(auto, using(crate::proofs::Gathered::held_piece))]
    fn hold(&mut self, bytes: &[u8])
        requires { length self.old.held.items + length bytes.now ≤ ROOM }
        ensures given { Puts (⟦<Pieces<'a, K, ROOM> as Put>⟧.pen self.old)
            (⟦<Pieces<'a, K, ROOM> as Put>⟧.pen self.new) bytes.now }
        ensures same_sink { sink_of self.new ≡ sink_of self.old }
    {
        push_all(&mut self.held, bytes);
    }

    // Writes the shortest varints of two numbers. Both are held at once where there is room for any
    // two.
    #[inline(always)]
    #[tactic(auto, using(crate::proofs::Gathered::wrote_both, crate::proofs::Writing::wrote_twice))]
    fn two_varints(&mut self, first: u64, second: u64)
        ensures { Wrote (⟦<Pieces<'a, K, ROOM> as Put>⟧.pen self.old)
            (⟦<Pieces<'a, K, ROOM> as Put>⟧.pen self.new) (varint first ++ varint second) }
    {
        if !self.failed && self.held.remaining_capacity() >= 2 * VARINT_BYTES {
            push_varint(&mut self.held, first);
            push_varint(&mut self.held, second);
        } else {
            self.varint(first);
            self.varint(second);
        }
    }

    // Holds these bytes too. Whenever there is no room for the next byte, what is held goes to the
    // sink first.
    fn gather(&mut self, bytes: &[u8]) -> Result<(), PutFailed>
        ensures ok { OnOk result
            (Puts (⟦<Pieces<'a, K, ROOM> as Put>⟧.pen self.old)
            (⟦<Pieces<'a, K, ROOM> as Put>⟧.pen self.new) bytes.now) }
        ensures err { OnErr result (PutsProperFront (⟦<Pieces<'a, K, ROOM> as Put>⟧.pen self.old)
            (⟦<Pieces<'a, K, ROOM> as Put>⟧.pen self.new) bytes.now) }
        ensures cause { OnErr result (Rose (⟦<Pieces<'a, K, ROOM> as Put>⟧.pen self.old).faults
            (⟦<Pieces<'a, K, ROOM> as Put>⟧.pen self.new).faults) }
        ensures same_sink { sink_of self.new ≡ sink_of self.old }
    {
        let mut rest = bytes;
        let mut room = self.held.remaining_capacity();
        while rest.len() > room {
            let (front, back) = rest.split_at(room);
            self.hold(front);
            self.pass_on()?;
            rest = back;
            room = self.held.remaining_capacity();
        }
        self.hold(rest);
        Ok(())
    }
}

impl<'a, K: Sink, const ROOM: usize> Put for Pieces<'a, K, ROOM> {
    ghost use Rattle.plcr_wire.specs.inner.Shown.{sink_shown};

    ghost pen = { λ b. sink_pen b.sink.ghost_name (K.written b.sink.now) (K.faults b.sink.now)
        (K.mark b.sink.now) b.held.items b.failed };

    fn byte(&mut self, b: u8) -> Result<(), PutFailed> {
        if self.held.is_full() {
            self.pass_on()?;
        }
        self.held.push(b);
        Ok(())
    }

    ghost shows_some = { λ b. sink_shown _ _ _ _ b.held.items b.failed };
}

impl<'a, K: Sink, const ROOM: usize> Ink for Pieces<'a, K, ROOM> {
    #[inline(always)]
    fn raw(&mut self, bytes: &[u8]) {
        if self.failed {
            return;
        }
        if bytes.len() <= self.held.remaining_capacity() {
            push_all(&mut self.held, bytes);
        } else if self.gather(bytes).is_err() {
            self.failed = true;
        }
    }

    fn varint(&mut self, value: u64) {
        if self.failed {
            return;
        }
        if self.held.remaining_capacity() >= VARINT_BYTES {
            push_varint(&mut self.held, value);
        } else if put_varint(self, value).is_err() {
            self.failed = true;
        }
    }

    #[inline(always)]
    #[tactic(auto, unfolding(crate::specs::Varint::tag, crate::specs::Message::field_spelling))]
    fn number(&mut self, field: u32, value: u64) {
        self.two_varints(tag_number(field, Wire::Number.number()), value);
    }

    #[inline(always)]
    #[tactic(auto, unfolding(crate::specs::Varint::tag))]
    fn head(&mut self, field: u32, len: u64) {
        self.two_varints(tag_number(field, Wire::Bytes.number()), len);
    }
}
