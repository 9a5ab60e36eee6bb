//! A sink that gathers bytes before another sink, which gets fewer and greater pieces so.
ghost use Rattle.std.specs.Prelude.{◌≡◌, ◌<◌, ◌≤◌, [], ◌∷◌, length, take, IfOk, OnOk, OnErr};
ghost use Rattle.std.specs.Io.KnownBytes.{append_known};
ghost use Rattle.plcr_base.specs.Causes.{Rose};
ghost use Rattle.plcr_base.specs.Told.{AppendsUpTo};

use crate::room::Room;
use crate::{PutFailed, Sink};

/// A sink before another whose puts are dear. What is put waits in room of its own, and goes on in
/// pieces of up to 16,384 bytes. What was put is what the other sink has written and then what
/// waits.
///
/// It stands directly on the borrow of the other sink, so that its owner learns what that has at
/// the end. It can't be dropped: `finish` passes on what waits, and `give_up` doesn't.
pub struct Gathered<'a, K: Sink> {
    pub(crate) sink: &'a mut K,
    room: Room,
}

/// Passes on what waits. At `Err` a rest of it still waits.
#[tactic(auto, using(plcr_base::proofs::Appended::up_to_start, plcr_base::proofs::Appended::up_to_put))]
fn pass_on<K: Sink>(sink: &mut K, room: &mut Room) -> Result<(), PutFailed>
    ensures parts { AppendsUpTo (K.written sink.old) (K.written sink.new) room.old room.new }
    ensures ok { OnOk result (room.new ≡ []) }
    ensures cause { OnErr result (Rose (K.faults sink.old) (K.faults sink.new)) }
    ensures later { K.faults sink.old ≤ K.faults sink.new }
    ensures mark { K.mark sink.new ≡ K.mark sink.old }
{
    while !room.is_empty() {
        let taken = sink.put(room.waiting())?;
        room.release(taken);
    }
    Ok(())
}

impl<'a, K: Sink> Gathered<'a, K> {
    ghost use Rattle.plcr_io.specs.Gathered.{sink_of, ended_sink, IsShort};

    /// Nothing waits.
    #[tactic(auto, using(plcr_base::proofs::Appended::append_nothing))]
    pub fn new(sink: &'a mut K) -> Gathered<'a, K>
        ensures same_sink { sink_of result ≡ sink.entry.ghost_name }
        ensures written { ⟦<Gathered<'a, K> as Sink>⟧.written result ≡ K.written sink.old }
        ensures faults { ⟦<Gathered<'a, K> as Sink>⟧.faults result ≡ K.faults sink.old }
        ensures mark { ⟦<Gathered<'a, K> as Sink>⟧.mark result
            ≡ sink.entry.ghost_name ∷ K.mark sink.old }
    {
        Gathered {
            sink,
            room: Room::new(),
        }
    }

    /// Passes on what waits. At `Err` a rest of it still waits.
    fn clear(&mut self) -> Result<(), PutFailed>
        ensures written { ⟦<Gathered<'a, K> as Sink>⟧.written self.new
            ≡ ⟦<Gathered<'a, K> as Sink>⟧.written self.old }
        ensures ok { OnOk result (self.new.room ≡ []) }
        ensures cause { OnErr result (Rose (⟦<Gathered<'a, K> as Sink>⟧.faults self.old)
            (⟦<Gathered<'a, K> as Sink>⟧.faults self.new)) }
        ensures later { ⟦<Gathered<'a, K> as Sink>⟧.faults self.old
            ≤ ⟦<Gathered<'a, K> as Sink>⟧.faults self.new }
        ensures mark { ⟦<Gathered<'a, K> as Sink>⟧.mark self.new
            ≡ ⟦<Gathered<'a, K> as Sink>⟧.mark self.old }
    {
        pass_on(self.sink, &mut self.room)
    }

    /// Passes on what waits, and ends. At `Err` a rest of it is lost.
    pub fn finish(self) -> Result<(), PutFailed>
        ensures ok { OnOk result (K.written (ended_sink self.exit).now
            ≡ ⟦<Gathered<'a, K> as Sink>⟧.written self.entry) }
        ensures short { IsShort (K.written (ended_sink self.exit).now)
            (⟦<Gathered<'a, K> as Sink>⟧.written self.entry) }
        ensures cause { OnErr result (Rose (⟦<Gathered<'a, K> as Sink>⟧.faults self.entry)
            (K.faults (ended_sink self.exit).now)) }
        ensures later { ⟦<Gathered<'a, K> as Sink>⟧.faults self.entry
            ≤ K.faults (ended_sink self.exit).now }
        ensures mark { (ended_sink self.exit).ghost_name ∷ K.mark (ended_sink self.exit).now
            ≡ ⟦<Gathered<'a, K> as Sink>⟧.mark self.entry }
    {
        let Gathered { sink, mut room } = self;
        pass_on(sink, &mut room)
    }

    /// Ends. What waits is lost.
    pub fn give_up(self)
        ensures short { IsShort (K.written (ended_sink self.exit).now)
            (⟦<Gathered<'a, K> as Sink>⟧.written self.entry) }
        ensures faults { K.faults (ended_sink self.exit).now
            ≡ ⟦<Gathered<'a, K> as Sink>⟧.faults self.entry }
        ensures mark { (ended_sink self.exit).ghost_name ∷ K.mark (ended_sink self.exit).now
            ≡ ⟦<Gathered<'a, K> as Sink>⟧.mark self.entry }
    {
        let Gathered { sink: _, room: _ } = self;
    }
}

impl<'a, K: Sink> Sink for Gathered<'a, K> {
    ghost written = { λ g. append_known (K.written g.sink.now) g.room };

    ghost faults = { λ g. K.faults g.sink.now };

    // The borrow, by its name: so a call that keeps the mark keeps the sink that stands behind.
    ghost mark = { λ g. g.sink.ghost_name ∷ K.mark g.sink.now };

    /// A piece for which there is no room lets the sink have what waits first.
    fn put(&mut self, piece: &[u8]) -> Result<usize, PutFailed> {
        if !self.room.hold(piece) {
            self.clear()?;
            if !self.room.hold(piece) {
                return self.sink.put(piece);
            }
        }
        Ok(piece.len())
    }
}
