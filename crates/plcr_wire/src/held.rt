//! Bytes that are held for a sink.
ghost use Rattle.std.specs.Prelude.{◌≡◌, ◌+◌, ◌*◌, ◌^◌, ◌<◌, ◌≤◌, [], ◌++◌, length, drop, true, false, OnOk, OnErr, ◌⊎◌};
ghost use Rattle.arrayvec.specs.ArrayVec.{array_vec_len};
ghost use Rattle.plcr_base.specs.Causes.{Rose};
ghost use Rattle.plcr_base.specs.Told.{AppendsUpTo};

use arrayvec::ArrayVec;
use plcr_io::{PutFailed, Sink};

/// From so many bytes on a copy of all is faster than one after the other.
const COPIED: usize = 8;

/// Removes the first bytes.
fn take_front<const ROOM: usize>(held: &mut ArrayVec<u8, ROOM>, count: usize)
    requires { count ≤ array_vec_len held.old }
    ensures { held.new.items ≡ drop count held.old.items }
{
    drop(held.drain(..count));
}

/// Puts what is held, piece after piece. At `Err` what wasn't taken is still held.
#[tactic(auto, using(plcr_base::proofs::Appended::up_to_start, plcr_base::proofs::Appended::up_to_put))]
pub(crate) fn put_held<K: Sink, const ROOM: usize>(
    sink: &mut K,
    held: &mut ArrayVec<u8, ROOM>,
) -> Result<(), PutFailed>
    ensures parts { AppendsUpTo (K.written sink.old) (K.written sink.new) held.old.items
        held.new.items }
    ensures ok { OnOk result (held.new.items ≡ []) }
    ensures err { OnErr result (0 < length held.new.items) }
    ensures later { K.faults sink.old ≤ K.faults sink.new }
    ensures cause { OnErr result (Rose (K.faults sink.old) (K.faults sink.new)) }
    ensures mark { K.mark sink.new ≡ K.mark sink.old }
{
    while !held.is_empty() {
        let taken = sink.put(held.as_slice())?;
        take_front(held, taken);
    }
    Ok(())
}

/// Holds these bytes too, one after the other.
#[inline(always)]
fn push_each<const ROOM: usize>(held: &mut ArrayVec<u8, ROOM>, bytes: &[u8])
    requires { array_vec_len held.old + length bytes.now ≤ ROOM }
    ensures { held.new.items ≡ held.old.items ++ bytes.now }
{
    for b in bytes {
        held.push(*b);
    }
}

/// Holds these bytes too.
#[inline(always)]
pub(crate) fn push_all<const ROOM: usize>(held: &mut ArrayVec<u8, ROOM>, bytes: &[u8])
    requires { array_vec_len held.old + length bytes.now ≤ ROOM }
    ensures { held.new.items ≡ held.old.items ++ bytes.now }
{
    if bytes.len() < COPIED {
        push_each(held, bytes);
    } else {
        match held.try_extend_from_slice(bytes) {
            Ok(()) => {}
            Err(_) => unreachable!(),
        }
    }
}

/// Puts what is held, unless bytes were lost already. At `Err` what wasn't taken is still held.
pub(crate) fn end_held<K: Sink, const ROOM: usize>(
    sink: &mut K,
    held: &mut ArrayVec<u8, ROOM>,
    failed: bool,
) -> Result<(), PutFailed>
    ensures parts { AppendsUpTo (K.written sink.old) (K.written sink.new) held.old.items
        held.new.items }
    ensures ok { OnOk result ((held.new.items ≡ []) × (failed ≡ false)) }
    ensures err { OnErr result ((failed ≡ true) ⊎ (0 < length held.new.items)) }
    ensures kept { failed ≡ true → K.written sink.new ≡ K.written sink.old }
    ensures later { K.faults sink.old ≤ K.faults sink.new }
    ensures cause { OnErr result ((failed ≡ true) ⊎ Rose (K.faults sink.old) (K.faults sink.new)) }
    ensures mark { K.mark sink.new ≡ K.mark sink.old }
{
    if failed {
        return Err(PutFailed);
    }
    put_held(sink, held)
}
