//! Lines of text, gathered in a buffer of fixed size.
ghost use Rattle.std.specs.Prelude.{◌≡◌, ◌↔◌, ◌+◌, ◌<◌, ◌≤◌, ◌++◌, length, decimal, [], OnSome, IsNone, OnOk, OnErr};
ghost use Rattle.std.specs.Io.KnownBytes.{append_known};
ghost use Rattle.plcr_base.specs.Causes.{Rose};
ghost use Rattle.plcr_base.specs.Told.{AppendsProperFront};
ghost use Rattle.arrayvec.specs.ArrayVec.{array_vec_len};
ghost use Rattle.plcr_io.specs.declared.limits.TheConstants.{DECIMAL_DIGITS};
ghost use Rattle.plcr_io.specs.declared.lines.TheConstants.{LINE_ROOM};

use crate::{PutFailed, Sink, put_all};
use arrayvec::ArrayVec;
use itoa::Buffer;

/// Room for a line that is put whole.
const LINE_ROOM: usize = 512;

/// Adds bytes to a line that has room for them.
pub fn add_bytes<const N: usize>(line: &mut ArrayVec<u8, N>, bytes: &[u8])
    requires { array_vec_len line.old + length bytes.now ≤ N }
    ensures items { line.new.items ≡ line.old.items ++ bytes.now }
    ensures len { array_vec_len line.new ≡ array_vec_len line.old + length bytes.now }
{
    match line.try_extend_from_slice(bytes) {
        Ok(()) => {}
        Err(_) => unreachable!(),
    }
}

/// Adds a decimal number to a line that has room for [`DECIMAL_DIGITS`](crate::DECIMAL_DIGITS).
pub fn add_decimal<const N: usize>(line: &mut ArrayVec<u8, N>, number: u64)
    requires { array_vec_len line.old + DECIMAL_DIGITS ≤ N }
    ensures items { line.new.items ≡ line.old.items ++ decimal number }
    ensures len { array_vec_len line.new ≤ array_vec_len line.old + DECIMAL_DIGITS }
{
    let mut buffer = Buffer::new();
    add_bytes(line, buffer.format(number).as_bytes());
}

/// Writes a line in three parts, by one put where it is no longer than the room for it. At `Err` a
/// front of the whole was written, and not all.
pub fn put_parts<K: Sink>(
    sink: &mut K,
    head: &[u8],
    middle: &[u8],
    tail: &[u8],
) -> Result<(), PutFailed>
    ensures ok { OnOk result
        (K.written sink.new ≡ append_known (K.written sink.old)
        (head.now ++ middle.now ++ tail.now)) }
    ensures err { OnErr result (AppendsProperFront (K.written sink.old) (K.written sink.new)
        (head.now ++ middle.now ++ tail.now)) }
    ensures cause { OnErr result (Rose (K.faults sink.old) (K.faults sink.new)) }
    ensures later { K.faults sink.old ≤ K.faults sink.new }
    ensures mark { K.mark sink.new ≡ K.mark sink.old }
{
    let mut line = ArrayVec::new();
    match join(&mut line, head, middle, tail) {
        Some(()) => put_all(sink, line.as_slice()),
        None => put_each(sink, head, middle, tail),
    }
}

/// Makes the line of three parts in an empty one, where there is room for it.
fn join(line: &mut ArrayVec<u8, LINE_ROOM>, head: &[u8], middle: &[u8], tail: &[u8]) -> Option<()>
    requires { line.old.items ≡ [] }
    ensures whole { OnSome result (line.new.items ≡ head.now ++ middle.now ++ tail.now) }
    ensures long { IsNone result ↔
        (LINE_ROOM < length head.now + length middle.now + length tail.now) }
{
    line.try_extend_from_slice(head).ok()?;
    line.try_extend_from_slice(middle).ok()?;
    line.try_extend_from_slice(tail).ok()?;
    Some(())
}

/// Writes the three parts of a line, one after the other.
fn put_each<K: Sink>(sink: &mut K, head: &[u8], middle: &[u8], tail: &[u8]) -> Result<(), PutFailed>
    ensures ok { OnOk result
        (K.written sink.new ≡ append_known (K.written sink.old)
        (head.now ++ middle.now ++ tail.now)) }
    ensures err { OnErr result (AppendsProperFront (K.written sink.old) (K.written sink.new)
        (head.now ++ middle.now ++ tail.now)) }
    ensures cause { OnErr result (Rose (K.faults sink.old) (K.faults sink.new)) }
    ensures later { K.faults sink.old ≤ K.faults sink.new }
    ensures mark { K.mark sink.new ≡ K.mark sink.old }
{
    match put_all(sink, head) {
        Err(fault) => Err(fault),
        Ok(()) => match put_all(sink, middle) {
            Err(fault) => Err(fault),
            Ok(()) => match put_all(sink, tail) {
                Err(fault) => Err(fault),
                Ok(()) => Ok(()),
            },
        },
    }
}
