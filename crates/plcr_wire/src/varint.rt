//! Base 128 varints.
ghost use Rattle.std.specs.Prelude.{◌≡◌, ◌+◌, ◌*◌, ◌^◌, ◌<◌, ◌≤◌, ℕ, List, ◌++◌, length};
ghost use Rattle.arrayvec.specs.ArrayVec.{array_vec_len};
ghost use Rattle.plcr_wire.specs.Varint.{varint, IsVarint};
ghost use Rattle.plcr_wire.specs.declared.varint.TheConstants.{VARINT_BYTES};

use arrayvec::ArrayVec;

/// Each byte of a varint has one of so many values of its number: the number is spelled to this
/// base.
pub(crate) const BASE: u64 = 128;

/// Each byte has so many bits of the number.
const GROUP_BITS: u64 = 7;

/// The shortest varint of a number of 64 bits has at most so many bytes, and none that is read has
/// more.
pub const VARINT_BYTES: usize = 10;

/// How many bytes the shortest varint of the value has: 1 to 10.
#[tactic(auto, using(crate::proofs::Logarithm::varint_log, crate::proofs::Varints::varint_small))]
pub fn varint_len(value: u64) -> u64
    ensures size { result ≡ length (varint value) }
    ensures short { result ≤ VARINT_BYTES }
{
    if value < BASE {
        return 1;
    }
    value.ilog2() as u64 / GROUP_BITS + 1
}

/// Appends the shortest varint of a number. Most have one byte.
#[inline(always)]
#[tactic(auto, using(crate::proofs::Varints::varint_small))]
pub(crate) fn push_varint<const ROOM: usize>(held: &mut ArrayVec<u8, ROOM>, value: u64)
    requires { array_vec_len held.old + VARINT_BYTES ≤ ROOM }
    ensures { held.new.items ≡ held.old.items ++ varint value }
{
    if value >= BASE {
        push_groups(held, value);
    } else {
        held.push(value as u8);
    }
}

/// Appends the shortest varint of a number, group by group.
#[tactic(auto, using(crate::proofs::Varints::varint_short))]
fn push_groups<const ROOM: usize>(held: &mut ArrayVec<u8, ROOM>, value: u64)
    requires { array_vec_len held.old + VARINT_BYTES ≤ ROOM }
    ensures { held.new.items ≡ held.old.items ++ varint value }
{
    let mut rest = value;
    while rest >= BASE {
        held.push((rest % BASE + BASE) as u8);
        rest /= BASE;
    }
    held.push(rest as u8);
}

/// The spelling of a number is a varint of it, no other is shorter, and none that is as short is
/// another.
#[tactic(auto, using(crate::proofs::Shortest::varint_is, crate::proofs::Shortest::varint_least, crate::proofs::Shortest::varint_only))]
pub fn shortest_varint()
    ensures is { (n : ℕ) → IsVarint (varint n) n }
    ensures least { (bytes : List ℕ) (n : ℕ) → IsVarint bytes n → length (varint n) ≤ length bytes }
    ensures only { (bytes : List ℕ) (n : ℕ) → IsVarint bytes n → length bytes ≤ length (varint n) →
        bytes ≡ varint n }
{}
