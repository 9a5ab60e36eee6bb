//! Writers of single bytes, and the numbers that are spelled by them.
ghost use Rattle.std.specs.Prelude.{◌≡◌, ◌+◌, ◌*◌, ◌^◌, ◌<◌, ◌≤◌, [], ◌∷◌, length, OnOk, OnErr};
ghost use Rattle.plcr_base.specs.Causes.{Rose};
ghost use Rattle.plcr_wire.specs.Pen.{Pen, IsShown, Puts, PutsProperFront};
ghost use Rattle.plcr_wire.specs.Varint.{varint, tag};
ghost use Rattle.plcr_wire.specs.Wires.{wire_number};
ghost use Rattle.plcr_wire.specs.declared.varint.TheConstants.{VARINT_BYTES};
ghost use Rattle.plcr_wire.specs.declared.wires.TheConstants.{WIRE_TYPES};

use crate::varint::{BASE, varint_len};
use crate::wires::{Wire, tag_number};
use plcr_io::PutFailed;

/// A writer of bytes.
pub trait Put {
    /// What it shows of the bytes given and of its failures.
    ghost pen: { Self → Pen };

    /// Writes a byte. At `Err` nothing was written.
    fn byte(&mut self, b: u8) -> Result<(), PutFailed>
        ensures ok { OnOk result (Puts (pen self.old) (pen self.new) (b ∷ [])) }
        ensures err { OnErr result (Puts (pen self.old) (pen self.new) []) }
        ensures cause { OnErr result (Rose (pen self.old).faults (pen self.new).faults) };

    ghost shows_some: { (p : Self) → IsShown (pen p) };
}

/// Writes a number as its shortest varint. At `Err` a front of it was written, and not all.
#[tactic(auto, using(crate::proofs::Puttings::puts_start, crate::proofs::Puttings::varint_more, crate::proofs::Puttings::varint_last, crate::proofs::Puttings::varint_cut))]
pub fn put_varint<P: Put>(p: &mut P, value: u64) -> Result<(), PutFailed>
    ensures ok { OnOk result (Puts (P.pen p.old) (P.pen p.new) (varint value)) }
    ensures err { OnErr result (PutsProperFront (P.pen p.old) (P.pen p.new) (varint value)) }
    ensures cause { OnErr result (Rose (P.pen p.old).faults (P.pen p.new).faults) }
{
    let mut rest = value;
    while rest >= BASE {
        p.byte((rest % BASE + BASE) as u8)?;
        rest /= BASE;
    }
    p.byte(rest as u8)?;
    Ok(())
}

/// Writes the tag of a field with this number and wire type. At `Err` a front of it was written,
/// and not all.
#[tactic(auto, unfolding(crate::specs::Varint::tag))]
pub fn put_tag<P: Put>(p: &mut P, field: u32, wire: u8) -> Result<(), PutFailed>
    requires some { 0 < field }
    requires within { field < 2 ^ 29 }
    requires wire { wire < WIRE_TYPES }
    ensures ok { OnOk result (Puts (P.pen p.old) (P.pen p.new) (tag field wire)) }
    ensures err { OnErr result (PutsProperFront (P.pen p.old) (P.pen p.new) (tag field wire)) }
    ensures cause { OnErr result (Rose (P.pen p.old).faults (P.pen p.new).faults) }
{
    put_varint(p, tag_number(field, u64::from(wire)))
}

/// How many bytes the tag of a field with this number and wire type has.
#[tactic(auto, unfolding(crate::specs::Varint::tag))]
pub fn tag_len(field: u32, wire: Wire) -> u64
    ensures size { result ≡ length (tag field (wire_number wire)) }
    ensures short { result ≤ VARINT_BYTES }
{
    varint_len(tag_number(field, wire.number()))
}
