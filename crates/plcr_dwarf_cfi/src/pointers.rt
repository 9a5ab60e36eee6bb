//! Encoded pointers (Linux Standard Base Core, "DWARF Exception Header Encoding").
ghost use Rattle.std.specs.Prelude.{◌≡◌, ok_or};
ghost use Rattle.plcr_dwarf_expr.specs.Decoding.{among};
ghost use Rattle.plcr_dwarf_cfi.specs.Pointers.{encoding_of, formats, held_pointer, number_of, pointer_at, told_address};
ghost use Rattle.plcr_dwarf_cfi.specs.inner.Settings.{section};

use crate::encodings::*;
use crate::entries::{Encoding, Format};
use crate::fault::CallFrameFault;
use crate::sections::{Surroundings, eight_bytes, four_bytes, signed, two_bytes, unsigned};
use plcr_leb128::{Cells, Number};

// The format with so many low bits of an encoding.
fn format_of(bits: u8) -> Option<Format>
    ensures { result ≡ among bits formats }
{
    match bits {
        DW_EH_PE_absptr => Some(Format::Absptr),
        DW_EH_PE_uleb128 => Some(Format::Uleb128),
        DW_EH_PE_udata2 => Some(Format::Udata2),
        DW_EH_PE_udata4 => Some(Format::Udata4),
        DW_EH_PE_udata8 => Some(Format::Udata8),
        DW_EH_PE_sleb128 => Some(Format::Sleb128),
        DW_EH_PE_sdata2 => Some(Format::Sdata2),
        DW_EH_PE_sdata4 => Some(Format::Sdata4),
        DW_EH_PE_sdata8 => Some(Format::Sdata8),
        _ => None,
    }
}

/// The encoding in a byte: a format, from 0 or from the pointer's own address, and whether that is
/// where the pointer is.
#[tactic(auto, unfolding(crate::specs::Pointers::encoding_of))]
pub fn encoding_of(n: u8) -> Result<Encoding, CallFrameFault>
    ensures { result ≡ encoding_of n }
{
    let bits = n % DW_EH_PE_pcrel;
    let Some(format) = format_of(bits) else {
        return Err(CallFrameFault::UnknownEncoding);
    };
    let application = n % DW_EH_PE_indirect - bits;
    if application != DW_EH_PE_absptr && application != DW_EH_PE_pcrel {
        return Err(CallFrameFault::UnknownEncoding);
    }
    Ok(Encoding {
        format,
        relative: application == DW_EH_PE_pcrel,
        indirect: n >= DW_EH_PE_indirect,
    })
}

/// The number of a pointer, modulo 2^64, and the place behind it.
#[tactic(auto, unfolding(crate::specs::Pointers::number_of))]
pub fn number_of<C: Cells>(cells: &C, format: Format, at: u64) -> Result<Number, CallFrameFault>
    ensures { result ≡ number_of format (C.cells cells.now) at }
{
    let (value, next) = match format {
        Format::Uleb128 => return unsigned(cells, at),
        Format::Sleb128 => return signed(cells, at),
        Format::Udata2 => (u64::from(two_bytes(cells, at)?), at + 2),
        Format::Udata4 => (u64::from(four_bytes(cells, at)?), at + 4),
        Format::Sdata2 => {
            let number = two_bytes(cells, at)?.cast_signed();
            (i64::from(number).cast_unsigned(), at + 2)
        }
        Format::Sdata4 => {
            let number = four_bytes(cells, at)?.cast_signed();
            (i64::from(number).cast_unsigned(), at + 4)
        }
        Format::Absptr | Format::Udata8 | Format::Sdata8 => (eight_bytes(cells, at)?, at + 8),
    };
    Ok(Number { value, next })
}

// The address that a pointer's number at a place tells.
fn told_address<C: Cells>(
    cells: &C,
    around: &Surroundings<'_>,
    relative: bool,
    place: u64,
    n: u64,
) -> u64
    ensures { result ≡ told_address (section (C.cells cells.now) around.now) relative place n }
{
    if relative {
        n.wrapping_add(around.at).wrapping_add(place)
    } else {
        n
    }
}

// The pointer itself, where the address may only be told to hold it.
fn held_pointer<C: Cells>(
    cells: &C,
    around: &Surroundings<'_>,
    indirect: bool,
    address: u64,
) -> Result<u64, CallFrameFault>
    ensures { result ≡ held_pointer (section (C.cells cells.now) around.now) indirect address }
{
    if indirect {
        around
            .memory
            .read_u64(address)
            .ok_or(CallFrameFault::Truncated)
    } else {
        Ok(address)
    }
}

/// The pointer at a place, and the place behind it.
#[tactic(auto, unfolding(crate::specs::Pointers::pointer_at))]
pub fn pointer_at<C: Cells>(
    cells: &C,
    around: &Surroundings<'_>,
    encoding: Encoding,
    at: u64,
) -> Result<Number, CallFrameFault>
    ensures { result ≡ pointer_at (section (C.cells cells.now) around.now) encoding at }
{
    let number = number_of(cells, encoding.format, at)?;
    let address = told_address(cells, around, encoding.relative, at, number.value);
    let value = held_pointer(cells, around, encoding.indirect, address)?;
    Ok(Number {
        value,
        next: number.next,
    })
}
