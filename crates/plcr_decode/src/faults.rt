//! Why a file is no report.
ghost use Rattle.std.specs.Prelude.{◌≡◌};
ghost use Rattle.plcr_decode.specs.Scan.{of_wire};

use plcr_report::Kind;
use plcr_wire::WireFault;

/// Why a file is no report. Places are counted in bytes from the file's beginning.
#[derive(Clone, Copy, Debug, Drop, PartialEq, Eq)]
pub enum DecodeFault {
    /// It doesn't begin with the text `plcrash`.
    Magic,
    /// Its version isn't 1.
    Version { found: u8 },
    /// A field passes the end of its message, which is at this place.
    Truncated { at: usize },
    /// The varint at this place has more than 64 bits.
    BadVarint { at: usize },
    /// The tag at this place has no field's number, or no wire type in use.
    BadTag { at: usize },
    /// The field whose tag is at this place has another wire type than its own.
    WrongWire { field: u32, at: usize },
    /// A message lacks a field that it has to have.
    Missing { message: Kind, field: u32 },
    /// There isn't memory enough for the report.
    Memory,
}

/// A fault of one field is one of the report.
pub(crate) fn fault_of(fault: WireFault) -> DecodeFault
    ensures { result ≡ of_wire fault }
{
    match fault {
        WireFault::Truncated { at } => DecodeFault::Truncated { at },
        WireFault::BadVarint { at } => DecodeFault::BadVarint { at },
        WireFault::BadTag { at } => DecodeFault::BadTag { at },
    }
}
