//! The text of a fault.
ghost use Rattle.std.specs.Prelude.{◌≡◌, Some};
ghost use Rattle.plcr_decode.specs.FaultTexts.{fault_text, kind_text};

use crate::faults::DecodeFault;
use plcr_report::Kind;
use std::fmt;

/// A message's name in lower case.
fn kind_name(kind: Kind) -> &'static str
    ensures { result.now ≡ kind_text kind }
{
    match kind {
        Kind::Root => "root",
        Kind::System => "system",
        Kind::Application => "application",
        Kind::Thread => "thread",
        Kind::Frame => "frame",
        Kind::Symbol => "symbol",
        Kind::Register => "register",
        Kind::Image => "image",
        Kind::Processor => "processor",
        Kind::Signal => "signal",
        Kind::Process => "process",
        Kind::Info => "info",
    }
}

impl fmt::Display for DecodeFault {
    ghost output = { λ fault. Some (fault_text fault) };

    fn fmt<W: fmt::Write>(&self, f: &mut fmt::Formatter<W>) -> fmt::Result {
        match *self {
            DecodeFault::Magic => write!(f, "magic"),
            DecodeFault::Version { found } => write!(f, "version {found}"),
            DecodeFault::Truncated { at } => write!(f, "truncated {at}"),
            DecodeFault::BadVarint { at } => write!(f, "badvarint {at}"),
            DecodeFault::BadTag { at } => write!(f, "badtag {at}"),
            DecodeFault::WrongWire { field, at } => write!(f, "wrongwire {field} {at}"),
            DecodeFault::Missing { message, field } => {
                let name = kind_name(message);
                write!(f, "missing {name} {field}")
            }
            DecodeFault::Memory => write!(f, "memory"),
        }
    }
}
