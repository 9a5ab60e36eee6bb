ghost use Rattle.std.specs.Prelude.{Some};
ghost use Rattle.plcr_core.specs.FaultTexts.{fault_text};

use crate::fault::CoreFault;
use std::fmt;

impl fmt::Display for CoreFault {
    ghost output = { λ fault. Some (fault_text fault) };

    fn fmt<W: fmt::Write>(&self, f: &mut fmt::Formatter<W>) -> fmt::Result {
        match *self {
            CoreFault::Truncated { at } => write!(f, "truncated {at}"),
            CoreFault::NotCore { magic, filetype } => write!(f, "notcore {magic} {filetype}"),
            CoreFault::OtherCpu { cpu } => write!(f, "othercpu {cpu}"),
            CoreFault::BadCommand { index } => write!(f, "badcommand {index}"),
            CoreFault::NoThread => write!(f, "nothread"),
            CoreFault::TooManyThreads { count } => write!(f, "toomanythreads {count}"),
            CoreFault::Overlap { first, second } => write!(f, "overlap {first} {second}"),
            CoreFault::Wraps { index } => write!(f, "wraps {index}"),
            CoreFault::Memory => write!(f, "memory"),
        }
    }
}
