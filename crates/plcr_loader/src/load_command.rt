//! The front of each load command (loader.h): its length in bytes, its fields, and what they say.
ghost use Rattle.std.specs.Prelude.{◌≡◌, ◌≤◌, length};
ghost use Rattle.plcr_loader.specs.Sources.{load_command_in};

use crate::field::Field;

pub const LENGTH: usize = 8;

pub const CMD: Field = Field { at: 0, size: 4 };

pub const CMDSIZE: Field = Field { at: 4, size: 4 };

/// Which load command it is, and its size in bytes, the front included.
#[derive(Clone, Copy, Debug, PartialEq, Eq)]
pub struct LoadCommand {
    pub cmd: u32,
    pub cmdsize: u32,
}

impl LoadCommand {
    /// What the front of a command says.
    pub fn read(front: &[u8]) -> LoadCommand
        requires { LENGTH ≤ length front.now }
        ensures { result ≡ load_command_in front.now }
    {
        LoadCommand {
            cmd: CMD.read_u32(front),
            cmdsize: CMDSIZE.read_u32(front),
        }
    }
}
