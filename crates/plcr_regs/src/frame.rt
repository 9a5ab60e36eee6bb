ghost use Rattle.std.specs.Prelude.{◌≡◌};
ghost use Rattle.plcr_regs.specs.Frames.{cut, frame_lookup, frame_pc};

use crate::arch::Arch;
use crate::places::pc_place;
use crate::registers::Registers;

/// A frame of a thread.
#[derive(Clone, Copy, Debug, PartialEq, Eq)]
pub struct Frame {
    /// What is known of the registers.
    pub registers: Registers,
    /// Whether the thread stands at the program counter itself. Else this is the address to which a
    /// call returns.
    pub exact: bool,
    /// How many low bits of an address of code count on arm64; the others may hold a signature.
    /// From 64 on all count.
    pub bits: u8,
}

/// What a reader of frames answers.
#[derive(Clone, Copy, Debug, PartialEq, Eq)]
pub enum Step {
    /// The frame of the caller.
    Frame(Frame),
    /// There is no caller.
    End,
    /// The caller can't be found, for the reason of this number.
    Bad(u8),
}

impl Frame {
    /// An address of code without its signature.
    #[tactic(auto, unfolding(crate::specs::Frames::code_address), using(crate::proofs::Wide::wide))]
    pub fn cut(&self, address: u64) -> u64
        ensures { result ≡ cut self.now address }
    {
        match self.registers.arch {
            Arch::Arm64 if self.bits < 64 => address % (1 << self.bits),
            _ => address,
        }
    }

    /// The address of the frame's code, without its signature; None where the program counter is
    /// unknown.
    pub fn pc(&self) -> Option<u64>
        ensures { result ≡ frame_pc self.now }
    {
        let pc = self.registers.value[pc_place(self.registers.arch)]?;
        Some(self.cut(pc))
    }

    /// The address by which the frame's function is looked up: `pc` where the frame is exact, else
    /// the one before it, modulo 2^64, since a call may be the last instruction of its function.
    /// None where the program counter is unknown.
    #[tactic(auto, unfolding(crate::specs::Frames::looked_up))]
    pub fn lookup(&self) -> Option<u64>
        ensures { result ≡ frame_lookup self.now }
    {
        let pc = self.pc()?;
        if self.exact {
            Some(pc)
        } else {
            Some(pc.wrapping_sub(1))
        }
    }
}
