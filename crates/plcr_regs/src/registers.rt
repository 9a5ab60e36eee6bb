ghost use Rattle.std.specs.Prelude.{◌≡◌, ◌<◌};
ghost use Rattle.plcr_regs.specs.Frames.{dwarf_register, is_kept, kept_of, kept_value};
ghost use Rattle.plcr_regs.specs.declared.limits.TheConstants.{MOST_REGISTERS};

use crate::arch::Arch;
use crate::limits::MOST_REGISTERS;
use crate::places::dwarf_place;

/// The registers of a thread in the order of its thread state. Places past the architecture's count
/// are None.
#[derive(Clone, Copy, Debug, PartialEq, Eq)]
pub struct Registers {
    pub arch: Arch,
    pub value: [Option<u64>; MOST_REGISTERS],
}

// Whether a function keeps the register at the place for its caller: rbx, rbp, r12 to r15; x19 to
// x28, fp.
#[tactic(auto, unfolding(crate::specs::Frames::is_kept))]
fn is_kept(arch: Arch, place: usize) -> bool
    ensures { result ≡ is_kept arch place }
{
    match arch {
        Arch::X86_64 => matches!(place, 1 | 6 | 12..=15),
        Arch::Arm64 => matches!(place, 19..=29),
    }
}

impl Registers {
    /// The register with a DWARF number; None where there is none or it is unknown.
    #[tactic(auto, unfolding(crate::specs::Frames::dwarf_register))]
    pub fn dwarf(&self, number: u64) -> Option<u64>
        ensures { result ≡ dwarf_register self.now number }
    {
        let place = dwarf_place(self.arch, number)?;
        self.value[place]
    }

    fn kept_at(&self, place: usize) -> Option<u64>
        requires { place < MOST_REGISTERS }
        ensures { result ≡ kept_value self.now place }
    {
        if is_kept(self.arch, place) {
            self.value[place]
        } else {
            None
        }
    }

    /// What `kept` says, where the registers are put into room.
    pub fn keep_into(&self, room: &mut Registers)
        ensures { room.new ≡ kept_of self.now }
    {
        room.arch = self.arch;
        for place in 0..MOST_REGISTERS {
            room.value[place] = self.kept_at(place);
        }
    }

    /// The registers that a function keeps for its caller, and the frame pointer; all others
    /// unknown.
    pub fn kept(&self) -> Registers
        ensures { result ≡ kept_of self.now }
    {
        let mut room = *self;
        self.keep_into(&mut room);
        room
    }
}
