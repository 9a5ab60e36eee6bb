ghost use Rattle.std.specs.Prelude.{◌≡◌, ℕ, List};
ghost use Rattle.plcr_memory.specs.Regions.{Contents};
ghost use Rattle.plcr_macho.specs.Images.{Listed};
ghost use Rattle.plcr_regs.specs.declared.registers.Registers.{Registers};
ghost use Rattle.plcr_cursor.specs.declared.given.Given.{Given};
ghost use Rattle.plcr_cursor.specs.Chains.{AreFrames};
ghost use Rattle.plcr_cursor.specs.Frames.{frames_of};

/// The frames of a thread are the list in which each leads to the next, from where the thread was
/// stopped, and no other.
pub fn frames_lead()
    ensures lead { (memory : Contents) (images : List Listed) (state : Registers) (bits : ℕ) →
        AreFrames memory images state bits (frames_of memory images state bits) }
    ensures only { (memory : Contents) (images : List Listed) (state : Registers) (bits : ℕ)
        (frames : List Given) →
        AreFrames memory images state bits frames → frames ≡ frames_of memory images state bits }
{}
