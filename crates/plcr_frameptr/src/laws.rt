ghost use Rattle.std.specs.Prelude.{◌≡◌};
ghost use Rattle.plcr_memory.specs.Regions.{Contents};
ghost use Rattle.plcr_regs.specs.declared.frame.Frame.{Frame};
ghost use Rattle.plcr_regs.specs.declared.frame.Step.TheVariants as steps;
ghost use Rattle.plcr_frameptr.specs.Callers.{IsCaller};
ghost use Rattle.plcr_frameptr.specs.Saved.{saved_frame};

/// The caller by a saved frame is the one that the two words at the frame pointer tell, and it
/// rises.
pub fn callers_rise()
    // A caller that is answered is told so.
    ensures found { (memory : Contents) (frame caller : Frame) →
        saved_frame memory frame ≡ steps.Frame caller → IsCaller memory frame caller }

    // A caller that is told so is answered.
    ensures only { (memory : Contents) (frame caller : Frame) →
        IsCaller memory frame caller → saved_frame memory frame ≡ steps.Frame caller }
{}
