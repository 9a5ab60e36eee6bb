//! Runs worked out by hand, as laws of the definitions.
ghost use Rattle.std.specs.Prelude.{ℕ, List};
ghost use Rattle.plcr_macho.specs.Images.{Listed};
ghost use Rattle.plcr_script.specs.Worked.{WorkedScripts, AreLengths, WorkedRuns};

/// Scripts come to the outcomes that were worked out by hand, where reports have so many bytes.
pub fn worked_runs()
    ensures scripts { WorkedScripts }
    ensures runs { (report : List Listed → List ℕ) → AreLengths report → WorkedRuns report }
{}
