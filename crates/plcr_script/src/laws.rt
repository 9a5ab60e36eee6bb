//! What the meaning of a script says of its lines as a whole.
ghost use Rattle.std.specs.Prelude.{◌≡◌, ℕ, List, Ok, Err};
ghost use Rattle.plcr_script.specs.declared.modes.Mode.{Mode};
ghost use Rattle.plcr_script.specs.Splits.{lines};
ghost use Rattle.plcr_script.specs.Refusals.{Refusal};
ghost use Rattle.plcr_script.specs.Scripts.{ScriptValue};
ghost use Rattle.plcr_script.specs.Reading.{passes_of, script_in};
ghost use Rattle.plcr_script.specs.Laws.{IsFirstRefused, IsSaidBy, sayings_from};

/// A law of the definitions, which needs no work: a script that is read is what its lines say,
/// each read by itself; a line that is refused is the first that is.
pub fn scripts_are_read_line_by_line()
    ensures said { (mode : Mode) (before : List ScriptValue) (bytes : List ℕ)
        (script : ScriptValue) → script_in mode before bytes ≡ Ok script →
        IsSaidBy before (sayings_from 1 (passes_of mode script.passes) (lines bytes)) script }
    ensures refused { (mode : Mode) (before : List ScriptValue) (bytes : List ℕ)
        (refusal : Refusal) → script_in mode before bytes ≡ Err refusal →
        IsFirstRefused mode before (lines bytes) refusal }
{}
