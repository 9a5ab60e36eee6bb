ghost use Rattle.std.specs.Prelude.{◌≡◌, ◌≤◌, ◌⊎◌, ℕ, Option, Ok, Err};
ghost use Rattle.plcr_memory.specs.Regions.{Contents};
ghost use Rattle.plcr_dwarf_cfi.specs.declared.entries.CommonInformation.{CommonInformation};
ghost use Rattle.plcr_dwarf_cfi.specs.declared.entries.Encoding.{Encoding};
ghost use Rattle.plcr_dwarf_cfi.specs.declared.entries.Entry.{Entry};
ghost use Rattle.plcr_dwarf_cfi.specs.declared.entries.Extent.{Extent};
ghost use Rattle.plcr_dwarf_cfi.specs.declared.entries.FrameDescription.{FrameDescription};
ghost use Rattle.plcr_dwarf_cfi.specs.declared.fault.CallFrameFault.{CallFrameFault};
ghost use Rattle.plcr_dwarf_cfi.specs.declared.instructions.Instruction.{Instruction};
ghost use Rattle.plcr_dwarf_cfi.specs.Covering.{IsFirstOver, IsNowhere};
ghost use Rattle.plcr_dwarf_cfi.specs.Entries.{found_in};
ghost use Rattle.plcr_dwarf_cfi.specs.Instructions.{instructions_in};
ghost use Rattle.plcr_dwarf_cfi.specs.Lists.{Listed, run_until};
ghost use Rattle.plcr_dwarf_cfi.specs.Rows.{Table, applied, is_past};
ghost use Rattle.plcr_dwarf_cfi.specs.Runs.{FailsAt, RunsUntil, RunsWhole, StopsBehind};
ghost use Rattle.plcr_dwarf_cfi.specs.Sections.{section_at, within};
ghost use Rattle.plcr_dwarf_cfi.specs.Spelling.{Spells};

/// The frame description entry that is found for an address is the first in the list that covers
/// it.
pub fn the_first_is_found()
    // What is found stands in the list, and none before it covers the address; and no other is
    // found.
    ensures found { (a : ℕ) (list : Listed Entry) (d : FrameDescription) → found_in a list ≡ Ok d →
        IsFirstOver a list d }
    ensures only { (a : ℕ) (list : Listed Entry) (d : FrameDescription) → IsFirstOver a list d →
        found_in a list ≡ Ok d }

    // A fault comes where none covers it.
    ensures fault { (a : ℕ) (list : Listed Entry) (fault : CallFrameFault) →
        found_in a list ≡ Err fault → IsNowhere a list fault }
    ensures only_fault { (a : ℕ) (list : Listed Entry) (fault : CallFrameFault) →
        IsNowhere a list fault → found_in a list ≡ Err fault }
{}

/// What a list of instructions makes of a table is what all of them make of it, or those up to the
/// first that sets the location above the address (DWARF 4, section 6.4.3).
pub fn rows_end_at_locations()
    ensures found { (c : CommonInformation) (count : ℕ) (address : Option ℕ)
        (list : Listed Instruction) (t last : Table) →
        run_until (applied c count) (is_past address) list t ≡ Ok last →
        RunsWhole c count address list t last ⊎ RunsUntil c count address list t last }
    ensures whole { (c : CommonInformation) (count : ℕ) (address : Option ℕ)
        (list : Listed Instruction) (t last : Table) →
        RunsWhole c count address list t last → run_until (applied c count) (is_past address) list t
        ≡ Ok last }
    ensures until { (c : CommonInformation) (count : ℕ) (address : Option ℕ)
        (list : Listed Instruction) (t last : Table) →
        RunsUntil c count address list t last → run_until (applied c count) (is_past address) list t
        ≡ Ok last }

    // The fault is that of the first instruction that can't be carried out, or where the list
    // stops.
    ensures fault { (c : CommonInformation) (count : ℕ) (address : Option ℕ)
        (list : Listed Instruction) (t : Table) (fault : CallFrameFault) →
        run_until (applied c count) (is_past address) list t ≡ Err fault →
        StopsBehind c count address list t fault ⊎ FailsAt c count address list t fault }
    ensures stops { (c : CommonInformation) (count : ℕ) (address : Option ℕ)
        (list : Listed Instruction) (t : Table) (fault : CallFrameFault) →
        StopsBehind c count address list t fault →
        run_until (applied c count) (is_past address) list t ≡ Err fault }
    ensures fails { (c : CommonInformation) (count : ℕ) (address : Option ℕ)
        (list : Listed Instruction) (t : Table) (fault : CallFrameFault) →
        FailsAt c count address list t fault → run_until (applied c count) (is_past address) list t
        ≡ Err fault }
{}

/// The instructions of an entry are those that its bytes spell, each at its place: one begins where
/// the one before it ends, up to the entry's end or a fault (DWARF 4, section 6.4.2). An entry's
/// instructions begin behind its length.
pub fn instructions_are_spelled()
    ensures spelled { (memory : Contents) (at size : ℕ) (encoding : Encoding) (e : Extent) →
        1 ≤ e.start → e.start ≤ size →
        Spells (within (section_at memory at size) e) encoding e
        (instructions_in (within (section_at memory at size) e) encoding e) }
    ensures only { (memory : Contents) (at size : ℕ) (encoding : Encoding) (e : Extent)
        (list : Listed Instruction) → 1 ≤ e.start → e.start ≤ size →
        Spells (within (section_at memory at size) e) encoding e list →
        instructions_in (within (section_at memory at size) e) encoding e ≡ list }
{}
