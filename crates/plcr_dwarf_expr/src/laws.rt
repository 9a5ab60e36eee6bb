ghost use Rattle.std.specs.Prelude.{◌≡◌, ℕ, Option, Ok, Err};
ghost use Rattle.plcr_memory.specs.Regions.{Contents};
ghost use Rattle.plcr_regs.specs.declared.registers.Registers.{Registers};
ghost use Rattle.plcr_dwarf_expr.specs.declared.fault.ExprFault.{ExprFault};
ghost use Rattle.plcr_dwarf_expr.specs.Runs.{HasFault, HasValue, setting_at, value_of};

/// What the value of an expression is (DWARF 4, section 2.5): a run is a list of places and stacks,
/// each of which follows from the one before it by the operation at its place. It has at most 1,000
/// operations.
pub fn runs_have_values()
    // The value is at the top where a run ends at the end of the code, and no other is.
    ensures value { (memory : Contents) (registers : Registers) (at size : ℕ) (start : Option ℕ)
        (value : ℕ) →
        value_of (setting_at memory registers at size) start ≡ Ok value →
        HasValue (setting_at memory registers at size) start value }
    ensures only_value { (memory : Contents) (registers : Registers) (at size : ℕ)
        (start : Option ℕ) (value : ℕ) →
        HasValue (setting_at memory registers at size) start value →
        value_of (setting_at memory registers at size) start ≡ Ok value }

    // The fault is that of the place where a run stops, and no other is.
    ensures fault { (memory : Contents) (registers : Registers) (at size : ℕ) (start : Option ℕ)
        (fault : ExprFault) →
        value_of (setting_at memory registers at size) start ≡ Err fault →
        HasFault (setting_at memory registers at size) start fault }
    ensures only_fault { (memory : Contents) (registers : Registers) (at size : ℕ)
        (start : Option ℕ) (fault : ExprFault) →
        HasFault (setting_at memory registers at size) start fault →
        value_of (setting_at memory registers at size) start ≡ Err fault }
{}
