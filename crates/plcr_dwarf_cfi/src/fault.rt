ghost use Rattle.std.specs.Prelude.{◌≡◌};

use plcr_dwarf_expr::ExprFault;

/// Why call frame information doesn't give the caller. Each comes where it is first met in reading.
#[derive(Clone, Copy, Debug, PartialEq, Eq)]
pub enum CallFrameFault {
    /// The image has no `__eh_frame`.
    NoSection,
    /// A read or the length of augmentation data passes the entry or the section, a byte isn't
    /// mapped, or a LEB128 number has more than ten bytes.
    Truncated,
    /// The entries end, and no frame description entry covers the address.
    NotCovered,
    /// The version of a common information entry is neither 1 nor 3.
    UnknownVersion,
    /// An augmentation text isn't empty and doesn't begin with z, or has another letter than R, P,
    /// L and S behind it.
    UnknownAugmentation,
    /// Pointers are encoded otherwise than the ways that are read.
    UnknownEncoding,
    /// There is no such instruction, or a register's rule is to be restored within the instructions
    /// of a common information entry.
    UnknownInstruction,
    /// A 17th row is to be remembered, or a row is to be taken back where none is remembered.
    RememberedRows,
    /// The register of the canonical frame address is none of the architecture's.
    CfaRegister,
    /// The canonical frame address has no rule, or an instruction changes the register or the
    /// offset of one that isn't a register and an offset.
    CfaRule,
    /// The word of a register's rule isn't mapped.
    Unmapped,
    /// A register that a rule takes isn't known, or the return address has no rule.
    UnknownRegister,
    /// An expression has no value.
    Expression(ExprFault),
}

impl CallFrameFault {
    ghost use Rattle.plcr_dwarf_cfi.specs.Faults.{fault_number};

    /// The number of the fault in `Step::Bad`: 1 to 10, 12 and 13 in the order of the variants, and
    /// from 21 on those of expressions.
    pub fn number(self) -> u8
        ensures { result ≡ fault_number self }
    {
        match self {
            CallFrameFault::NoSection => 1,
            CallFrameFault::Truncated => 2,
            CallFrameFault::NotCovered => 3,
            CallFrameFault::UnknownVersion => 4,
            CallFrameFault::UnknownAugmentation => 5,
            CallFrameFault::UnknownEncoding => 6,
            CallFrameFault::UnknownInstruction => 7,
            CallFrameFault::RememberedRows => 8,
            CallFrameFault::CfaRegister => 9,
            CallFrameFault::CfaRule => 10,
            CallFrameFault::Unmapped => 12,
            CallFrameFault::UnknownRegister => 13,
            CallFrameFault::Expression(fault) => EXPRESSION + fault.number(),
        }
    }
}

/// The fault numbers of expressions begin behind this one.
pub const EXPRESSION: u8 = 20;
