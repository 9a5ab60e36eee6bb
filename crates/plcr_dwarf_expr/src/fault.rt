ghost use Rattle.std.specs.Prelude.{◌≡◌};

/// Why an expression has no value. Within one operation `Budget` comes first, then the others in
/// this order.
#[derive(Clone, Copy, Debug, PartialEq, Eq)]
pub enum ExprFault {
    /// An operation or an operand passes the code or isn't mapped, or a LEB128 number has more than
    /// ten bytes.
    Truncated,
    /// No operation has this opcode, or DW_OP_deref_size has another size than 1, 2, 4 or 8 bytes.
    Unknown { op: u8 },
    /// The stack has too few values for the operation, or none at the end of the code.
    Underflow,
    /// The operation would give a 65th value.
    Overflow,
    /// Bytes at this address are to be read of which one isn't mapped.
    Unmapped { at: u64 },
    /// There is no register of this number, or it is unknown.
    NoRegister,
    /// A division by zero, or its rest.
    DivideByZero,
    /// A 1,001st operation.
    Budget,
    /// A jump to a place before the code or past its end.
    BadJump,
}

impl ExprFault {
    ghost use Rattle.plcr_dwarf_expr.specs.Faults.{fault_number};

    /// The number of the fault, from 1 to 9 in the order of the variants.
    pub fn number(self) -> u8
        ensures { result ≡ fault_number self }
    {
        match self {
            ExprFault::Truncated => 1,
            ExprFault::Unknown { .. } => 2,
            ExprFault::Underflow => 3,
            ExprFault::Overflow => 4,
            ExprFault::Unmapped { .. } => 5,
            ExprFault::NoRegister => 6,
            ExprFault::DivideByZero => 7,
            ExprFault::Budget => 8,
            ExprFault::BadJump => 9,
        }
    }
}
