//! Operations with their operands, by their names in the standard without DW_OP_ (DWARF 4, sections
//! 2.5.1,
//! 2.6.1.1.2 and 7.7.1).

/// A constant to be pushed: a literal encoding.
#[derive(Clone, Copy)]
pub enum Constant {
    Addr(u64),
    Const1u(u8),
    Const1s(i8),
    Const2u(u16),
    Const2s(i16),
    Const4u(u32),
    Const4s(i32),
    Const8u(u64),
    Const8s(i64),
    /// An unsigned LEB128 number, modulo 2^64.
    Constu(u64),
    /// A signed LEB128 number, in two's complement modulo 2^64.
    Consts(u64),
    /// DW_OP_lit0 to DW_OP_lit31: the number 0 to 31.
    Lit(u8),
}

/// The value of a register by its DWARF number (section 2.6.1.1.2), or the sum of it and an offset
/// in two's complement modulo 2^64 (section 2.5.1.2).
#[derive(Clone, Copy)]
pub enum RegisterValue {
    Reg(u8),
    Breg(u8, u64),
    Regx(u64),
    Bregx(u64, u64),
}

/// Values that are copied, dropped or moved on the stack.
#[derive(Clone, Copy)]
pub enum StackOperation {
    Dup,
    Drop,
    Over,
    Pick(u8),
    Swap,
    Rot,
}

/// How many bytes are read at an address.
#[derive(Clone, Copy)]
pub enum Width {
    One,
    Two,
    Four,
    Eight,
}

/// The number at an address.
#[derive(Clone, Copy)]
pub enum Dereference {
    Deref,
    DerefSize(Width),
}

/// Arithmetic on the top of the stack.
#[derive(Clone, Copy)]
pub enum UnaryOperation {
    Abs,
    Neg,
    Not,
    PlusUconst(u64),
}

/// Arithmetic and comparisons of the two values at the top of the stack, of which the second is the
/// left one.
#[derive(Clone, Copy)]
pub enum BinaryOperation {
    And,
    Div,
    Minus,
    Mod,
    Mul,
    Or,
    Plus,
    Shl,
    Shr,
    Shra,
    Xor,
    Eq,
    Ge,
    Gt,
    Le,
    Lt,
    Ne,
}

/// Where the next operation stands.
#[derive(Clone, Copy)]
pub enum ControlFlow {
    Bra(i16),
    Skip(i16),
    Nop,
}

/// One operation.
#[derive(Clone, Copy)]
pub enum Operation {
    Literal(Constant),
    Register(RegisterValue),
    Stack(StackOperation),
    Memory(Dereference),
    Unary(UnaryOperation),
    Binary(BinaryOperation),
    Control(ControlFlow),
}

/// An operation of some code, and the place behind its operands.
#[derive(Clone, Copy)]
pub struct Decoded {
    pub operation: Operation,
    pub next: u64,
}
