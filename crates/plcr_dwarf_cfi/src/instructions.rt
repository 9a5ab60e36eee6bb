//! Call frame instructions with their operands, by their names in the standard without DW_CFA_
//! (DWARF 4, section 6.4.2). A signed operand is in two's complement modulo 2^64.

/// The code of an expression: so many bytes at an address.
#[derive(Clone, Copy)]
pub struct Block {
    pub at: u64,
    pub size: u64,
}

/// Section 6.4.2.1: where the next row begins. An advance is by so many code alignment factors.
#[derive(Clone, Copy)]
pub enum RowCreation {
    SetLoc(u64),
    AdvanceLoc(u8),
    AdvanceLoc1(u8),
    AdvanceLoc2(u16),
    AdvanceLoc4(u32),
}

/// Section 6.4.2.2: how the canonical frame address is found. The offset of one with Sf is so many
/// data alignment factors.
#[derive(Clone, Copy)]
pub enum CfaDefinition {
    DefCfa(u64, u64),
    DefCfaSf(u64, u64),
    DefCfaRegister(u64),
    DefCfaOffset(u64),
    DefCfaOffsetSf(u64),
    DefCfaExpression(Block),
}

/// Section 6.4.2.3: how a register of the caller is found. An offset is so many data alignment
/// factors.
#[derive(Clone, Copy)]
pub enum RuleDefinition {
    Undefined(u64),
    SameValue(u64),
    Offset(u8, u64),
    OffsetExtended(u64, u64),
    OffsetExtendedSf(u64, u64),
    ValOffset(u64, u64),
    ValOffsetSf(u64, u64),
    Register(u64, u64),
    Expression(u64, Block),
    ValExpression(u64, Block),
    Restore(u8),
    RestoreExtended(u64),
}

/// Section 6.4.2.4: rows that are remembered and taken back.
#[derive(Clone, Copy)]
pub enum RowState {
    RememberState,
    RestoreState,
}

/// One instruction.
#[derive(Clone, Copy)]
pub enum Instruction {
    Creation(RowCreation),
    Cfa(CfaDefinition),
    Rule(RuleDefinition),
    State(RowState),
    /// Section 6.4.2.5: padding.
    Nop,
    /// The size of pushed arguments, which no row needs.
    GnuArgsSize(u64),
}
