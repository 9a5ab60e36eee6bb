//! The caller by a row (DWARF 4, section 6.4.4).
ghost use Rattle.std.specs.Prelude.{◌≡◌, ◌≤◌, ◌<◌, Some, IfOk};
ghost use Rattle.plcr_base.specs.Chains.{result_map};
ghost use Rattle.plcr_regs.specs.declared.frame.Step.TheVariants as steps;
ghost use Rattle.plcr_regs.specs.Frames.{IfFrame, IsOfThread};
ghost use Rattle.plcr_regs.specs.Outcomes.{step_in};
ghost use Rattle.plcr_dwarf_cfi.specs.Caller.{at_call, by_column, called, caller_by, cfa_of, frame_at, is_link, is_undefined, known, present, register_numbers, replaced, replaced_by, value_by, value_in, word_at, word_by};
ghost use Rattle.plcr_dwarf_cfi.specs.declared.limits.TheConstants.{MOST_RULES};

use crate::entries::CommonInformation;
use crate::fault::CallFrameFault;
use crate::instructions::Block;
use crate::limits::{LINK_REGISTER, MOST_RULES};
use crate::row::{CfaRule, RegisterRule, Row};
use plcr_dwarf_expr::eval;
use plcr_memory::Memory;
use plcr_regs::{Arch, Frame, MOST_REGISTERS, Outcome, Registers, dwarf_place, pc_place, sp_place};

/// How many register numbers an architecture has.
#[tactic(auto, unfolding(crate::specs::Caller::register_numbers))]
pub fn register_numbers(arch: Arch) -> u64
    ensures count { result ≡ register_numbers arch }
    ensures within { result ≤ MOST_RULES }
{
    match arch {
        Arch::X86_64 => 17,
        Arch::Arm64 => 32,
    }
}

// The value of an expression over the present registers.
fn value_in(
    memory: &Memory,
    state: &Registers,
    block: Block,
    start: Option<u64>,
) -> Result<u64, CallFrameFault>
    ensures { result ≡ value_in memory.now state.now block start }
{
    match eval(memory, state, block.at, block.size, start) {
        Ok(value) => Ok(value),
        Err(fault) => Err(CallFrameFault::Expression(fault)),
    }
}

fn word_at(memory: &Memory, at: u64) -> Result<u64, CallFrameFault>
    ensures { result ≡ word_at memory.now at }
{
    memory.read_u64(at).ok_or(CallFrameFault::Unmapped)
}

// The present value of a register.
fn present(state: &Registers, number: u64) -> Result<u64, CallFrameFault>
    ensures { result ≡ present state.now number }
{
    state.dwarf(number).ok_or(CallFrameFault::UnknownRegister)
}

// The canonical frame address.
fn cfa_of(memory: &Memory, state: &Registers, cfa: Option<CfaRule>) -> Result<u64, CallFrameFault>
    ensures { result ≡ cfa_of memory.now state.now cfa }
{
    match cfa {
        None => Err(CallFrameFault::CfaRule),
        Some(CfaRule::RegisterOffset(register, offset)) => {
            if register >= register_numbers(state.arch) {
                return Err(CallFrameFault::CfaRegister);
            }
            let value = present(state, register)?;
            Ok(value.wrapping_add(offset))
        }
        Some(CfaRule::Expression(block)) => value_in(memory, state, block, None),
    }
}

// The word at an expression's value.
fn word_by(
    memory: &Memory,
    state: &Registers,
    cfa: u64,
    block: Block,
) -> Result<u64, CallFrameFault>
    ensures { result ≡ word_by memory.now state.now cfa block }
{
    let at = value_in(memory, state, block, Some(cfa))?;
    word_at(memory, at)
}

// The caller's value of a register by its rule.
fn value_by(
    memory: &Memory,
    state: &Registers,
    cfa: u64,
    number: u64,
    rule: RegisterRule,
) -> Result<Option<u64>, CallFrameFault>
    ensures { result ≡ value_by memory.now state.now cfa number rule }
{
    let value = match rule {
        RegisterRule::Undefined => return Ok(None),
        RegisterRule::SameValue => return Ok(state.dwarf(number)),
        RegisterRule::Offset(offset) => word_at(memory, cfa.wrapping_add(offset))?,
        RegisterRule::ValOffset(offset) => cfa.wrapping_add(offset),
        RegisterRule::Register(other) => present(state, other)?,
        RegisterRule::Expression(block) => word_by(memory, state, cfa, block)?,
        RegisterRule::ValExpression(block) => value_in(memory, state, block, Some(cfa))?,
    };
    Ok(Some(value))
}

// Replaces the value of a register where it has a rule.
fn replace(
    memory: &Memory,
    state: &Registers,
    cfa: u64,
    number: u64,
    rule: &Option<RegisterRule>,
    values: &mut [Option<u64>; MOST_REGISTERS],
) -> Result<(), CallFrameFault>
    ensures { result_map (λ _. values.new) result ≡ replaced_by memory.now state.now cfa number
        rule.now values.old }
{
    let Some(rule) = rule else {
        return Ok(());
    };
    let value = value_by(memory, state, cfa, number, *rule)?;
    if let Some(place) = dwarf_place(state.arch, number) {
        values[place] = value;
    }
    Ok(())
}

// Replaces the values of all registers that have rules.
#[tactic(auto, using(crate::proofs::Callers::replaced_start, crate::proofs::Callers::replaced_goes, crate::proofs::Callers::replaced_fails, crate::proofs::Callers::replaced_all))]
fn replace_all(
    memory: &Memory,
    state: &Registers,
    cfa: u64,
    row: &Row,
    values: &mut [Option<u64>; MOST_REGISTERS],
) -> Result<(), CallFrameFault>
    ensures { result_map (λ _. values.new) result ≡ replaced memory.now state.now cfa 0
        row.now.rules values.old }
{
    for number in 0..MOST_RULES {
        match replace(
            memory,
            state,
            cfa,
            number as u64,
            &row.rules[number],
            values,
        ) {
            Ok(()) => {}
            Err(fault) => return Err(fault),
        }
    }
    Ok(())
}

// Puts the registers where no rule says otherwise into room.
#[tactic(auto, unfolding(plcr_regs::specs::Frames::kept_of))]
fn at_call(state: &Registers, cfa: u64, room: &mut Registers)
    ensures value { room.new.value ≡ at_call state.now cfa }
    ensures arch { room.new.arch ≡ state.now.arch }
{
    state.keep_into(room);
    room.value[sp_place(state.arch)] = Some(cfa);
}

fn is_link(arch: Arch, column: u64) -> bool
    ensures { result ≡ is_link arch column }
{
    match arch {
        Arch::X86_64 => false,
        Arch::Arm64 => column == LINK_REGISTER,
    }
}

// The return address.
fn by_column(
    state: &Registers,
    caller: &Registers,
    column: u64,
    rule: Option<RegisterRule>,
) -> Result<u64, CallFrameFault>
    requires { caller.now.arch ≡ state.now.arch }
    ensures { result ≡ by_column state.now caller.now.value column rule }
{
    if rule.is_some() {
        return present(caller, column);
    }
    if is_link(state.arch, column) {
        present(state, column)
    } else {
        Err(CallFrameFault::UnknownRegister)
    }
}

fn is_undefined(rule: Option<RegisterRule>) -> bool
    ensures { result ≡ is_undefined rule }
{
    matches!(rule, Some(RegisterRule::Undefined))
}

// Makes the room that has the caller's registers the frame of the caller.
fn finish(frame: &Frame, exact: bool, back: u64, room: &mut Frame)
    requires { room.old.registers.arch ≡ frame.now.registers.arch }
    ensures frame { room.new ≡ frame_at frame.now exact room.old.registers.value back }
    ensures thread { IsOfThread frame.now room.new }
{
    let pc = pc_place(frame.registers.arch);
    room.registers.value[pc] = Some(frame.cut(back));
    room.exact = exact;
    room.bits = frame.bits;
}

fn called(
    memory: &Memory,
    frame: &Frame,
    common: &CommonInformation,
    row: &Row,
    room: &mut Frame,
) -> Result<(), CallFrameFault>
    ensures frame { result_map (λ _. steps.Frame room.new) result
        ≡ called memory.now frame.now common.now row.now }
    ensures thread { IfOk result (λ _. IsOfThread frame.now room.new) }
{
    let state = &frame.registers;
    let cfa = cfa_of(memory, state, row.cfa)?;
    at_call(state, cfa, &mut room.registers);
    replace_all(memory, state, cfa, row, &mut room.registers.value)?;
    let column = common.return_address_register;
    let back = by_column(state, &room.registers, column, row.rule(column))?;
    finish(frame, common.signal_frame, back, room);
    Ok(())
}

/// Puts the caller of a frame by a row into room. End where its return address is undefined.
#[tactic(auto, unfolding(crate::specs::Caller::caller_by))]
pub fn caller_by(
    memory: &Memory,
    frame: &Frame,
    common: &CommonInformation,
    row: &Row,
    room: &mut Frame,
) -> Result<Outcome, CallFrameFault>
    ensures caller { result_map (λ outcome. step_in outcome room.new) result
        ≡ caller_by memory.now frame.now common.now row.now }
    ensures thread { IfOk result (λ outcome.
        IfFrame (step_in outcome room.new) (IsOfThread frame.now)) }
{
    if is_undefined(row.rule(common.return_address_register)) {
        return Ok(Outcome::End);
    }
    called(memory, frame, common, row, room)?;
    Ok(Outcome::Caller)
}
