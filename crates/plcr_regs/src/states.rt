ghost use Rattle.std.specs.Prelude.{◌≡◌, ◌*◌, ◌≤◌, ◌<◌, length, IfSome};
ghost use Rattle.plcr_regs.specs.Names.{register_count};
ghost use Rattle.plcr_regs.specs.States.{IsWhole, registers_in, state_in, value_in};

use crate::arch::Arch;
use crate::form::{HEADER, plain_form, wrapping_form};
use crate::limits::MOST_REGISTERS;
use crate::names::count;
use crate::registers::Registers;
use plcr_base::{read_u32, read_u64};

/// The place of cpsr, the one register of 4 bytes.
const CPSR: usize = 33;

/// The number of register `i`; None past the architecture's count.
fn value_at(arch: Arch, bytes: &[u8], i: usize) -> Option<u64>
    requires { 8 * register_count arch ≤ length bytes.now }
    ensures { result ≡ value_in arch bytes.now i }
{
    if i >= count(arch) {
        return None;
    }
    match arch {
        Arch::Arm64 if i == CPSR => Some(read_u32(bytes, 8 * i) as u64),
        _ => Some(read_u64(bytes, 8 * i)),
    }
}

fn registers(arch: Arch, bytes: &[u8]) -> Registers
    requires { 8 * register_count arch ≤ length bytes.now }
    ensures { result ≡ registers_in arch bytes.now }
{
    let mut value = [None; MOST_REGISTERS];
    for i in 0..value.len() {
        value[i] = value_at(arch, bytes, i);
    }
    Registers { arch, value }
}

/// The registers of a thread state as a core file holds it: `flavor` and the state's bytes. None
/// exactly where flavor and length are no accepted form: the flavor of the architecture's
/// registers, or the one that wraps it. Shapes: mach/i386/thread_status.h,
/// mach/arm/thread_status.h.
#[tactic(auto, unfolding(crate::specs::States::state_in), using(crate::proofs::WholeStates::whole_registers))]
pub fn read_state(arch: Arch, flavor: u32, bytes: &[u8]) -> Option<Registers>
    ensures state { result ≡ state_in arch flavor bytes.now }
    // In each state all registers of the architecture are known.
    ensures whole { IfSome result (IsWhole arch) }
{
    let plain = plain_form(arch);
    if plain.has(flavor, bytes) {
        return Some(registers(arch, bytes));
    }
    if wrapping_form(arch).has(flavor, bytes) && plain.begins(bytes) {
        let (_, state) = bytes.split_at(HEADER);
        return Some(registers(arch, state));
    }
    None
}
