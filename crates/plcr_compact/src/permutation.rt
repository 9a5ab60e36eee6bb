//! The registers that a function without a frame saved.
ghost use Rattle.std.specs.Prelude.{◌≡◌, ◌≤◌, length, option_map, IfSome};
ghost use Rattle.plcr_compact.specs.Permutations.{all_registers, named, saved_registers};

use crate::encoding::{Permutation, SAVED_REGISTERS, SavedRegister};
use arrayvec::ArrayVec;

// The registers by their numbers from 1 on.
fn all_registers() -> ArrayVec<SavedRegister, SAVED_REGISTERS>
    ensures { result.items ≡ all_registers }
{
    ArrayVec::from([
        SavedRegister::Rbx,
        SavedRegister::R12,
        SavedRegister::R13,
        SavedRegister::R14,
        SavedRegister::R15,
        SavedRegister::Rbp,
    ])
}

// The registers that digits name, each the one at its place among those that aren't named yet.
#[tactic(auto, using(crate::proofs::Naming::named_start, crate::proofs::Naming::named_more, crate::proofs::Naming::named_past, crate::proofs::Naming::named_all))]
fn named(digits: &[u32]) -> Option<ArrayVec<SavedRegister, SAVED_REGISTERS>>
    requires { length digits.now ≤ 6 }
    ensures { option_map (λ registers. registers.items) result ≡ named all_registers digits.now }
{
    let mut left = all_registers();
    let mut found = ArrayVec::new();
    for digit in digits {
        let place = *digit as usize;
        if place >= left.len() {
            return None;
        }
        found.push(left.remove(place));
    }
    Some(found)
}

/// The registers of a permutation, in the order in which they stand on the stack from the lowest
/// address up. None where there is no such order.
#[tactic(auto, unfolding(crate::specs::Permutations::saved_registers))]
pub fn saved_registers(saved: Permutation) -> Option<ArrayVec<SavedRegister, SAVED_REGISTERS>>
    ensures { option_map (λ registers. registers.items) result ≡ saved_registers saved }
{
    let number = saved.number;
    match saved.count {
        0 => named(&[]),
        1 => named(&[number]),
        2 => named(&[number / 5, number % 5]),
        3 => named(&[number / 20, number % 20 / 4, number % 4]),
        4 => named(&[number / 60, number % 60 / 12, number % 12 / 3, number % 3]),
        5 => named(&[
            number / 120,
            number % 120 / 24,
            number % 24 / 6,
            number % 6 / 2,
            number % 2,
        ]),
        6 => named(&[
            number / 120,
            number % 120 / 24,
            number % 24 / 6,
            number % 6 / 2,
            number % 2,
            0,
        ]),
        _ => None,
    }
}
