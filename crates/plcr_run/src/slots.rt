//! The passes of a run, each in a slot of its own.
ghost use Rattle.std.specs.Prelude.{◌≡◌, ◌<◌, length};
ghost use Rattle.plcr_run.specs.declared.slots.Slot.TheVariants.{Out, In, Away};
ghost use Rattle.plcr_run.specs.inner.Slots.{slot_at, is_out_slot, IsOutAt, IsInAt, IsPut};

use plcr_imagelist::{Hold, KeptHold, Pass};
use std::mem;

/// Where a pass of a run is.
#[derive(Drop)]
pub enum Slot {
    /// It is out.
    Out(Pass),
    /// It is in.
    In(KeptHold),
    /// It is being used.
    Away,
}

/// Takes the pass of a slot, which is out.
pub(crate) fn take_pass(slots: &mut [Slot], at: usize) -> Pass
    requires place { at < length slots.old }
    requires out { IsOutAt slots.old at }
    ensures was { slot_at slots.old at ≡ Out result }
    ensures left { IsPut slots.old slots.new at Away }
{
    match mem::replace(&mut slots[at], Slot::Away) {
        Slot::Out(pass) => pass,
        Slot::In(_hold) => unreachable!(),
        Slot::Away => unreachable!(),
    }
}

/// Takes the hold of a slot, whose pass is in.
pub(crate) fn take_hold(slots: &mut [Slot], at: usize) -> Hold
    requires place { at < length slots.old }
    requires inside { IsInAt slots.old at }
    ensures was { slot_at slots.old at ≡ In result }
    ensures left { IsPut slots.old slots.new at Away }
{
    match mem::replace(&mut slots[at], Slot::Away) {
        Slot::In(hold) => hold.resume(),
        Slot::Out(_pass) => unreachable!(),
        Slot::Away => unreachable!(),
    }
}

/// Puts something into a slot.
pub(crate) fn put(slots: &mut [Slot], at: usize, slot: Slot)
    requires { at < length slots.old }
    ensures { IsPut slots.old slots.new at slot }
{
    slots[at] = slot;
}

/// Whether the pass of a slot is out.
pub(crate) fn is_out(slots: &[Slot], at: usize) -> bool
    requires { at < length slots.now }
    ensures { result ≡ is_out_slot (slot_at slots.now at) }
{
    match &slots[at] {
        Slot::Out(_pass) => true,
        Slot::In(_hold) => false,
        Slot::Away => false,
    }
}
