//! How the tokens of a script end: passes that are in come out, an open change is made to its end,
//! and all passes meet the writer.
ghost use Rattle.std.specs.Prelude.{◌≡◌, ◌<◌, List, length};
ghost use Rattle.plcr_imagelist.specs.States.{IsAtRest};
ghost use Rattle.plcr_run.specs.declared.slots.Slot.{Slot};
ghost use Rattle.plcr_run.specs.inner.Tokens.{writer_of, AreTokens, Goes};
ghost use Rattle.plcr_run.specs.inner.Ending.{left_below, AreOut, finished_state, HasMet, EndsIn};

use crate::changing::finish;
use crate::passes::leave;
use crate::slots::{Slot, is_out};
use crate::writing::Writing;
use plcr_imagelist::{ImageList, Writer};

/// All passes that are in come out, in the order of their numbers.
fn leave_all(list: &ImageList, writing: &mut Writing, slots: &mut [Slot])
    requires tokens { AreTokens list.now writing.old slots.old }
    ensures tokens { AreTokens list.now writing.new slots.new }
    ensures goes { Goes writing.old slots.old (left_below (length slots.old)) writing.new
        slots.new }
    ensures out { AreOut (length slots.new) slots.new }
    ensures count { length slots.new ≡ length slots.old }
{
    for pass in 0..slots.len() {
        if !is_out(slots, pass) {
            let _ = leave(list, writing, slots, pass as u32);
        }
    }
}

/// The change that is open, if there is one, is made to its end.
fn finish_open(list: &ImageList, writing: Writing) -> Writer
    requires list { (writer_of writing).table ≡ list.now }
    ensures finished { (slots : List Slot) → AreTokens list.now writing slots →
        AreTokens list.now (Writing.Resting result) slots
        × Goes writing slots finished_state (Writing.Resting result) slots }
    ensures list { result.table ≡ list.now }
{
    match writing {
        Writing::Resting(writer) => writer,
        Writing::Changing(change) => finish(list, change),
    }
}

/// All passes, which are out, meet the writer.
fn meet_all(list: &ImageList, writer: Writer, slots: Vec<Slot>) -> Writer
    requires tokens { AreTokens list.now (Writing.Resting writer) slots.items }
    requires out { AreOut (length slots.items) slots.items }
    ensures met { HasMet writer slots.items (λ k. k < length slots.items) result }
    ensures list { result.table ≡ list.now }
    ensures rest { IsAtRest result }
{
    let mut writer = writer;
    let mut rest = slots;
    while let Some(slot) = rest.pop() {
        match slot {
            Slot::Out(pass) => writer = writer.meet(list, pass),
            Slot::In(_hold) => unreachable!(),
            Slot::Away => unreachable!(),
        }
    }
    writer
}

/// Ends a script. The writer has then met each pass of its list, and so seen all that it did.
pub(crate) fn end_script(list: &ImageList, writing: Writing, slots: Vec<Slot>) -> Writer
    requires tokens { AreTokens list.now writing slots.items }
    ensures ends { EndsIn writing slots.items result }
    ensures list { result.table ≡ list.now }
{
    let mut writing = writing;
    let mut slots = slots;
    leave_all(list, &mut writing, slots.as_mut_slice());
    let writer = finish_open(list, writing);
    meet_all(list, writer, slots)
}
