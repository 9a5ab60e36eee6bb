//! The statements of a pass, each between two tellings: first the pass is told what the writer has
//! seen, and in the end the writer what the pass has seen.
ghost use Rattle.std.specs.Prelude.{◌≡◌, ◌≢◌, ◌<◌, ℕ, length};
ghost use Rattle.plcr_script.specs.RunStates.{entered, left};
ghost use Rattle.plcr_script.specs.RunTurns.{walk_turn};
ghost use Rattle.plcr_run.specs.inner.Slots.{slot_at, IsOutAt, IsInAt};
ghost use Rattle.plcr_run.specs.inner.Tokens.{AreTokens, Goes, Turns, LeavesWith};

use crate::slots::{Slot, put, take_hold, take_pass};
use crate::walking::walk;
use crate::writing::Writing;
use plcr_imagelist::{ImageList, Window};
use plcr_script::Outcome;

/// The pass goes in.
pub(crate) fn enter(list: &ImageList, writing: &mut Writing, slots: &mut [Slot], pass: u32)
    requires tokens { AreTokens list.now writing.old slots.old }
    requires place { pass < length slots.old }
    requires out { IsOutAt slots.old pass }
    ensures tokens { AreTokens list.now writing.new slots.new }
    ensures goes { Goes writing.old slots.old (entered pass) writing.new slots.new }
    ensures inside { IsInAt slots.new pass }
    ensures others { (k : ℕ) → k ≢ pass → slot_at slots.new k ≡ slot_at slots.old k }
    ensures count { length slots.new ≡ length slots.old }
{
    let mut outside = take_pass(slots, pass as usize);
    outside.told(list, writing.note(list));
    let mut hold = outside.enter(list);
    writing.told(list, hold.note(list));
    put(slots, pass as usize, Slot::In(hold.keep()));
}

/// At most so many images more of its walk.
pub(crate) fn walk_on(
    list: &ImageList,
    writing: &mut Writing,
    slots: &mut [Slot],
    pass: u32,
    most: u32,
) -> Outcome<'static>
    requires tokens { AreTokens list.now writing.old slots.old }
    requires place { pass < length slots.old }
    requires inside { IsInAt slots.old pass }
    ensures tokens { AreTokens list.now writing.new slots.new }
    ensures turns { Turns writing.old slots.old (walk_turn pass most) writing.new slots.new result }
    ensures inside { IsInAt slots.new pass }
    ensures others { (k : ℕ) → k ≢ pass → slot_at slots.new k ≡ slot_at slots.old k }
    ensures count { length slots.new ≡ length slots.old }
{
    let mut hold = take_hold(slots, pass as usize);
    hold.told(list, writing.note(list));
    walk(&mut hold, list, most);
    writing.told(list, hold.note(list));
    let met = hold.met();
    let ended = hold.has_ended();
    put(slots, pass as usize, Slot::In(hold.keep()));
    Outcome::Walked { pass, met, ended }
}

/// The pass comes out, and gives how many images its walk has met and the window of its hold.
pub(crate) fn leave(
    list: &ImageList,
    writing: &mut Writing,
    slots: &mut [Slot],
    pass: u32,
) -> (u32, Window)
    requires tokens { AreTokens list.now writing.old slots.old }
    requires place { pass < length slots.old }
    requires inside { IsInAt slots.old pass }
    ensures tokens { AreTokens list.now writing.new slots.new }
    ensures goes { Goes writing.old slots.old (left pass) writing.new slots.new }
    ensures told { LeavesWith writing.old slots.old pass writing.new slots.new result.0 result.1.low
        result.1.high }
    ensures outside { IsOutAt slots.new pass }
    ensures others { (k : ℕ) → k ≢ pass → slot_at slots.new k ≡ slot_at slots.old k }
    ensures count { length slots.new ≡ length slots.old }
{
    let mut hold = take_hold(slots, pass as usize);
    hold.told(list, writing.note(list));
    let met = hold.met();
    let (mut outside, window) = hold.leave(list);
    writing.told(list, outside.note(list));
    put(slots, pass as usize, Slot::Out(outside));
    (met, window)
}
