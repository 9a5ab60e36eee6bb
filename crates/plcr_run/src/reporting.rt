//! Reports of what a pass has met.
ghost use Rattle.std.specs.Prelude.{◌≡◌, ◌≢◌, ◌<◌, ℕ, List, length, IfOk, OnOk, OnErr};
ghost use Rattle.plcr_machine.specs.Events.{changes_in};
ghost use Rattle.plcr_macho.specs.Images.{Listed};
ghost use Rattle.plcr_imagelist.specs.Holds.{IsWalking};
ghost use Rattle.plcr_imagelist.specs.Walk.{images_of, IsSameWalk};
ghost use Rattle.plcr_imagelist.specs.Carrying.{OnlySees};
ghost use Rattle.plcr_script.specs.RunStates.{entered_if_out, walked, walk_to_end};
ghost use Rattle.plcr_command.specs.Saving.{IsSaved, IsUnsaved, TookNothing};
ghost use Rattle.plcr_run.specs.inner.Slots.{slot_at, IsInAt};
ghost use Rattle.plcr_run.specs.inner.Tokens.{AreTokens, Goes};
ghost use Rattle.plcr_run.specs.inner.Reports.{images_at};

use crate::passes::enter;
use crate::slots::{Slot, is_out, put, take_hold};
use crate::walking::walk_to_end;
use crate::writing::Writing;
use plcr_command::{Unsaved, save_report};
use plcr_encode::Context;
use plcr_imagelist::{Hold, ImageList};
use plcr_io::Desk;
use plcr_script::Process;

/// Makes a file, writes the report of the process with the images that the hold has met into it and
/// keeps it, and gives its length.
///
/// # Errors
///
/// `Unsaved` as of any report.
pub fn save_walk<P: Process, D: Desk>(
    hold: &mut Hold,
    list: &ImageList,
    name: &str,
    process: &P,
    context: &Context,
    desk: &mut D,
) -> Result<u64, Unsaved>
    requires list { hold.old.walker.table ≡ list.now }
    requires context { P.accepts process.now context.now }
    ensures length { IfOk result
        (λ n. n ≡ length (P.report process.now context.now (images_of hold.old))) }
    ensures saved { OnOk result
        (IsSaved name.now (P.report process.now context.now (images_of hold.old)) (D.told desk.old)
        (D.told desk.new)) }
    ensures unsaved { OnErr result
        (IsUnsaved name.now (P.report process.now context.now (images_of hold.old))
        (D.told desk.old) (D.told desk.new)) }
    ensures nothing { TookNothing (D.told desk.old) (D.told desk.new) }
    ensures same { IsSameWalk hold.old hold.new }
    ensures list { hold.new.walker.table ≡ list.now }
{
    let mut images = hold.images(list);
    save_report(name, process, context, &mut images, desk)
}

/// The pass goes in, if it is out.
pub(crate) fn enter_if_out(list: &ImageList, writing: &mut Writing, slots: &mut [Slot], pass: u32)
    requires tokens { AreTokens list.now writing.old slots.old }
    requires place { pass < length slots.old }
    ensures tokens { AreTokens list.now writing.new slots.new }
    ensures goes { Goes writing.old slots.old (entered_if_out pass) writing.new slots.new }
    ensures inside { IsInAt slots.new pass }
    ensures others { (k : ℕ) → k ≢ pass → slot_at slots.new k ≡ slot_at slots.old k }
    ensures count { length slots.new ≡ length slots.old }
{
    if is_out(slots, pass as usize) {
        enter(list, writing, slots, pass);
    }
}

/// The pass, which is in, walks to its end, and the report of what it has met is kept as a file.
/// Gives its length.
pub(crate) fn save<P: Process, D: Desk>(
    process: &P,
    context: &Context,
    list: &ImageList,
    writing: &mut Writing,
    slots: &mut [Slot],
    pass: u32,
    name: &str,
    desk: &mut D,
) -> Result<u64, Unsaved>
    requires tokens { AreTokens list.now writing.old slots.old }
    requires place { pass < length slots.old }
    requires inside { IsInAt slots.old pass }
    requires context { P.accepts process.now context.now }
    ensures tokens { AreTokens list.now writing.new slots.new }
    ensures goes { Goes writing.old slots.old
        (λ state. walked pass (walk_to_end (changes_in state.events) (state.places pass)) state)
        writing.new slots.new }
    ensures inside { IsInAt slots.new pass }
    ensures others { (k : ℕ) → k ≢ pass → slot_at slots.new k ≡ slot_at slots.old k }
    ensures count { length slots.new ≡ length slots.old }
    ensures length { IfOk result
        (λ n. n ≡ length (P.report process.now context.now (images_at slots.new pass))) }
    ensures saved { OnOk result
        (IsSaved name.now (P.report process.now context.now (images_at slots.new pass))
        (D.told desk.old) (D.told desk.new)) }
    ensures unsaved { OnErr result
        (IsUnsaved name.now (P.report process.now context.now (images_at slots.new pass))
        (D.told desk.old) (D.told desk.new)) }
    ensures nothing { TookNothing (D.told desk.old) (D.told desk.new) }
{
    let mut hold = take_hold(slots, pass as usize);
    hold.told(list, writing.note(list));
    walk_to_end(&mut hold, list);
    let saved = save_walk(&mut hold, list, name, process, context, desk);
    writing.told(list, hold.note(list));
    put(slots, pass as usize, Slot::In(hold.keep()));
    saved
}
