//! Notes go between a writer, a change, a pass and a hold, and in the end the writer meets its
//! passes.
ghost use Rattle.std.specs.Prelude.{◌≡◌};
ghost use Rattle.plcr_machine.specs.Lists.{Grows};

use crate::tests::{A, B, count, load, walk};
use crate::{Change, Hold, ImageList, Pass, Progress, Window, Writer};
use std::process::Abort;
use std::test::Fail;

// The pass is told what the writer has seen.
fn tell_pass(list: &ImageList, writer: &mut Writer, pass: &mut Pass)
    requires writer { writer.old.table ≡ list.now }
    requires pass { pass.old.table ≡ list.now }
    ensures told { Grows writer.old.history pass.new.history }
    ensures same { writer.new ≡ writer.old }
    ensures list { pass.new.table ≡ list.now }
{
    let note = writer.note(list);
    pass.told(list, note);
}

// The writer is told what the hold has seen.
fn tell_writer(list: &ImageList, hold: &mut Hold, writer: &mut Writer)
    requires hold { hold.old.walker.table ≡ list.now }
    requires writer { writer.old.table ≡ list.now }
    ensures told { Grows hold.old.walker.history writer.new.history }
    ensures same { hold.new ≡ hold.old }
    ensures list { writer.new.table ≡ list.now }
{
    let note = hold.note(list);
    writer.told(list, note);
}

// The change is told what the pass has seen, and the hold what the change has.
fn tell_hold(list: &ImageList, pass: &mut Pass, change: &mut Change, hold: &mut Hold)
    requires pass { pass.old.table ≡ list.now }
    requires change { change.old.writer.table ≡ list.now }
    requires hold { hold.old.walker.table ≡ list.now }
    ensures same { pass.new ≡ pass.old }
    ensures change { change.new.writer.table ≡ list.now }
    ensures hold { hold.new.walker.table ≡ list.now }
{
    let seen = pass.note(list);
    change.told(list, seen);
    let made = change.note(list);
    hold.told(list, made);
}

// Makes the two steps of an unload.
fn finish(rt: &impl Abort, list: &ImageList, change: Change) -> Writer
    requires { change.writer.table ≡ list.now }
    ensures { result.table ≡ list.now }
{
    let Progress::More(change) = change.step(list) else {
        panic!(rt; "ended")
    };
    let Progress::Done(writer) = change.step(list) else {
        panic!(rt; "more")
    };
    writer
}

// A walk meets its image beside an unload that is told of, and with both passes met the node is
// taken again.
fn tells_and_meets(rt: &impl Abort, list: &ImageList, writer: Writer, first: Pass, second: Pass)
    requires writer { writer.table ≡ list.now }
    requires first { first.table ≡ list.now }
    requires second { second.table ≡ list.now }
{
    let mut first = first;
    let mut second = second;
    let mut writer = load(rt, list, writer, A, b"A", 1);
    tell_pass(list, &mut writer, &mut first);
    let mut hold = first.enter(list);
    tell_writer(list, &mut hold, &mut writer);
    assert_eq!(rt; walk(&mut hold, list, 9), (1, true));
    let Ok(mut change) = writer.begin_unload(list, A) else {
        panic!(rt; "refused")
    };
    tell_hold(list, &mut second, &mut change, &mut hold);
    let writer = finish(rt, list, change);
    assert_eq!(rt; count(&mut hold, list), 1);
    let (first, window) = hold.leave(list);
    assert_eq!(rt; window, Window { low: 1, high: 2 });
    let writer = writer.meet(list, first);
    let writer = writer.meet(list, second);
    load(rt, list, writer, B, b"B", 2);
}

#[test]
fn all_are_told_and_met(rt: HostRuntime) -> Result<(), Fail> {
    let Ok((list, writer, mut passes)) = ImageList::open(rt.alloc(), 1, 2) else {
        panic!(rt; "no memory")
    };
    let Some(second) = passes.pop() else {
        panic!(rt; "no pass")
    };
    let Some(first) = passes.pop() else {
        panic!(rt; "one pass")
    };
    tells_and_meets(&rt, &list, writer, first, second);
    Ok(())
}
