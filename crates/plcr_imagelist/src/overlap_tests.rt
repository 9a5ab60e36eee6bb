//! Passes that overlap, by direct calls: which of them holds a removed node back, and until when.
ghost use Rattle.std.specs.Prelude.{◌≡◌, true, false};
ghost use Rattle.plcr_machine.specs.Passes.{is_announced, is_inside};

use crate::tests::{A, B, C, load, refuse, unload};
use crate::{Hold, ImageList, LoadRefused, Pass, Window, Writer};
use plcr_nodes::NodePass;
use std::process::Abort;
use std::test::Fail;

// The second pass went in after the unload was counted, so once the first is out the node is free.
fn lets_go_past_a_later_pass(
    rt: &impl Abort,
    list: &ImageList,
    writer: Writer,
    first: Pass,
    second: Pass,
)
    requires writer { writer.table ≡ list.now }
    requires passes { (first.table ≡ list.now) × (second.table ≡ list.now) }
{
    let writer = load(rt, list, writer, A, b"A", 1);
    let early = first.enter(list);
    let writer = unload(rt, list, writer, A, 1);
    let late = second.enter(list);
    let (_, window) = early.leave(list);
    assert_eq!(rt; window, Window { low: 1, high: 2 });
    let writer = load(rt, list, writer, B, b"B", 2);
    load(rt, list, writer, C, b"C", 3);
    let (_, window) = late.leave(list);
    assert_eq!(rt; window, Window { low: 2, high: 4 });
}

#[test]
fn a_later_pass_holds_nothing_back(rt: HostRuntime) -> Result<(), Fail> {
    let Ok((list, writer, mut passes)) = ImageList::open(rt.alloc(), 2, 2) else {
        panic!(rt; "no memory")
    };
    let Some(second) = passes.pop() else {
        panic!(rt; "no pass")
    };
    let Some(first) = passes.pop() else {
        panic!(rt; "no pass")
    };
    lets_go_past_a_later_pass(&rt, &list, writer, first, second);
    Ok(())
}

// A pass that never comes out holds back what is unloaded after it went in.
fn never_leaves(rt: &impl Abort, list: &ImageList, writer: Writer, pass: Pass)
    requires writer { writer.table ≡ list.now }
    requires pass { pass.table ≡ list.now }
{
    let writer = load(rt, list, writer, A, b"A", 1);
    let hold = pass.enter(list);
    let writer = unload(rt, list, writer, A, 1);
    let writer = load(rt, list, writer, B, b"B", 2);
    let full = LoadRefused::Full {
        live: 1,
        held: 1,
        seen: 12884901889,
    };
    let writer = refuse(rt, list, writer, C, b"C", full);
    let writer = unload(rt, list, writer, B, 2);
    let full = LoadRefused::Full {
        live: 0,
        held: 2,
        seen: 17179869185,
    };
    refuse(rt, list, writer, C, b"C", full);
    let (_, window) = hold.leave(list);
    assert_eq!(rt; window, Window { low: 1, high: 4 });
}

#[test]
fn a_pass_that_stays_holds_all_back(rt: HostRuntime) -> Result<(), Fail> {
    let Ok((list, writer, mut passes)) = ImageList::open(rt.alloc(), 2, 1) else {
        panic!(rt; "no memory")
    };
    let Some(pass) = passes.pop() else {
        panic!(rt; "no pass")
    };
    never_leaves(&rt, &list, writer, pass);
    Ok(())
}

// One turn of two passes: the one that is out goes in before the other comes out. Between them an
// image is loaded and unloaded.
fn take_turns(
    rt: &impl Abort,
    list: &ImageList,
    writer: Writer,
    inside: Hold,
    outside: Pass,
    number: u32,
) -> (Writer, Hold, Pass)
    requires writer { writer.table ≡ list.now }
    requires passes { (inside.walker.table ≡ list.now) × (outside.table ≡ list.now) }
    ensures writer { result.0.table ≡ list.now }
    ensures passes { (result.1.walker.table ≡ list.now) × (result.2.table ≡ list.now) }
{
    let writer = load(rt, list, writer, A, b"A", number);
    let next = outside.enter(list);
    let (out, _) = inside.leave(list);
    let writer = unload(rt, list, writer, A, number);
    (writer, next, out)
}

// So one of them is always in, through 10,000 changes.
fn overlap(rt: &impl Abort, list: &ImageList, writer: Writer, first: Pass, second: Pass)
    requires writer { writer.table ≡ list.now }
    requires passes { (first.table ≡ list.now) × (second.table ≡ list.now) }
{
    let mut writer = writer;
    let mut inside = first.enter(list);
    let mut outside = second;
    for turn in 0..5000 {
        let (changed, next, out) = take_turns(rt, list, writer, inside, outside, turn + 1);
        writer = changed;
        inside = next;
        outside = out;
    }
    let (_, window) = inside.leave(list);
    assert_eq!(rt; window.high, 10000);
}

#[test]
fn passes_that_overlap_refuse_no_load(rt: HostRuntime) -> Result<(), Fail> {
    let Ok((list, writer, mut passes)) = ImageList::open(rt.alloc(), 4, 2) else {
        panic!(rt; "no memory")
    };
    let Some(second) = passes.pop() else {
        panic!(rt; "no pass")
    };
    let Some(first) = passes.pop() else {
        panic!(rt; "no pass")
    };
    overlap(&rt, &list, writer, first, second);
    Ok(())
}

// Announces a pass with no count seen, as if it had looked at the gate before all changes.
#[tactic(auto, using(crate::proofs::Passing::may_enter))]
fn announce_late(list: &ImageList, pass: Pass) -> NodePass
    requires { pass.table ≡ list.now }
    ensures table { result.table ≡ list.now }
    ensures announced { is_announced result.number result.history ≡ true }
    ensures out { is_inside result.number result.history ≡ false }
{
    let Pass {
        mut pass,
        met: _,
        spots: _,
    } = pass;
    pass.announce(&list.nodes, 0);
    pass
}

// Each pass is found out once, in different runs of looks, and announced before the unload in the
// other: so the node is free, though no run finds both out.
fn free_by_two_runs(rt: &impl Abort, list: &ImageList, writer: Writer, first: Pass, second: Pass)
    requires writer { writer.table ≡ list.now }
    requires passes { (first.table ≡ list.now) × (second.table ≡ list.now) }
{
    let writer = load(rt, list, writer, A, b"A", 1);
    let writer = unload(rt, list, writer, A, 1);
    let mut second = announce_late(list, second);
    let full = LoadRefused::Full {
        live: 0,
        held: 1,
        seen: 8589934593,
    };
    let writer = refuse(rt, list, writer, B, b"B", full);
    let _ = announce_late(list, first);
    second.retire(&list.nodes);
    load(rt, list, writer, B, b"B", 2);
}

#[test]
fn a_node_is_free_by_two_runs_of_looks(rt: HostRuntime) -> Result<(), Fail> {
    let Ok((list, writer, mut passes)) = ImageList::open(rt.alloc(), 1, 2) else {
        panic!(rt; "no memory")
    };
    let Some(second) = passes.pop() else {
        panic!(rt; "no pass")
    };
    let Some(first) = passes.pop() else {
        panic!(rt; "no pass")
    };
    free_by_two_runs(&rt, &list, writer, first, second);
    Ok(())
}
