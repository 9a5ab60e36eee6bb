//! Tokens tell each other what they have seen: a pass inside keeps what it was given, and the owner
//! knows what a joined pass did.
ghost use Rattle.std.specs.Prelude.{◌≡◌, ◌<◌, ◌≤◌, []};
ghost use Rattle.std.specs.Thread.{IsSync};
ghost use Rattle.plcr_nodes.specs.inner.Seats.{IsFresh};

use crate::tests::{come_out, go_in, look_at, put_first, put_three};
use crate::{NodeNote, NodePass, Nodes, Owner};
use std::test::Fail;
use std::thread;
use std::thread::Threads;

// Goes in and comes out, and notes what was seen.
fn visit(mut pass: NodePass, nodes: &Nodes) -> (NodePass, NodeNote)
    requires fresh { IsFresh nodes.now pass }
    ensures fresh { IsFresh nodes.now result.0 }
    ensures note { result.1.table ≡ nodes.now }
    ensures number { result.0.number ≡ pass.number }
{
    go_in(&mut pass, nodes);
    come_out(&mut pass, nodes);
    let note = pass.note(nodes);
    (pass, note)
}

// Puts three images into the empty list, and notes that.
fn put_and_note(mut owner: Owner, nodes: &Nodes) -> (Owner, NodeNote)
    requires table { owner.table ≡ nodes.now }
    requires new { (3 ≤ owner.nodes) × (owner.history ≡ []) }
    ensures tables { (result.0.table ≡ nodes.now) × (result.1.table ≡ nodes.now) }
    ensures passes { result.0.passes ≡ owner.passes }
{
    put_three(&mut owner, nodes);
    let note = owner.note(nodes);
    (owner, note)
}

// Joins a pass, and looks at its stamp: it has none from then on, whatever other threads do.
fn join_and_look(owner: &mut Owner, nodes: &Nodes, pass: NodePass, number: u32) -> u64
    requires owner { owner.old.table ≡ nodes.now }
    requires pass { IsFresh nodes.now pass × (pass.number ≡ number) × (number < owner.old.passes) }
    ensures none { result ≡ 0 }
{
    owner.join(nodes, pass);
    owner.look(nodes, number)
}

// Each of the two is told what the other has seen. The pass is announced no more than it was.
fn tell_both(
    nodes: &Nodes,
    owner: &mut Owner,
    of_owner: NodeNote,
    pass: &mut NodePass,
    of_pass: NodeNote,
)
    requires owner { (owner.old.table ≡ nodes.now) × (of_owner.table ≡ nodes.now) }
    requires pass { IsFresh nodes.now pass.old × (of_pass.table ≡ nodes.now) }
    ensures owner { (owner.new.table ≡ nodes.now) × (owner.new.passes ≡ owner.old.passes) }
    ensures pass { IsFresh nodes.now pass.new }
{
    owner.told(nodes, of_pass);
    pass.told(nodes, of_owner);
}

// The owner links while a pass visits, each in a thread of its own, and then each tells the other.
fn tell_each_other<R: Threads + Sync>(
    rt: &R,
    nodes: &Nodes,
    owner: Owner,
    pass: NodePass,
) -> (Owner, NodePass)
    requires owner { (owner.table ≡ nodes.now) × (3 ≤ owner.nodes) × (owner.history ≡ [])
        × (0 < owner.passes) }
    requires pass { IsFresh nodes.now pass }
    ensures owner { (result.0.table ≡ nodes.now) × (0 < result.0.passes) }
    ensures pass { IsFresh nodes.now result.1 }
{
    let ((mut owner, of_owner), (mut pass, of_pass)) = thread::join(
        rt,
        move || -> (Owner, NodeNote)
            requires { (owner.table ≡ nodes.now) × (3 ≤ owner.nodes) × (owner.history ≡ [])
                × (0 < owner.passes) }
            ensures { (result.0.table ≡ nodes.entry.now) × (result.1.table ≡ nodes.entry.now)
                × (0 < result.0.passes) }
        { put_and_note(owner, nodes) },
        move || -> (NodePass, NodeNote)
            requires { IsFresh nodes.now pass }
            ensures { IsFresh nodes.entry.now result.0 × (result.1.table ≡ nodes.entry.now) }
        { visit(pass, nodes) },
    );
    tell_both(nodes, &mut owner, of_owner, &mut pass, of_pass);
    (owner, pass)
}

#[test]
fn looks_after_a_join(rt: HostRuntime) -> Result<(), Fail> {
    let Ok((nodes, mut owner, mut passes)) = Nodes::open(rt.alloc(), 1, 1) else {
        panic!(rt; "no memory")
    };
    let Some(pass) = passes.pop() else {
        panic!(rt; "no pass")
    };
    let (pass, _) = visit(pass, &nodes);
    assert_eq!(rt; join_and_look(&mut owner, &nodes, pass, 0), 0);
    Ok(())
}

// A pass that is told inside may still read what it was given, and the owner that is told of it
// still finds its stamp.
#[test]
fn tells_a_pass_inside(rt: HostRuntime) -> Result<(), Fail> {
    let Ok((nodes, mut owner, mut passes)) = Nodes::open(rt.alloc(), 1, 1) else {
        panic!(rt; "no memory")
    };
    put_first(&mut owner, &nodes, 0x10);
    let Some(mut pass) = passes.pop() else {
        panic!(rt; "no pass")
    };
    go_in(&mut pass, &nodes);
    let first = pass.next_link(&nodes, 0);
    assert_eq!(rt; first, 1);
    let seen = pass.note(&nodes);
    owner.told(&nodes, seen);
    assert_eq!(rt; look_at(&mut owner, &nodes, 0), 1);
    owner.unlink(&nodes, 0, 1);
    let changed = owner.note(&nodes);
    pass.told(&nodes, changed);
    assert_eq!(rt; pass.payload(&nodes, first, 0), 0x10);
    assert_eq!(rt; pass.next_link(&nodes, 0), 0);
    assert_eq!(rt; come_out(&mut pass, &nodes), 0);
    owner.join(&nodes, pass);
    assert_eq!(rt; look_at(&mut owner, &nodes, 0), 0);
    Ok(())
}

#[test]
fn tells_between_threads(rt: HostRuntime) -> Result<(), Fail> {
    let Ok((nodes, owner, mut passes)) = Nodes::open(rt.alloc(), 3, 1) else {
        panic!(rt; "no memory")
    };
    let Some(pass) = passes.pop() else {
        panic!(rt; "no pass")
    };
    let (mut owner, mut pass) = tell_each_other(&rt, &nodes, owner, pass);
    go_in(&mut pass, &nodes);
    assert_eq!(rt; pass.next_link(&nodes, 0), 1);
    assert_eq!(rt; look_at(&mut owner, &nodes, 0), 1);
    Ok(())
}
