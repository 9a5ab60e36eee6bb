//! Each call where it succeeds: a table opens, stamps tell which passes may be inside, an image is
//! read back with the words of its name, images come and go beside a pass, and two threads walk
//! while a third links.
ghost use Rattle.std.specs.Prelude.{◌≡◌, ◌≢◌, ◌⊎◌, ℕ, suc, ◌+◌, ◌<◌, ◌≤◌, [], true, false};
ghost use Rattle.std.specs.Thread.{IsSync};
ghost use Rattle.plcr_nodes.specs.Owning.{Follows};
ghost use Rattle.plcr_nodes.specs.inner.Seats.{IsFresh};
ghost use Rattle.plcr_machine.specs.Lists.{live, loads};
ghost use Rattle.plcr_machine.specs.Links.{last_place};
ghost use Rattle.plcr_machine.specs.Nodes.{is_free};
ghost use Rattle.plcr_machine.specs.Passes.{counts, is_inside};
ghost use Rattle.plcr_machine.specs.declared.limits.TheConstants.{MOST_CHANGES};

use crate::{NodePass, Nodes, NodesError, Owner};
use std::test::Fail;
use std::thread;
use std::thread::Threads;

// Puts an image with this header and an empty name at the end of the list.
fn put(owner: &mut Owner, nodes: &Nodes, tail: u32, node: u32, header: u64)
    requires table { owner.old.table ≡ nodes.now }
    requires node { (0 < node) × (node ≤ owner.old.nodes) }
    requires free { is_free owner.old.passes node owner.old.history ≡ true }
    requires tail { tail ≡ last_place 0 (live owner.old.history) }
    requires few { loads owner.old.history < MOST_CHANGES }
    ensures table { (owner.new.table ≡ owner.old.table) × (owner.new.nodes ≡ owner.old.nodes)
        × (owner.new.passes ≡ owner.old.passes) }
    ensures tail { node ≡ last_place 0 (live owner.new.history) }
    ensures free { (m : ℕ) → m ≢ node → is_free owner.old.passes m owner.old.history ≡ true →
        is_free owner.new.passes m owner.new.history ≡ true }
    ensures loads { loads owner.new.history ≡ suc (loads owner.old.history) }
{
    owner.fill(nodes, node, 0, header);
    owner.fill(nodes, node, 1, 0);
    owner.end_link(nodes, node);
    owner.link(nodes, tail, node);
}

// Puts an image on node 1 into the empty list.
pub(crate) fn put_first(owner: &mut Owner, nodes: &Nodes, header: u64)
    requires table { owner.old.table ≡ nodes.now }
    requires new { (0 < owner.old.nodes) × (owner.old.history ≡ []) }
    ensures table { (owner.new.table ≡ owner.old.table) × (owner.new.passes ≡ owner.old.passes) }
    ensures follows { Follows 0 1 owner.new.history }
{
    owner.fill(nodes, 1, 0, header);
    owner.fill(nodes, 1, 1, 0);
    owner.end_link(nodes, 1);
    owner.link(nodes, 0, 1);
}

// Puts an image with the name abcdefghi on node 1 into the empty list.
fn put_named(owner: &mut Owner, nodes: &Nodes, header: u64)
    requires table { owner.old.table ≡ nodes.now }
    requires new { (0 < owner.old.nodes) × (owner.old.history ≡ []) }
{
    owner.fill(nodes, 1, 0, header);
    owner.fill(nodes, 1, 1, 9);
    owner.fill(nodes, 1, 2, 0x6867_6665_6463_6261);
    owner.fill(nodes, 1, 3, 0x69);
    owner.end_link(nodes, 1);
    owner.link(nodes, 0, 1);
}

// Puts three images on the nodes 1, 2 and 3 at the end of the empty list.
pub(crate) fn put_three(owner: &mut Owner, nodes: &Nodes)
    requires table { owner.old.table ≡ nodes.now }
    requires new { (3 ≤ owner.old.nodes) × (owner.old.history ≡ []) }
    ensures table { (owner.new.table ≡ owner.old.table) × (owner.new.passes ≡ owner.old.passes) }
{
    put(owner, nodes, 0, 1, 0x10);
    put(owner, nodes, 1, 2, 0x20);
    put(owner, nodes, 2, 3, 0x30);
}

// Announces a pass with what it sees at the gate, and goes in.
pub(crate) fn go_in(pass: &mut NodePass, nodes: &Nodes) -> u32
    requires fresh { IsFresh nodes.now pass.old }
    ensures table { (pass.new.table ≡ pass.old.table) × (pass.new.number ≡ pass.old.number) }
    ensures inside { is_inside pass.new.number pass.new.history ≡ true }
{
    let seen = pass.glance(nodes);
    pass.announce(nodes, seen);
    pass.enter(nodes)
}

// Comes out and retires.
pub(crate) fn come_out(pass: &mut NodePass, nodes: &Nodes) -> u32
    requires table { pass.old.table ≡ nodes.now }
    requires inside { is_inside pass.old.number pass.old.history ≡ true }
    ensures fresh { IsFresh nodes.now pass.new }
    ensures number { pass.new.number ≡ pass.old.number }
{
    let counted = pass.leave(nodes);
    pass.retire(nodes);
    counted
}

// Looks at the stamp of a pass.
pub(crate) fn look_at(owner: &mut Owner, nodes: &Nodes, pass: u32) -> u64
    requires table { owner.old.table ≡ nodes.now }
    requires pass { pass < owner.old.passes }
    ensures sizes { (owner.new.table ≡ owner.old.table) × (owner.new.passes ≡ owner.old.passes) }
    ensures counts { counts owner.new.history ≡ counts owner.old.history }
    ensures follows { (before node : ℕ) → Follows before node owner.old.history →
        Follows before node owner.new.history }
{
    owner.look(nodes, pass)
}

// Counts a change.
fn count_one(owner: &mut Owner, nodes: &Nodes) -> u32
    requires table { owner.old.table ≡ nodes.now }
    requires fewer { counts owner.old.history < MOST_CHANGES }
    ensures sizes { (owner.new.table ≡ owner.old.table) × (owner.new.passes ≡ owner.old.passes) }
    ensures counts { counts owner.new.history ≡ suc (counts owner.old.history) }
{
    owner.count(nodes)
}

// A pass looks at the gate, a change is counted, and only then the pass announces what it saw and
// goes in.
fn go_in_late(pass: &mut NodePass, owner: &mut Owner, nodes: &Nodes) -> (u32, u32, u32)
    requires fresh { IsFresh nodes.now pass.old }
    requires owner { (owner.old.table ≡ nodes.now) × (counts owner.old.history < MOST_CHANGES) }
    ensures table { pass.new.table ≡ pass.old.table }
    ensures inside { is_inside pass.new.number pass.new.history ≡ true }
    ensures sizes { (owner.new.table ≡ owner.old.table) × (owner.new.passes ≡ owner.old.passes) }
{
    let seen = pass.glance(nodes);
    let counted = count_one(owner, nodes);
    pass.announce(nodes, seen);
    (seen, counted, pass.enter(nodes))
}

// Goes in, walks to the end and comes out, and says how many images it met and whether their
// headers rise.
fn walk(mut pass: NodePass, nodes: &Nodes) -> (u32, bool)
    requires fresh { IsFresh nodes.now pass }
{
    go_in(&mut pass, nodes);
    let mut met = 0;
    let mut last = 0;
    let mut rises = true;
    let mut node = pass.next_link(nodes, 0);
    for turn in 0..4 {
        if node == 0 {
            break;
        }
        met = turn + 1;
        let header = pass.payload(nodes, node, 0);
        rises = rises && last < header;
        last = header;
        node = pass.next_link(nodes, node);
    }
    come_out(&mut pass, nodes);
    (met, rises)
}

// Two passes walk while the owner links.
fn walk_while_linking<R: Threads + Sync>(
    rt: &R,
    nodes: &Nodes,
    mut owner: Owner,
    first: NodePass,
    second: NodePass,
) -> ((u32, bool), (u32, bool))
    requires owner { (owner.table ≡ nodes.now) × (3 ≤ owner.nodes) × (owner.history ≡ []) }
    requires passes { IsFresh nodes.now first × IsFresh nodes.now second }
{
    let (_, walked) = thread::join(
        rt,
        move || -> ()
            requires { (owner.table ≡ nodes.now) × (3 ≤ owner.nodes) × (owner.history ≡ []) }
        { put_three(&mut owner, nodes) },
        move || -> ((u32, bool), (u32, bool))
            requires { IsSync R.row × IsFresh nodes.now first × IsFresh nodes.now second }
        {
            thread::join(
                rt,
                move || -> (u32, bool)
                    requires { IsFresh nodes.now first }
                { walk(first, nodes) },
                move || -> (u32, bool)
                    requires { IsFresh nodes.now second }
                { walk(second, nodes) },
            )
        },
    );
    walked
}

#[test]
fn refuses_other_sizes(rt: HostRuntime) -> Result<(), Fail> {
    for (nodes, passes) in [(0, 1), (4097, 1), (1, 0), (1, 1025)] {
        let opened = Nodes::open(rt.alloc(), nodes, passes);
        let Err(error) = opened else {
            panic!(rt; "opened {nodes} {passes}")
        };
        assert_eq!(rt; error, NodesError::BadSize { nodes, passes });
    }
    Ok(())
}

#[test]
fn opens_the_largest_table(rt: HostRuntime) -> Result<(), Fail> {
    let Ok((_nodes, _owner, passes)) = Nodes::open(rt.alloc(), 4096, 1024) else {
        panic!(rt; "no memory")
    };
    assert_eq!(rt; passes.len(), 1024);
    Ok(())
}

#[test]
fn walks_over_one_node(rt: HostRuntime) -> Result<(), Fail> {
    let Ok((nodes, mut owner, mut passes)) = Nodes::open(rt.alloc(), 2, 1) else {
        panic!(rt; "no memory")
    };
    put(&mut owner, &nodes, 0, 1, 0x10);
    let Some(mut pass) = passes.pop() else {
        panic!(rt; "no pass")
    };
    assert_eq!(rt; go_in(&mut pass, &nodes), 0);
    let first = pass.next_link(&nodes, 0);
    assert_eq!(rt; first, 1);
    assert_eq!(rt; pass.payload(&nodes, first, 0), 0x10);
    assert_eq!(rt; pass.next_link(&nodes, first), 0);
    assert_eq!(rt; come_out(&mut pass, &nodes), 0);
    Ok(())
}

// A stamp is one more than the number of counts that its pass had seen as it announced itself,
// until the pass retires.
#[test]
fn counts_and_looks(rt: HostRuntime) -> Result<(), Fail> {
    let Ok((nodes, mut owner, mut passes)) = Nodes::open(rt.alloc(), 1, 2) else {
        panic!(rt; "no memory")
    };
    let Some(mut last) = passes.pop() else {
        panic!(rt; "no pass")
    };
    let first_stamp = look_at(&mut owner, &nodes, 0);
    let last_stamp = look_at(&mut owner, &nodes, 1);
    assert_eq!(rt; (first_stamp, last_stamp), (0, 0));
    assert_eq!(rt; count_one(&mut owner, &nodes), 0);
    assert_eq!(rt; go_in_late(&mut last, &mut owner, &nodes), (1, 1, 2));
    let first_stamp = look_at(&mut owner, &nodes, 0);
    let last_stamp = look_at(&mut owner, &nodes, 1);
    assert_eq!(rt; (first_stamp, last_stamp), (0, 2));
    assert_eq!(rt; come_out(&mut last, &nodes), 2);
    let last_stamp = look_at(&mut owner, &nodes, 1);
    assert_eq!(rt; last_stamp, 0);
    Ok(())
}

// A pass may read an image that was taken out of the list while it is inside.
#[test]
fn unlinks_beside_a_pass(rt: HostRuntime) -> Result<(), Fail> {
    let Ok((nodes, mut owner, mut passes)) = Nodes::open(rt.alloc(), 1, 1) else {
        panic!(rt; "no memory")
    };
    put_first(&mut owner, &nodes, 0x10);
    let Some(mut pass) = passes.pop() else {
        panic!(rt; "no pass")
    };
    go_in(&mut pass, &nodes);
    let first = pass.next_link(&nodes, 0);
    assert_eq!(rt; first, 1);
    owner.unlink(&nodes, 0, 1);
    assert_eq!(rt; look_at(&mut owner, &nodes, 0), 1);
    assert_eq!(rt; pass.payload(&nodes, first, 0), 0x10);
    assert_eq!(rt; pass.next_link(&nodes, 0), 0);
    assert_eq!(rt; come_out(&mut pass, &nodes), 0);
    assert_eq!(rt; look_at(&mut owner, &nodes, 0), 0);
    Ok(())
}

// The words of a name of nine bytes, the lowest byte first and zero past the end.
#[test]
fn reads_the_words_of_a_name(rt: HostRuntime) -> Result<(), Fail> {
    let Ok((nodes, mut owner, mut passes)) = Nodes::open(rt.alloc(), 1, 1) else {
        panic!(rt; "no memory")
    };
    put_named(&mut owner, &nodes, 0x10);
    let Some(mut pass) = passes.pop() else {
        panic!(rt; "no pass")
    };
    go_in(&mut pass, &nodes);
    let first = pass.next_link(&nodes, 0);
    assert_eq!(rt; first, 1);
    let length = pass.payload(&nodes, first, 1);
    assert_eq!(rt; length, 9);
    let front = pass.payload(&nodes, first, 2);
    assert_eq!(rt; front, 0x6867_6665_6463_6261);
    let rest = pass.payload(&nodes, first, 3);
    assert_eq!(rt; rest, 0x69);
    Ok(())
}

#[test]
fn walks_on_two_threads_while_a_third_links(rt: HostRuntime) -> Result<(), Fail> {
    let Ok((nodes, owner, mut passes)) = Nodes::open(rt.alloc(), 3, 3) else {
        panic!(rt; "no memory")
    };
    let Some(third) = passes.pop() else {
        panic!(rt; "no pass")
    };
    let Some(second) = passes.pop() else {
        panic!(rt; "no pass")
    };
    let Some(first) = passes.pop() else {
        panic!(rt; "no pass")
    };
    let (one, two) = walk_while_linking(&rt, &nodes, owner, first, second);
    assert!(rt; one.0 <= 3 && one.1 && two.0 <= 3 && two.1);
    assert_eq!(rt; walk(third, &nodes), (3, true));
    Ok(())
}
