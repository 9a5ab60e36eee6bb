//! A writer changes the list on one thread while three passes walk it on others until it has ended.
//! Each walk is judged by the plain program that says which walks are lawful, along the lists that
//! the changes leave: three images are loaded, and then the oldest is unloaded and another loaded
//! by turns. There are few nodes, so a load may find none free while passes are inside: it is tried
//! until there is one.
ghost use Rattle.std.specs.Prelude.{◌≡◌, ◌<◌, length};
ghost use Rattle.std.specs.Thread.{IsSync};
ghost use Rattle.plcr_imagelist.specs.Walk.{images_of};

use crate::tests::count;
use crate::{Hold, ImageList, LoadRefused, Pass, Window, Writer};
use plcr_machine::plain::{is_lawful_walk, lists_after};
use plcr_machine::{Change, Named};
use plcr_macho::Images;
use std::alloc::{AllocError, Global};
use std::collections::LinkedList;
use std::test::Fail;
use std::thread;
use std::thread::Threads;

/// So few nodes that each is loaded many times over.
const NODES: u32 = 64;

/// How often an image is unloaded and another loaded.
const TURNS: u32 = 2000;

/// The tries after which a thread gives up, many hours of them.
const MOST_TRIES: u32 = 1_000_000_000;

// An image that is known by its number: that of its load, which is its header too and, in bytes,
// its name.
fn image(alloc: Global, number: u32) -> Result<Named, AllocError> {
    let header = u64::from(number);
    let name = name_of(alloc, header)?;
    Ok(Named {
        load: number,
        header,
        name,
    })
}

// The bytes of a word.
fn name_of(alloc: Global, word: u64) -> Result<LinkedList<u8>, AllocError> {
    let mut name = LinkedList::new(alloc);
    for byte in word.to_le_bytes() {
        name.push_back(byte)?;
    }
    Ok(name)
}

// All changes that the writer makes.
fn all_changes(alloc: Global) -> Result<Vec<Change>, AllocError> {
    let mut changes = Vec::new(alloc);
    for number in 1..4 {
        changes.push(Change::Loads(image(alloc, number)?))?;
    }
    for turn in 0..TURNS {
        changes.push(Change::Unloads(u64::from(turn + 1)))?;
        changes.push(Change::Loads(image(alloc, turn + 4)?))?;
    }
    Ok(changes)
}

// Makes all changes, and says whether none was refused.
fn change_all(list: &ImageList, writer: Writer, changes: &[Change]) -> bool
    requires { writer.table ≡ list.now }
{
    let mut writer = writer;
    let mut made = true;
    for change in changes {
        let (next, good) = change_once(list, writer, change);
        writer = next;
        made = made && good;
    }
    made
}

fn change_once(list: &ImageList, writer: Writer, change: &Change) -> (Writer, bool)
    requires { writer.table ≡ list.now }
    ensures { result.0.table ≡ list.now }
{
    match change {
        Change::Loads(image) => load_at_last(list, writer, image.load, image.header),
        Change::Unloads(header) => {
            let (writer, unloaded) = writer.unload(list, *header);
            (writer, unloaded.is_ok())
        }
    }
}

// Loads the image with this number once a node is free.
fn load_at_last(list: &ImageList, writer: Writer, number: u32, header: u64) -> (Writer, bool)
    requires { writer.table ≡ list.now }
    ensures { result.0.table ≡ list.now }
{
    let mut writer = writer;
    for _ in 0..MOST_TRIES {
        let (next, loaded) = writer.load(list, header, &header.to_le_bytes());
        writer = next;
        match loaded {
            Ok(load) => return (writer, load == number),
            Err(LoadRefused::Full { .. }) => {}
            Err(_) => break,
        }
    }
    (writer, false)
}

// The header, the length of the name and its first word, of an image that was met and has a name.
fn read_at(hold: &mut Hold, list: &ImageList, at: usize) -> (u64, usize, u64)
    requires list { hold.old.walker.table ≡ list.now }
    requires met { at < length (images_of hold.old) }
    ensures list { hold.new.walker.table ≡ list.now }
    ensures met { length (images_of hold.new) ≡ length (images_of hold.old) }
{
    let mut images = hold.images(list);
    let header = images.header(at);
    let len = images.name_len(at);
    let word = if len == 0 { 0 } else { images.name_word(at, 0) };
    (header, len, word)
}

// The images that a walk met, each with its header as its number. One whose name hasn't 8 bytes
// gets the number 0.
fn read(alloc: Global, hold: &mut Hold, list: &ImageList) -> Result<Vec<Named>, AllocError>
    requires { hold.old.walker.table ≡ list.now }
    ensures { hold.new.walker.table ≡ list.now }
{
    let count = count(hold, list);
    let mut met = Vec::new(alloc);
    for at in 0..count {
        let (header, len, word) = read_at(hold, list, at);
        let load = match u32::try_from(header) {
            Ok(number) if len == 8 => number,
            _ => 0,
        };
        let name = name_of(alloc, word)?;
        met.push(Named { load, header, name })?;
    }
    Ok(met)
}

// Whether a walk is lawful between the lists of its window. Before a count its change may have been
// made already.
fn is_lawful(lists: &[Vec<Named>], met: &[Named], window: Window) -> bool {
    let from = window.low as usize;
    let after = window.high as usize + 1;
    let to = if after < lists.len() {
        after
    } else {
        after - 1
    };
    from <= to && to < lists.len() && is_lawful_walk(lists, from, to, met)
}

// Goes in, walks to the end and comes out. Gives how many changes were counted by then, and whether
// the walk was lawful.
fn walk_once(alloc: Global, list: &ImageList, lists: &[Vec<Named>], pass: Pass) -> (Pass, u32, bool)
    requires { pass.table ≡ list.now }
    ensures { result.0.table ≡ list.now }
{
    let mut hold = pass.enter(list);
    for _ in 0..NODES + 1 {
        if !hold.next(list) {
            break;
        }
    }
    let met = read(alloc, &mut hold, list);
    let (pass, window) = hold.leave(list);
    let lawful = match met {
        Ok(met) => is_lawful(lists, &met, window),
        Err(_) => false,
    };
    (pass, window.high, lawful)
}

// Walks until all changes were made, and says whether each walk was lawful.
fn walk_all(alloc: Global, list: &ImageList, lists: &[Vec<Named>], pass: Pass) -> bool
    requires { pass.table ≡ list.now }
{
    let mut pass = pass;
    for _ in 0..MOST_TRIES {
        let (out, high, lawful) = walk_once(alloc, list, lists, pass);
        pass = out;
        if !lawful || high as usize + 1 == lists.len() {
            return lawful;
        }
    }
    false
}

// Two passes, each on a thread of its own.
fn walk_both<R: Threads + Sync>(
    rt: &R,
    alloc: Global,
    list: &ImageList,
    lists: &[Vec<Named>],
    first: Pass,
    second: Pass,
) -> (bool, bool)
    requires { (first.table ≡ list.now) × (second.table ≡ list.now) }
{
    thread::join(
        rt,
        move || -> bool
            requires { first.table ≡ list.now }
        { walk_all(alloc, list, lists, first) },
        move || -> bool
            requires { second.table ≡ list.now }
        { walk_all(alloc, list, lists, second) },
    )
}

// A pass and the writer, each on a thread of its own.
fn walk_beside<R: Threads + Sync>(
    rt: &R,
    alloc: Global,
    list: &ImageList,
    lists: &[Vec<Named>],
    changes: &[Change],
    writer: Writer,
    pass: Pass,
) -> (bool, bool)
    requires { (writer.table ≡ list.now) × (pass.table ≡ list.now) }
{
    thread::join(
        rt,
        move || -> bool
            requires { writer.table ≡ list.now }
        { change_all(list, writer, changes) },
        move || -> bool
            requires { pass.table ≡ list.now }
        { walk_all(alloc, list, lists, pass) },
    )
}

// The writer and three passes. Says whether all changes were made and all walks were lawful.
fn run<R: Threads + Sync>(
    rt: &R,
    alloc: Global,
    list: &ImageList,
    lists: &[Vec<Named>],
    changes: &[Change],
    writer: Writer,
    passes: (Pass, Pass, Pass),
) -> bool
    requires writer { writer.table ≡ list.now }
    requires passes { (passes.0.table ≡ list.now) × (passes.1.table ≡ list.now)
        × (passes.2.table ≡ list.now) }
{
    let (first, second, third) = passes;
    let ((made, one), (two, three)) = thread::join(
        rt,
        move || -> (bool, bool)
            requires { IsSync R.row × (writer.table ≡ list.now) × (first.table ≡ list.now) }
        { walk_beside(rt, alloc, list, lists, changes, writer, first) },
        move || -> (bool, bool)
            requires { IsSync R.row × (second.table ≡ list.now) × (third.table ≡ list.now) }
        { walk_both(rt, alloc, list, lists, second, third) },
    );
    made && one && two && three
}

#[test]
fn walks_are_lawful_while_the_list_changes(rt: HostRuntime) -> Result<(), Fail> {
    let alloc = rt.alloc();
    let changes = all_changes(alloc)?;
    let lists = lists_after(alloc, &changes)?;
    let Ok((list, writer, mut passes)) = ImageList::open(alloc, NODES, 3) else {
        panic!(rt; "no memory")
    };
    let Some(third) = passes.pop() else {
        panic!(rt; "no pass")
    };
    let Some(second) = passes.pop() else {
        panic!(rt; "no pass")
    };
    let Some(first) = passes.pop() else {
        panic!(rt; "no pass")
    };
    let all = (first, second, third);
    assert!(rt; run(&rt, alloc, &list, &lists, &changes, writer, all));
    Ok(())
}
