//! Worked runs by direct calls: a full table beside a pass inside, a walk past images that come and
//! go, and a change that is kept between two steps.
ghost use Rattle.std.specs.Prelude.{◌≡◌, ◌<◌, length};
ghost use Rattle.plcr_imagelist.specs.Holds.{IsWalking};
ghost use Rattle.plcr_imagelist.specs.Walk.{images_of};

use crate::{
    Hold, ImageList, LoadRefused, OpenError, Pass, Progress, UnloadRefused, Window, Writer,
};
use plcr_macho::Images;
use std::process::Abort;
use std::test::Fail;

pub(crate) const A: u64 = 0x1_0000_0000;

pub(crate) const B: u64 = 0x1_0000_4000;

pub(crate) const C: u64 = 0x1_0000_8000;

const D: u64 = 0x1_0000_c000;

const E: u64 = 0x1_0001_0000;

const F: u64 = 0x1_0001_4000;

// Loads an image, which gets this number.
pub(crate) fn load(
    rt: &impl Abort,
    list: &ImageList,
    writer: Writer,
    header: u64,
    name: &[u8],
    number: u32,
) -> Writer
    requires { writer.table ≡ list.now }
    ensures { result.table ≡ list.now }
{
    let (writer, loaded) = writer.load(list, header, name);
    assert_eq!(rt; loaded, Ok(number));
    writer
}

// Refuses to load an image.
pub(crate) fn refuse(
    rt: &impl Abort,
    list: &ImageList,
    writer: Writer,
    header: u64,
    name: &[u8],
    refused: LoadRefused,
) -> Writer
    requires { writer.table ≡ list.now }
    ensures { result.table ≡ list.now }
{
    let (writer, loaded) = writer.load(list, header, name);
    assert_eq!(rt; loaded, Err(refused));
    writer
}

// Unloads an image, which had this number.
pub(crate) fn unload(
    rt: &impl Abort,
    list: &ImageList,
    writer: Writer,
    header: u64,
    number: u32,
) -> Writer
    requires { writer.table ≡ list.now }
    ensures { result.table ≡ list.now }
{
    let (writer, unloaded) = writer.unload(list, header);
    assert_eq!(rt; unloaded, Ok(number));
    writer
}

// Meets so many more images, and says whether the walk ended before that.
pub(crate) fn walk(hold: &mut Hold, list: &ImageList, most: u32) -> (u32, bool)
    requires { hold.old.walker.table ≡ list.now }
    ensures { hold.new.walker.table ≡ list.now }
{
    let mut met = 0;
    for turn in 0..most {
        if !hold.next(list) {
            return (met, true);
        }
        met = turn + 1;
    }
    (met, false)
}

// The image met at a place has this header, and a name of this one letter.
fn expect(rt: &impl Abort, hold: &mut Hold, list: &ImageList, at: usize, header: u64, letter: u64)
    requires list { hold.old.walker.table ≡ list.now }
    requires met { at < length (images_of hold.old) }
    ensures list { hold.new.walker.table ≡ list.now }
    ensures met { length (images_of hold.new) ≡ length (images_of hold.old) }
    ensures walking { IsWalking hold.old → IsWalking hold.new }
{
    let mut images = hold.images(list);
    assert_eq!(rt; images.header(at), header);
    let len = images.name_len(at);
    assert_eq!(rt; len, 1);
    assert_eq!(rt; images.name_word(at, 0), letter);
}

// How many images were met.
pub(crate) fn count(hold: &mut Hold, list: &ImageList) -> usize
    requires { hold.old.walker.table ≡ list.now }
    ensures list { hold.new.walker.table ≡ list.now }
    ensures met { result ≡ length (images_of hold.new) }
{
    let images = hold.images(list);
    images.count()
}

#[test]
fn refuses_other_sizes(rt: HostRuntime) -> Result<(), Fail> {
    for (nodes, passes) in [(0, 1), (1, 1025), (4097, 1), (1, 0)] {
        let Err(error) = ImageList::open(rt.alloc(), nodes, passes) else {
            panic!(rt; "opened {nodes} {passes}")
        };
        assert_eq!(rt; error, OpenError::BadSize { nodes, passes });
    }
    Ok(())
}

#[test]
fn opens_the_largest_list(rt: HostRuntime) -> Result<(), Fail> {
    let Ok((_list, _writer, passes)) = ImageList::open(rt.alloc(), 4096, 1024) else {
        panic!(rt; "no memory")
    };
    assert_eq!(rt; passes.len(), 1024);
    Ok(())
}

// Two images are loaded, a pass meets the first, both are unloaded and a third is loaded: no node
// is free for a fourth until the pass has come out. Its walk goes on to the second, which is out of
// the list by then.
fn fills_the_table(rt: &impl Abort, list: &ImageList, writer: Writer, pass: Pass)
    requires writer { writer.table ≡ list.now }
    requires pass { pass.table ≡ list.now }
{
    let writer = load(rt, list, writer, A, b"A", 1);
    let writer = load(rt, list, writer, B, b"B", 2);
    let mut hold = pass.enter(list);
    assert_eq!(rt; walk(&mut hold, list, 1), (1, false));
    let writer = unload(rt, list, writer, A, 1);
    let writer = unload(rt, list, writer, B, 2);
    let writer = load(rt, list, writer, C, b"C", 3);
    let full = LoadRefused::Full {
        live: 1,
        held: 2,
        seen: 21474836481,
    };
    let writer = refuse(rt, list, writer, D, b"D", full);
    assert_eq!(rt; walk(&mut hold, list, 9), (1, true));
    assert_eq!(rt; count(&mut hold, list), 2);
    expect(rt, &mut hold, list, 0, A, 65);
    expect(rt, &mut hold, list, 1, B, 66);
    let (_, window) = hold.leave(list);
    assert_eq!(rt; window, Window { low: 2, high: 5 });
    load(rt, list, writer, D, b"D", 4);
}

#[test]
fn a_table_is_full_beside_a_pass(rt: HostRuntime) -> Result<(), Fail> {
    let Ok((list, writer, mut passes)) = ImageList::open(rt.alloc(), 3, 1) else {
        panic!(rt; "no memory")
    };
    let Some(pass) = passes.pop() else {
        panic!(rt; "no pass")
    };
    fills_the_table(&rt, &list, writer, pass);
    Ok(())
}

// One node: a second image is refused with no node held, and loaded once the first is gone.
#[test]
fn a_node_is_taken_again(rt: HostRuntime) -> Result<(), Fail> {
    let Ok((list, writer, _passes)) = ImageList::open(rt.alloc(), 1, 1) else {
        panic!(rt; "no memory")
    };
    let writer = load(&rt, &list, writer, A, b"A", 1);
    let full = LoadRefused::Full {
        live: 1,
        held: 0,
        seen: 4294967296,
    };
    let writer = refuse(&rt, &list, writer, B, b"B", full);
    let writer = unload(&rt, &list, writer, A, 1);
    let writer = load(&rt, &list, writer, B, b"B", 2);
    let (_, unloaded) = writer.unload(&list, A);
    assert_eq!(rt; unloaded, Err(UnloadRefused::NotLoaded));
    Ok(())
}

// Three images of one header: the first of them goes first.
#[test]
fn the_first_image_with_a_header_goes(rt: HostRuntime) -> Result<(), Fail> {
    let Ok((list, writer, _passes)) = ImageList::open(rt.alloc(), 3, 1) else {
        panic!(rt; "no memory")
    };
    let writer = load(&rt, &list, writer, A, b"x", 1);
    let writer = load(&rt, &list, writer, A, b"y", 2);
    let writer = load(&rt, &list, writer, A, b"z", 3);
    let writer = unload(&rt, &list, writer, A, 1);
    let writer = unload(&rt, &list, writer, A, 2);
    let writer = unload(&rt, &list, writer, A, 3);
    let (_, unloaded) = writer.unload(&list, A);
    assert_eq!(rt; unloaded, Err(UnloadRefused::NotLoaded));
    Ok(())
}

// Goes in, walks to the end, and says how many images it met.
fn count_met(list: &ImageList, pass: Pass) -> (Pass, u32)
    requires { pass.table ≡ list.now }
    ensures { result.0.table ≡ list.now }
{
    let mut hold = pass.enter(list);
    let (met, _) = walk(&mut hold, list, 9);
    let (pass, _) = hold.leave(list);
    (pass, met)
}

// A load with an empty name has five steps, and after the fourth the image is in the list.
fn keeps_a_change(rt: &impl Abort, list: &ImageList, writer: Writer, pass: Pass)
    requires writer { writer.table ≡ list.now }
    requires pass { pass.table ≡ list.now }
{
    let Ok(mut change) = writer.begin_load(list, A, b"") else {
        panic!(rt; "refused")
    };
    assert_eq!(rt; (change.steps(), change.made(), change.load()), (5, 0, 1));
    let mut pass = pass;
    for made in 0..4 {
        let (out, met) = count_met(list, pass);
        pass = out;
        assert_eq!(rt; (met, change.made()), (0, made));
        let Progress::More(next) = change.step(list) else {
            panic!(rt; "ended")
        };
        change = next;
    }
    let (_, met) = count_met(list, pass);
    assert_eq!(rt; (met, change.made()), (1, 4));
    let Progress::Done(writer) = change.step(list) else {
        panic!(rt; "more")
    };
    unload(rt, list, writer, A, 1);
}

#[test]
fn a_change_is_kept_between_two_steps(rt: HostRuntime) -> Result<(), Fail> {
    let Ok((list, writer, mut passes)) = ImageList::open(rt.alloc(), 1, 1) else {
        panic!(rt; "no memory")
    };
    let Some(pass) = passes.pop() else {
        panic!(rt; "no pass")
    };
    keeps_a_change(&rt, &list, writer, pass);
    Ok(())
}

#[test]
fn refuses_a_long_name(rt: HostRuntime) -> Result<(), Fail> {
    let Ok((list, writer, _passes)) = ImageList::open(rt.alloc(), 1, 1) else {
        panic!(rt; "no memory")
    };
    let (writer, loaded) = writer.load(&list, A, &[7; 1025]);
    assert_eq!(rt; loaded, Err(LoadRefused::NameTooLong { len: 1025 }));
    load(&rt, &list, writer, A, &[7; 1024], 1);
    Ok(())
}

// Three images are loaded and two are met; then three more are loaded, and the first and the third
// are unloaded.
fn walks_past_changes(rt: &impl Abort, list: &ImageList, writer: Writer, pass: Pass)
    requires writer { writer.table ≡ list.now }
    requires pass { pass.table ≡ list.now }
{
    let writer = load(rt, list, writer, A, b"A", 1);
    let writer = load(rt, list, writer, B, b"B", 2);
    let writer = load(rt, list, writer, C, b"C", 3);
    let mut hold = pass.enter(list);
    assert_eq!(rt; walk(&mut hold, list, 2), (2, false));
    let writer = load(rt, list, writer, D, b"D", 4);
    let writer = load(rt, list, writer, E, b"E", 5);
    let writer = load(rt, list, writer, F, b"F", 6);
    let writer = unload(rt, list, writer, A, 1);
    unload(rt, list, writer, C, 3);
    assert_eq!(rt; walk(&mut hold, list, 9), (3, true));
    assert_eq!(rt; count(&mut hold, list), 5);
    expect(rt, &mut hold, list, 0, A, 65);
    expect(rt, &mut hold, list, 1, B, 66);
    expect(rt, &mut hold, list, 2, D, 68);
    expect(rt, &mut hold, list, 3, E, 69);
    expect(rt, &mut hold, list, 4, F, 70);
    let (_, window) = hold.leave(list);
    assert_eq!(rt; window, Window { low: 3, high: 8 });
}

#[test]
fn a_walk_goes_past_what_changes(rt: HostRuntime) -> Result<(), Fail> {
    let Ok((list, writer, mut passes)) = ImageList::open(rt.alloc(), 16, 1) else {
        panic!(rt; "no memory")
    };
    let Some(pass) = passes.pop() else {
        panic!(rt; "no pass")
    };
    walks_past_changes(&rt, &list, writer, pass);
    Ok(())
}

// An unload has two steps, and after the first the image is out of the list.
fn unloads_by_steps(rt: &impl Abort, list: &ImageList, writer: Writer, pass: Pass)
    requires writer { writer.table ≡ list.now }
    requires pass { pass.table ≡ list.now }
{
    let writer = load(rt, list, writer, A, b"A", 1);
    let Ok(change) = writer.begin_unload(list, A) else {
        panic!(rt; "refused")
    };
    assert_eq!(rt; (change.steps(), change.made(), change.load()), (2, 0, 1));
    let (pass, met) = count_met(list, pass);
    assert_eq!(rt; met, 1);
    let Progress::More(change) = change.step(list) else {
        panic!(rt; "ended")
    };
    let (_, met) = count_met(list, pass);
    assert_eq!(rt; (met, change.made()), (0, 1));
    let Progress::Done(writer) = change.step(list) else {
        panic!(rt; "more")
    };
    load(rt, list, writer, B, b"B", 2);
}

#[test]
fn an_unload_is_made_by_steps(rt: HostRuntime) -> Result<(), Fail> {
    let Ok((list, writer, mut passes)) = ImageList::open(rt.alloc(), 1, 1) else {
        panic!(rt; "no memory")
    };
    let Some(pass) = passes.pop() else {
        panic!(rt; "no pass")
    };
    unloads_by_steps(&rt, &list, writer, pass);
    Ok(())
}

// The image met first has this name of nine bytes, which lies in two words with the lowest byte
// first.
fn expect_two_words(rt: &impl Abort, hold: &mut Hold, list: &ImageList)
    requires list { hold.old.walker.table ≡ list.now }
    requires met { 0 < length (images_of hold.old) }
    ensures { hold.new.walker.table ≡ list.now }
{
    let mut images = hold.images(list);
    let len = images.name_len(0);
    assert_eq!(rt; len, 9);
    assert_eq!(rt; images.name_word(0, 0), 0x6574_7379_7362_696c);
    assert_eq!(rt; images.name_word(0, 1), 0x6d);
}

// Loads an image with such a name and meets it.
fn reads_two_words(rt: &impl Abort, list: &ImageList, writer: Writer, pass: Pass)
    requires writer { writer.table ≡ list.now }
    requires pass { pass.table ≡ list.now }
{
    load(rt, list, writer, A, b"libsystem", 1);
    let mut hold = pass.enter(list);
    assert_eq!(rt; walk(&mut hold, list, 9), (1, true));
    assert_eq!(rt; count(&mut hold, list), 1);
    expect_two_words(rt, &mut hold, list);
    let (_, window) = hold.leave(list);
    assert_eq!(rt; window, Window { low: 1, high: 1 });
}

#[test]
fn a_name_has_two_words(rt: HostRuntime) -> Result<(), Fail> {
    let Ok((list, writer, mut passes)) = ImageList::open(rt.alloc(), 1, 1) else {
        panic!(rt; "no memory")
    };
    let Some(pass) = passes.pop() else {
        panic!(rt; "no pass")
    };
    reads_two_words(&rt, &list, writer, pass);
    Ok(())
}
