//! A hold says how far its walk has come, and may be kept in a collection; a change says what it
//! does.
ghost use Rattle.std.specs.Prelude.{◌≡◌, IfOk};

use crate::tests::{A, B, load};
use crate::{Hold, ImageList, Pass, Progress, Window, Writer};
use std::alloc::{AllocError, Global};
use std::process::Abort;
use std::test::Fail;

// The hold lies in a vector, and is taken out of it again.
fn keep_and_resume(
    rt: &impl Abort,
    alloc: Global,
    list: &ImageList,
    hold: Hold,
) -> Result<Hold, AllocError>
    requires { hold.walker.table ≡ list.now }
    ensures { IfOk result (λ back. back.walker.table ≡ list.now) }
{
    let _ = list;
    let mut all = Vec::new(alloc);
    all.push(hold.keep())?;
    let Some(kept) = all.pop() else {
        panic!(rt; "nothing was kept")
    };
    Ok(kept.resume())
}

// A walk over two images, whose hold is kept after the first.
fn walks_on(
    rt: &impl Abort,
    alloc: Global,
    list: &ImageList,
    writer: Writer,
    pass: Pass,
) -> Result<(), AllocError>
    requires writer { writer.table ≡ list.now }
    requires pass { pass.table ≡ list.now }
{
    let writer = load(rt, list, writer, A, b"A", 1);
    load(rt, list, writer, B, b"B", 2);
    let mut hold = pass.enter(list);
    assert_eq!(rt; (hold.met(), hold.has_ended()), (0, false));
    assert!(rt; hold.next(list));
    let mut hold = keep_and_resume(rt, alloc, list, hold)?;
    assert_eq!(rt; (hold.met(), hold.has_ended()), (1, false));
    assert!(rt; hold.next(list));
    assert!(rt; !hold.next(list));
    assert_eq!(rt; (hold.met(), hold.has_ended()), (2, true));
    let (_, window) = hold.leave(list);
    assert_eq!(rt; window, Window { low: 2, high: 2 });
    Ok(())
}

#[test]
fn a_hold_is_kept_and_goes_on(rt: HostRuntime) -> Result<(), Fail> {
    let alloc = rt.alloc();
    let Ok((list, writer, mut passes)) = ImageList::open(alloc, 2, 1) else {
        panic!(rt; "no memory")
    };
    let Some(pass) = passes.pop() else {
        panic!(rt; "no pass")
    };
    walks_on(&rt, alloc, &list, writer, pass)?;
    Ok(())
}

// An image is loaded, and then begun to be unloaded.
fn says_what_it_does(rt: &impl Abort, list: &ImageList, writer: Writer)
    requires { writer.table ≡ list.now }
{
    let Ok(change) = writer.begin_load(list, A, b"A") else {
        panic!(rt; "refused")
    };
    assert!(rt; change.is_load());
    let Progress::More(change) = change.step(list) else {
        panic!(rt; "ended")
    };
    assert!(rt; change.is_load());
}

#[test]
fn a_change_says_what_it_does(rt: HostRuntime) -> Result<(), Fail> {
    let Ok((list, writer, _passes)) = ImageList::open(rt.alloc(), 1, 1) else {
        panic!(rt; "no memory")
    };
    says_what_it_does(&rt, &list, writer);
    let Ok((list, writer, _passes)) = ImageList::open(rt.alloc(), 1, 1) else {
        panic!(rt; "no memory")
    };
    let writer = load(&rt, &list, writer, B, b"B", 1);
    let Ok(change) = writer.begin_unload(&list, B) else {
        panic!(rt; "refused")
    };
    assert!(rt; !change.is_load());
    Ok(())
}
