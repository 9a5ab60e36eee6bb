//! A hold lends the images that it has met to whoever reads such a list, and then comes out.
ghost use Rattle.std.specs.Prelude.{◌≡◌, ◌<◌, ◌≤◌, ◌^◌, length, All, IfSome, IfNone};
ghost use Rattle.plcr_macho.specs.Images.{Listed, listed_at};
ghost use Rattle.plcr_imagelist.specs.Walk.{images_of, IsSameWalk};

use crate::list::{fill, load, open, unload};
use crate::walks::walk;
use crate::words::{Task, read};
use plcr_imagelist::{Hold, ImageList, Pass, Window};
use plcr_macho::Images;
use std::alloc::Global;
use std::test::Fail;

// The header of the first of any images, which are few and have short names, if there is one.
fn first_header<I: Images>(images: &mut I) -> Option<u64>
    requires few { length (I.images images.old) < 2 ^ 32 }
    requires short { All (λ (image : Listed). length image.name ≤ 1024) (I.images images.old) }
    ensures some { IfSome result (λ header. header ≡ (listed_at (I.images images.old) 0).header) }
    ensures none { IfNone result (length (I.images images.old) ≡ 0) }
    ensures same { I.images images.new ≡ I.images images.old }
    ensures follows { I.follows images.old images.new }
{
    if images.count() == 0 {
        return None;
    }
    Some(images.header(0))
}

// The same of the images that a hold has met. Its walk stays as it was.
fn first_met(hold: &mut Hold, list: &ImageList) -> Option<u64>
    requires { hold.old.walker.table ≡ list.now }
    ensures some { IfSome result (λ header. header ≡ (listed_at (images_of hold.old) 0).header) }
    ensures none { IfNone result (length (images_of hold.old) ≡ 0) }
    ensures same { IsSameWalk hold.old hold.new }
{
    first_header(&mut hold.images(list))
}

// Goes in, walks to the end, reads what was met twice over, and comes out.
fn visit(list: &ImageList, pass: Pass) -> (Option<u64>, Option<u64>, Window)
    requires { pass.table ≡ list.now }
{
    let mut hold = pass.enter(list);
    for _ in 0..9 {
        if !hold.next(list) {
            break;
        }
    }
    let lent = first_header(&mut hold.images(list));
    let met = first_met(&mut hold, list);
    let (_, window) = hold.leave(list);
    (lent, met, window)
}

#[test]
fn a_hold_lends_what_it_met(rt: HostRuntime) -> Result<(), Fail> {
    let (list, writer, mut passes) = open(rt.alloc(), 4, 1)?;
    let Some(pass) = passes.pop() else {
        panic!(rt; "no pass")
    };
    let _ = fill(&list, writer, 3);
    let (lent, met, window) = visit(&list, pass);
    assert_eq!(rt; (lent, met), (Some(1), Some(1)));
    assert_eq!(rt; window, Window { low: 3, high: 3 });
    Ok(())
}

#[test]
fn what_is_not_refused_counts(rt: HostRuntime) -> Result<(), Fail> {
    let (list, writer, mut passes) = open(rt.alloc(), 4, 1)?;
    let Some(pass) = passes.pop() else {
        panic!(rt; "no pass")
    };
    let (writer, made) = fill(&list, writer, 5);
    assert_eq!(rt; made, 4);
    let (pass, met) = walk(&list, pass, 3);
    assert_eq!(rt; met, 12);
    let (writer, loaded) = load(&list, writer, 6);
    assert!(rt; !loaded);
    let (writer, unloaded) = unload(&list, writer, 1);
    assert!(rt; unloaded);
    let (_, unloaded) = unload(&list, writer, 1);
    assert!(rt; !unloaded);
    let (_, met) = walk(&list, pass, 2);
    assert_eq!(rt; met, 6);
    Ok(())
}

// The race that the words of a line name.
fn named(alloc: Global, line: &str) -> Result<Option<Task>, Fail> {
    let mut words = Vec::new(alloc);
    for word in line.split(' ') {
        words.push(String::from_str(alloc, word)?)?;
    }
    Ok(read(&words))
}

#[test]
fn words_name_a_race(rt: HostRuntime) -> Result<(), Fail> {
    let alloc = rt.alloc();
    let changes = Task::Changes {
        nodes: 4096,
        place: 1,
        rounds: 7,
    };
    let later = Task::Changes {
        nodes: 4096,
        place: 2048,
        rounds: 7,
    };
    let walks = Task::Walks {
        nodes: 128,
        readers: 2,
        rounds: 9,
    };
    assert_eq!(rt; named(alloc, "changes 4096 7")?, Some(changes));
    assert_eq!(rt; named(alloc, "changes 4096 2048 7")?, Some(later));
    assert_eq!(rt; named(alloc, "walks 128 2 9")?, Some(walks));
    assert_eq!(rt; named(alloc, "walks 2 9")?, None);
    assert_eq!(rt; named(alloc, "changes 4096 x")?, None);
    Ok(())
}
