use super::*;
use plcr_io::{MemDesk, MemOut};
use plcr_make::{core_bytes, script_bytes};
use std::alloc::Global;
use std::process::Abort;
use std::test::Fail;

const NAMES: [&str; 3] = ["a.core", "a.script", "made.plcrash"];

// What of a run is to fail: a call of the desk, from 1, or a put to one of its three outputs.
#[derive(Clone, Copy)]
enum Fault {
    Nowhere,
    Call(u32),
    Put { output: usize, put: u32 },
}

// The failing puts of an output, from 1.
fn failing_puts(alloc: Global, fault: Fault, at: usize) -> Result<Vec<u32>, Fail> {
    let mut puts = Vec::new(alloc);
    match fault {
        Fault::Put { output, put } if output == at => puts.push(put)?,
        _ => {}
    }
    Ok(puts)
}

// A desk for three files. Each is made and then kept, so its calls are numbered from 1 to 6.
fn desk(alloc: Global, fault: Fault) -> Result<MemDesk, Fail> {
    let mut calls = Vec::new(alloc);
    if let Fault::Call(call) = fault {
        calls.push(call)?;
    }
    let one = MemOut::new(alloc, 1_000_000, 4_096, failing_puts(alloc, fault, 0)?)?;
    let two = MemOut::new(alloc, 1_000_000, 4_096, failing_puts(alloc, fault, 1)?)?;
    let three = MemOut::new(alloc, 1_000_000, 4_096, failing_puts(alloc, fault, 2)?)?;
    let outs = vec![in alloc; one, two, three]?;
    Ok(MemDesk::new(alloc, Vec::new(alloc), outs, calls)?)
}

// What is printed of the report, and its length.
fn made<R: Abort + AllocGlobal>(rt: &R, images: u32, line: &str, bytes: usize) -> Result<(), Fail> {
    let alloc = rt.alloc();
    let mut desk = desk(alloc, Fault::Nowhere)?;
    let mut lines = MemOut::new(alloc, 100, 100, Vec::new(alloc))?;
    let mut past = None;
    assert!(rt; images >= 1 && images <= 4_000);
    let status = make_command(
        alloc, images, NAMES[0], NAMES[1], &mut desk, &mut lines, &mut past,
    );
    assert_eq!(rt; status, 0);
    assert_eq!(rt; lines.bytes(), line.as_bytes());
    assert_eq!(rt;
        desk.file(NAMES[0]),
        Some(core_bytes(alloc, images)?.as_slice())
    );
    assert_eq!(rt;
        desk.file(NAMES[1]),
        Some(script_bytes(alloc, images)?.as_slice())
    );
    assert_eq!(rt; desk.file(NAMES[2]).map(|report| report.len()), Some(bytes));
    assert!(rt; desk.dropped(0).is_none());
    assert!(rt; past.is_some());
    Ok(())
}

#[test]
fn one_image_is_loaded_and_unloaded(rt: HostRuntime) -> Result<(), Fail> {
    let line = "made images 0 threads 16 frames 512 bytes 7487\n";
    made(&rt, 1, line, 7_487)
}

#[test]
fn each_seventh_image_is_unloaded(rt: HostRuntime) -> Result<(), Fail> {
    let line = "made images 8 threads 16 frames 512 bytes 7983\n";
    made(&rt, 10, line, 7_983)
}

#[test]
fn the_most_images_are_made(rt: HostRuntime) -> Result<(), Fail> {
    let line = "made images 3428 threads 16 frames 512 bytes 229357\n";
    made(&rt, 4_000, line, 229_357)
}

// Which fault, what is printed, how many files are kept, and how many bytes of the next are given
// up.
const FAULTS: [(Fault, &str, usize, Option<usize>); 9] = [
    (Fault::Call(1), "cannot write a.core\n", 0, None),
    (
        Fault::Put { output: 0, put: 2 },
        "cannot write a.core\n",
        0,
        Some(4_096),
    ),
    (Fault::Call(2), "cannot write a.core\n", 0, None),
    (Fault::Call(3), "cannot write a.script\n", 1, None),
    (
        Fault::Put { output: 1, put: 1 },
        "cannot write a.script\n",
        1,
        Some(0),
    ),
    (Fault::Call(4), "cannot write a.script\n", 1, None),
    (Fault::Call(5), "cannot write made.plcrash\n", 2, None),
    (
        Fault::Put { output: 2, put: 2 },
        "cannot write made.plcrash\n",
        2,
        Some(4_096),
    ),
    (Fault::Call(6), "cannot write made.plcrash\n", 2, None),
];

#[test]
fn it_stops_at_the_first_file_that_is_not_kept(rt: HostRuntime) -> Result<(), Fail> {
    let alloc = rt.alloc();
    for (fault, text, kept, dropped) in FAULTS {
        let mut desk = desk(alloc, fault)?;
        let mut lines = MemOut::new(alloc, 100, 100, Vec::new(alloc))?;
        let mut past = None;
        let status = make_command(
            alloc, 2, NAMES[0], NAMES[1], &mut desk, &mut lines, &mut past,
        );
        assert_eq!(rt; status, 5);
        assert_eq!(rt; lines.bytes(), text.as_bytes());
        for (i, name) in NAMES.iter().enumerate() {
            assert_eq!(rt; desk.file(name).is_some(), i < kept, "{text}");
        }
        assert_eq!(rt; desk.dropped(0).map(|front| front.len()), dropped);
        assert!(rt; past.is_some());
    }
    Ok(())
}

#[test]
fn a_line_that_is_not_printed_whole_is_told(rt: HostRuntime) -> Result<(), Fail> {
    let alloc = rt.alloc();
    let mut desk = desk(alloc, Fault::Nowhere)?;
    let mut lines = MemOut::new(alloc, 10, 100, Vec::new(alloc))?;
    let mut past = None;
    let status = make_command(
        alloc, 2, NAMES[0], NAMES[1], &mut desk, &mut lines, &mut past,
    );
    assert_eq!(rt; status, 5);
    assert_eq!(rt; lines.bytes(), b"made image".as_slice());
    assert!(rt; desk.file(NAMES[2]).is_some());
    assert!(rt; past.is_some());
    Ok(())
}

#[test]
fn words_ask_for_one_to_four_thousand_images(rt: HostRuntime) -> Result<(), Fail> {
    let words = [
        ("1", Some(1)),
        ("10", Some(10)),
        ("0010", Some(10)),
        ("4000", Some(4_000)),
        ("00010", None),
        ("4001", None),
        ("9999", None),
        ("0", None),
        ("0000", None),
        ("", None),
        ("+1", None),
        ("-1", None),
        ("1 ", None),
        ("0x1", None),
        ("\u{ff11}", None),
    ];
    for (word, images) in words {
        assert_eq!(rt; images_of(word), images, "{word}");
    }
    Ok(())
}
