use crate::fixtures::{file_of, words};
use crate::top::top;
use plcr_io::{MemDesk, MemFile, MemOut};
use plcr_workers::NoGate;
use std::alloc::Global;
use std::test::Fail;

/// A desk with these files, and three outputs.
fn desk(alloc: Global, files: Vec<MemFile>) -> Result<MemDesk, Fail> {
    let one = MemOut::new(alloc, 100_000, 4_096, Vec::new(alloc))?;
    let two = MemOut::new(alloc, 100_000, 4_096, Vec::new(alloc))?;
    let three = MemOut::new(alloc, 100_000, 4_096, Vec::new(alloc))?;
    let outs = vec![in alloc; one, two, three]?;
    Ok(MemDesk::new(alloc, files, outs, Vec::new(alloc))?)
}

const LOG: &str = "2 load 1\n3 load 2\n4 load 3\n5 load 4\n6 load 5\n7 load 6\n8 load 7\n9 load 8\n\
    10 load 9\n11 load 10\n12 unload 1\n13 unload 8\n14 report made.plcrash 7983 8 12 12\n";

// The made script, run on the made core, gives the report that `make` has kept.
#[test]
fn what_is_made_is_reported_again(rt: HostRuntime) -> Result<(), Fail> {
    let alloc = rt.alloc();
    let mut first = desk(alloc, Vec::new(alloc))?;
    let mut lines = MemOut::new(alloc, 500, 100, Vec::new(alloc))?;
    let mut past = None;
    let asked = words(alloc, &["make", "10", "g.core", "g.script"])?;
    let status = top(
        &rt,
        alloc,
        asked.as_slice(),
        &mut first,
        &mut lines,
        &NoGate,
        &mut past,
    );
    assert_eq!(rt; status, 0);
    let line = b"made images 8 threads 16 frames 512 bytes 7983\n";
    assert_eq!(rt; lines.bytes(), line.as_slice());
    assert!(rt; past.is_some());
    let core = file_of(alloc, "g.core", first.file("g.core").ok_or("no core")?)?;
    let script = file_of(
        alloc,
        "g.script",
        first.file("g.script").ok_or("no script")?,
    )?;
    let mut second = desk(alloc, vec![in alloc; core, script]?)?;
    let mut lines = MemOut::new(alloc, 500, 100, Vec::new(alloc))?;
    let asked = words(alloc, &["report", "g.core", "g.script"])?;
    let status = top(
        &rt,
        alloc,
        asked.as_slice(),
        &mut second,
        &mut lines,
        &NoGate,
        &mut None,
    );
    assert_eq!(rt; status, 0);
    assert_eq!(rt; lines.bytes(), LOG.as_bytes());
    assert_eq!(rt; second.file("made.plcrash"), first.file("made.plcrash"));
    Ok(())
}

#[test]
fn make_has_three_words_behind_it(rt: HostRuntime) -> Result<(), Fail> {
    let alloc = rt.alloc();
    let cases: [&[&str]; 5] = [
        &["make", "1", "c"],
        &["make", "1", "c", "s", "t"],
        &["make", "0", "c", "s"],
        &["make", "4001", "c", "s"],
        &["report", "1", "c", "s"],
    ];
    for case in cases {
        let mut desk = desk(alloc, Vec::new(alloc))?;
        let mut lines = MemOut::new(alloc, 500, 100, Vec::new(alloc))?;
        let mut past = None;
        let asked = words(alloc, case)?;
        let status = top(
            &rt,
            alloc,
            asked.as_slice(),
            &mut desk,
            &mut lines,
            &NoGate,
            &mut past,
        );
        assert_eq!(rt; status, 1);
        assert!(rt; lines.bytes().starts_with(b"usage: report CORE SCRIPT / "));
        assert!(rt; desk.file("c").is_none());
        assert!(rt; past.is_none());
    }
    Ok(())
}
