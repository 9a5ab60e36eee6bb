use crate::fixtures::{desk_of, image_core};
use crate::report::report_command;
use plcr_decode::decode;
use plcr_imagelist::Writer;
use plcr_io::{MemDesk, MemOut};
use std::alloc::Global;
use std::test::Fail;

/// What a run of a script left.
#[derive(Drop)]
struct Ran {
    status: u8,
    lines: MemOut,
    desk: MemDesk,
    past: Option<Writer>,
}

/// Runs a script on a core of eight images; these puts to the first output fail.
fn run(alloc: Global, script: &[u8], puts: Vec<u32>) -> Result<Ran, Fail> {
    let mut desk = desk_of(alloc, image_core(alloc, 8, 1)?, script, 1000, puts)?;
    let mut lines = MemOut::new(alloc, 2000, 100, Vec::new(alloc))?;
    let mut past = None;
    let status = report_command(alloc, "c", "s", &mut desk, &mut lines, &mut past);
    Ok(Ran {
        status,
        lines,
        desk,
        past,
    })
}

const LOGS: [(&[u8], &str); 6] = [
    (b"", ""),
    (
        b"begin load 0x100000000\nstep 3\nreport 0 a\nstep 1\nreport 0 b\nend\nreport 0 c\n",
        "1 begin 5\n2 step 3\n3 report a 271 0 0 0\n4 step 4\n5 report b 314 1 0 0\n6 load 1\n\
            7 report c 314 1 1 1\n",
    ),
    (
        b"begin load 0x100000000 A\nstep 4\nreport 0 a\nstep 1\nreport 0 b\n",
        "1 begin 6\n2 step 4\n3 report a 271 0 0 0\n4 step 5\n5 report b 315 1 0 0\n",
    ),
    (
        b"table 3 1\nload 0x100000000 A\nload 0x100004000 B\nenter 0\nwalk 0 1\n\
            unload 0x100000000\nunload 0x100004000\nload 0x100008000 C\nload 0x10000c000 D\n\
            walk 0 9\nleave 0\nload 0x10000c000 D\n",
        "2 load 1\n3 load 2\n4 enter 0\n5 walk 0 1 more\n6 unload 1\n7 unload 2\n8 load 3\n\
            9 full 1 2 21474836481\n10 walk 0 2 end\n11 leave 0 2 2 5\n12 load 4\n",
    ),
    (
        b"begin load 0x100000000 A\nbegin load 0x100004000 B\nunload 0x100000000\nend\nend\n",
        "1 begin 6\n2 busy\n3 busy\n4 load 1\n5 idle\n",
    ),
    (
        b"table 2 2\nload 0x100000000 A\nenter 0\nunload 0x100000000\nenter 1\nleave 0\n\
            load 0x100004000 B\nload 0x100008000 C\n",
        "2 load 1\n3 enter 0\n4 unload 1\n5 enter 1\n6 leave 0 0 1 2\n7 load 2\n8 load 3\n",
    ),
];

#[test]
fn statements_come_to_their_lines(rt: HostRuntime) -> Result<(), Fail> {
    let alloc = rt.alloc();
    for (script, log) in LOGS {
        let ran = run(alloc, script, Vec::new(alloc))?;
        assert_eq!(rt; ran.status, 0);
        assert_eq!(rt; ran.lines.bytes(), log.as_bytes());
        assert!(rt; ran.past.is_some());
    }
    Ok(())
}

#[test]
fn a_long_name_takes_more_steps(rt: HostRuntime) -> Result<(), Fail> {
    let alloc = rt.alloc();
    for (length, log) in [(1024, "1 begin 133\n"), (1025, "1 long 1025\n")] {
        let mut script = b"begin load 0x100000000 ".to_vec(alloc)?;
        for _ in 0..length {
            script.push(b'n')?;
        }
        let ran = run(alloc, script.as_slice(), Vec::new(alloc))?;
        assert_eq!(rt; ran.status, 0);
        assert_eq!(rt; ran.lines.bytes(), log.as_bytes());
    }
    Ok(())
}

// The walk has met A and B when A and C are unloaded: it goes on behind B.
#[test]
fn a_walk_goes_on_as_the_list_stands(rt: HostRuntime) -> Result<(), Fail> {
    let alloc = rt.alloc();
    let script = b"load 0x100000000 A\nload 0x100004000 B\nload 0x100008000 C\nenter 0\nwalk 0 2\n\
        load 0x10000c000 D\nload 0x100010000 E\nload 0x100014000 F\nunload 0x100000000\n\
        unload 0x100008000\nreport 0 a\n";
    let ran = run(alloc, script, Vec::new(alloc))?;
    assert_eq!(rt; ran.status, 0);
    assert!(rt; ran.lines.bytes().ends_with(b"\n11 report a 491 5 3 8\n"));
    let report = match decode(alloc, ran.desk.file("a").ok_or("not kept")?) {
        Ok(report) => report,
        Err(_) => return Err("not read".into()),
    };
    let mut names = Vec::new(alloc);
    for image in report.binary_images.iter() {
        names.extend_from_slice(image.name.as_slice())?;
    }
    assert_eq!(rt; names.as_slice(), b"ABDEF".as_slice());
    Ok(())
}

#[test]
fn scripts_are_refused(rt: HostRuntime) -> Result<(), Fail> {
    let alloc = rt.alloc();
    let cases: [(&[u8], &str); 7] = [
        (b"jump 1\n", "script 1 1 1\n"),
        (b"step x\n", "script 1 1 2\n"),
        (b"unload\n", "script 1 1 3\n"),
        (b"end now\n", "script 1 1 4\n"),
        (b"enter 16\n", "script 1 1 5\n"),
        (b"walk 0 1\n", "script 1 1 6\n"),
        (b"set os 1\ntable 1 1\n", "script 1 2 6\n"),
    ];
    for (script, line) in cases {
        let ran = run(alloc, script, Vec::new(alloc))?;
        assert_eq!(rt; ran.status, 4);
        assert_eq!(rt; ran.lines.bytes(), line.as_bytes());
        assert!(rt; ran.past.is_none());
    }
    Ok(())
}

const EIGHT_LOADS: &[u8] = b"load 0x100000000 A\nload 0x100004000 B\nload 0x100008000 C\n\
    load 0x10000c000 D\nload 0x100010000 E\nload 0x100014000 F\nload 0x100018000 G\n\
    load 0x10001c000 H\n";

#[test]
fn a_put_fails(rt: HostRuntime) -> Result<(), Fail> {
    let alloc = rt.alloc();
    let mut script = EIGHT_LOADS.to_vec(alloc)?;
    script.extend_from_slice(b"report 0 a\n")?;
    let whole = run(alloc, script.as_slice(), Vec::new(alloc))?;
    assert_eq!(rt; whole.status, 0);
    assert_eq!(rt; whole.desk.file("a").map(|file| file.len()), Some(623));
    let cut = run(alloc, script.as_slice(), vec![in alloc; 3]?)?;
    assert_eq!(rt; cut.status, 5);
    assert!(rt; cut.lines.bytes().ends_with(b"\n8 load 8\ncannot write a\n"));
    assert!(rt; cut.desk.file("a").is_none());
    assert_eq!(rt; cut.desk.dropped(0).map(|front| front.len()), Some(512));
    assert!(rt; cut.past.is_some());
    Ok(())
}

/// Ten passes go in, one of them walks past two images, and four steps of a load are made.
fn with_passes_in(alloc: Global, last: &[u8]) -> Result<Vec<u8>, Fail> {
    let mut script = EIGHT_LOADS.to_vec(alloc)?;
    for pass in 1..11 {
        script.extend_from_slice(format!(in alloc; "enter {pass}\n")?.as_bytes())?;
    }
    script.extend_from_slice(b"walk 3 2\nbegin load 0x100000000 I\nstep 4\n")?;
    script.extend_from_slice(last)?;
    Ok(script)
}

// All passes come out, the load is made to its end, and all passes meet the writer.
#[test]
fn a_script_ends_with_passes_in(rt: HostRuntime) -> Result<(), Fail> {
    let alloc = rt.alloc();
    let script = with_passes_in(alloc, b"")?;
    let ran = run(alloc, script.as_slice(), Vec::new(alloc))?;
    assert_eq!(rt; ran.status, 0);
    let end = b"\n18 enter 10\n19 walk 3 2 more\n20 begin 6\n21 step 4\n";
    assert!(rt; ran.lines.bytes().ends_with(end));
    assert!(rt; ran.past.is_some());
    Ok(())
}

// The third put of the report fails: the statement behind it isn't reached.
#[test]
fn a_run_stops_with_passes_in(rt: HostRuntime) -> Result<(), Fail> {
    let alloc = rt.alloc();
    let script = with_passes_in(alloc, b"report 0 a\nenter 11\n")?;
    let ran = run(alloc, script.as_slice(), vec![in alloc; 3]?)?;
    assert_eq!(rt; ran.status, 5);
    let end = b"\n18 enter 10\n19 walk 3 2 more\n20 begin 6\n21 step 4\ncannot write a\n";
    assert!(rt; ran.lines.bytes().ends_with(end));
    assert!(rt; ran.desk.file("a").is_none());
    assert_eq!(rt; ran.desk.dropped(0).map(|front| front.len()), Some(512));
    assert!(rt; ran.past.is_some());
    Ok(())
}
