use crate::fixtures::{Core, REPORT, desk, lines};
use crate::report::report_command;
use crate::show::show_command;
use plcr_io::{MemDesk, MemFile, MemOut};
use std::alloc::Global;
use std::test::Fail;

// What the command prints on a core with images, at status 0.
fn log_is(
    alloc: Global,
    rt: &impl std::process::Abort,
    script: &[u8],
    log: &str,
) -> Result<(), Fail> {
    let none = Vec::new(alloc);
    let mut desk = desk(alloc, Core::WithImages, script, none, Vec::new(alloc))?;
    let mut lines = lines(alloc)?;
    let status = report_command(alloc, "c", "s", &mut desk, &mut lines, &mut None);
    assert_eq!(rt; status, 0);
    assert_eq!(rt; lines.bytes(), log.as_bytes());
    Ok(())
}

#[test]
fn a_list_of_one_node_is_full(rt: HostRuntime) -> Result<(), Fail> {
    log_is(
        rt.alloc(),
        &rt,
        b"table 1 1\nload 0x100000000 A\nload 0x100004000 B\nunload 0x100000000\nload 0x100004000 B\n",
        "2 load 1\n3 full 1 0 4294967296\n4 unload 1\n5 load 2\n",
    )
}

#[test]
fn loads_without_an_image_are_refused(rt: HostRuntime) -> Result<(), Fail> {
    log_is(
        rt.alloc(),
        &rt,
        b"load 0x5000 x\nload 0x7000 x\nunload 0x5000\n",
        "1 notimage 1\n2 notimage 2\n3 notloaded\n",
    )
}

#[test]
fn a_name_has_up_to_1024_bytes(rt: HostRuntime) -> Result<(), Fail> {
    let alloc = rt.alloc();
    for (length, log) in [(1024, "1 load 1\n"), (1025, "1 long 1025\n")] {
        let mut script = b"load 0x100000000 ".to_vec(alloc)?;
        for _ in 0..length {
            script.push(b'n')?;
        }
        log_is(alloc, &rt, script.as_slice(), log)?;
    }
    Ok(())
}

// The report of the thread, with the image at 0x100000000 under the name y before the signal.
#[test]
fn the_first_image_of_a_header_is_unloaded(rt: HostRuntime) -> Result<(), Fail> {
    let alloc = rt.alloc();
    let script = b"load 0x100000000 x\nload 0x100000000 y\nunload 0x100000000\nreport 0 a\n\
        unload 0x100000000\nunload 0x100000000\n";
    let none = Vec::new(alloc);
    let mut desk = desk(alloc, Core::WithImages, script, none, Vec::new(alloc))?;
    let mut lines = lines(alloc)?;
    let status = report_command(alloc, "c", "s", &mut desk, &mut lines, &mut None);
    assert_eq!(rt; status, 0);
    assert_eq!(rt;
        lines.bytes(),
        b"1 load 1\n2 load 2\n3 unload 1\n4 report a 315 1 3 3\n5 unload 2\n6 notloaded\n".as_slice()
    );
    let image = [
        0x22, 0x2a, 0x08, 0x80, 0x80, 0x80, 0x80, 0x10, 0x10, 0x80, 0x80, 0x01, 0x1a, 0x01, b'y',
        0x22, 0x10, 0, 0, 0, 0, 0, 0, 0, 0, 0, 0, 0, 0, 0, 0, 0, 0, 0x2a, 0x09, 0x08, 0x01, 0x10,
        0x87, 0x80, 0x80, 0x08, 0x18, 0x03,
    ];
    let mut report = Vec::from_slice(alloc, &REPORT[..237])?;
    report.extend_from_slice(&image)?;
    report.extend_from_slice(&REPORT[237..])?;
    assert_eq!(rt; desk.file("a").ok_or("not kept")?, report.as_slice());
    Ok(())
}

// The name `a b` is as long as `app`, so the report has as many bytes.
#[test]
fn values_stand_in_reports(rt: HostRuntime) -> Result<(), Fail> {
    let alloc = rt.alloc();
    let script = b"set os 1\nset process a b\nreport 0 f\n";
    let none = Vec::new(alloc);
    let mut desk = desk(alloc, Core::Whole, script, none, Vec::new(alloc))?;
    let mut lines = lines(alloc)?;
    let status = report_command(alloc, "c", "s", &mut desk, &mut lines, &mut None);
    assert_eq!(rt; status, 0);
    assert_eq!(rt; lines.bytes(), b"3 report f 271 0 0 0\n".as_slice());
    let mut report = Vec::from_slice(alloc, &REPORT)?;
    assert!(rt; report.len() == 271);
    report[11] = 1;
    report[259] = b' ';
    report[260] = b'b';
    assert_eq!(rt; desk.file("f").ok_or("not kept")?, report.as_slice());
    Ok(())
}

// What is kept is shown: the values stand in the lines of the system and of the process, whose
// space is spelt out.
#[test]
fn values_are_shown(rt: HostRuntime) -> Result<(), Fail> {
    let alloc = rt.alloc();
    let script = b"set os 1\nset process a b\nreport 0 f\n";
    let none = Vec::new(alloc);
    let mut desk = desk(alloc, Core::Whole, script, none, Vec::new(alloc))?;
    let mut lines = lines(alloc)?;
    let status = report_command(alloc, "c", "s", &mut desk, &mut lines, &mut None);
    assert_eq!(rt; status, 0);
    assert_eq!(rt; lines.bytes(), b"3 report f 271 0 0 0\n".as_slice());
    let kept = desk.file("f").ok_or("not kept")?;
    let file = MemFile {
        name: String::from_str(alloc, "f")?,
        bytes: Vec::from_slice(alloc, kept)?,
    };
    let files = vec![in alloc; file]?;
    let mut second = MemDesk::new(alloc, files, Vec::new(alloc), Vec::new(alloc))?;
    let mut text = MemOut::new(alloc, 2000, 100, Vec::new(alloc))?;
    let status = show_command(alloc, "f", &mut second, &mut text);
    assert_eq!(rt; status, 0);
    assert!(rt;
        text.bytes()
            .starts_with(b"report 1\nsystem 1 0 1 0\napplication app 1\n")
    );
    assert!(rt;
        text.bytes().ends_with(
            b"signal SIGABRT #0 0x0000000000000000\nprocess a\\x20b 0 0 1\ninfo 0\n"
        )
    );
    Ok(())
}
