//! The command `show`: the text of a report, and what it says of files that are none.

use crate::fixtures::REPORT;
use crate::show::show_command;
use crate::top::top;
use plcr_io::{MemDesk, MemFile, MemOut};
use plcr_workers::NoGate;
use std::alloc::{AllocError, Global};
use std::test::Fail;

/// The text of the report of one thread.
const TEXT: &str = "\
report 1\n\
system 0 0 1 0\n\
application app 1\n\
thread 0 crashed\n\
frame 0 0x0000000100000f50\n\
register rax 0x0000000000000000\n\
register rbx 0x0000000000000000\n\
register rcx 0x0000000000000000\n\
register rdx 0x0000000000000000\n\
register rdi 0x0000000000000000\n\
register rsi 0x0000000000000000\n\
register rbp 0x0000000000000000\n\
register rsp 0x0000000000007000\n\
register r8 0x0000000000000000\n\
register r9 0x0000000000000000\n\
register r10 0x0000000000000000\n\
register r11 0x0000000000000000\n\
register r12 0x0000000000000000\n\
register r13 0x0000000000000000\n\
register r14 0x0000000000000000\n\
register r15 0x0000000000000000\n\
register rip 0x0000000100000f50\n\
register rflags 0x0000000000000000\n\
register cs 0x0000000000000000\n\
register fs 0x0000000000000000\n\
register gs 0x0000000000000000\n\
signal SIGABRT #0 0x0000000000000000\n\
process app 0 0 1\n\
info 0\n\
";

/// A desk that has this file under the name `r`, and whose call of this number fails.
fn desk(alloc: Global, bytes: Vec<u8>, failing: u32) -> Result<MemDesk, Fail> {
    let name = String::from_str(alloc, "r")?;
    let files = vec![in alloc; MemFile { name, bytes }]?;
    let failing = vec![in alloc; failing]?;
    Ok(MemDesk::new(alloc, files, Vec::new(alloc), failing)?)
}

/// What `show` answers and prints for this file, to a sink whose put of this number fails and which
/// takes so many bytes a put.
fn shown(alloc: Global, bytes: &[u8], most: usize, failing: u32) -> Result<(u8, MemOut), Fail> {
    let mut desk = desk(alloc, Vec::from_slice(alloc, bytes)?, 0)?;
    let mut lines = MemOut::new(alloc, 2000, most.max(1), vec![in alloc; failing]?)?;
    let status = show_command(alloc, "r", &mut desk, &mut lines);
    Ok((status, lines))
}

/// The report of one thread in other words: its last field first, a field that isn't known, the
/// system in two parts, and the application's version twice, the last of which counts.
fn in_other_words(alloc: Global) -> Result<Vec<u8>, AllocError> {
    let mut bytes = Vec::from_slice(alloc, &REPORT[..8])?;
    bytes.extend_from_slice(&[0x4a, 0x02, 0x08, 0x00])?;
    bytes.extend_from_slice(&[0x78, 0x05])?;
    bytes.extend_from_slice(&[0x0a, 0x05, 0x08, 0x00, 0x12, 0x01, 0x30])?;
    bytes.extend_from_slice(&[0x0a, 0x04, 0x18, 0x01, 0x20, 0x00])?;
    bytes.extend_from_slice(&[
        0x12, 0x0b, 0x0a, 0x03, 0x61, 0x70, 0x70, 0x12, 0x01, 0x39, 0x12, 0x01, 0x31,
    ])?;
    bytes.extend_from_slice(&REPORT[29..267])?;
    Ok(bytes)
}

#[test]
fn shows_by_its_words(rt: HostRuntime) -> Result<(), Fail> {
    let alloc = rt.alloc();
    let mut desk = desk(alloc, Vec::from_slice(alloc, &REPORT)?, 0)?;
    let mut lines = MemOut::new(alloc, 2000, 100, Vec::new(alloc))?;
    let show = String::from_str(alloc, "show")?;
    let report = String::from_str(alloc, "r")?;
    let words = vec![in alloc; show, report]?;
    let status = top(
        &rt,
        alloc,
        words.as_slice(),
        &mut desk,
        &mut lines,
        &NoGate,
        &mut None,
    );
    assert_eq!(rt; status, 0);
    assert_eq!(rt; lines.bytes(), TEXT.as_bytes());
    Ok(())
}

#[test]
fn shows_the_same_in_other_words(rt: HostRuntime) -> Result<(), Fail> {
    let alloc = rt.alloc();
    let bytes = in_other_words(alloc)?;
    let (status, lines) = shown(alloc, bytes.as_slice(), 100, 0)?;
    assert_eq!(rt; status, 0);
    assert_eq!(rt; lines.bytes(), TEXT.as_bytes());
    Ok(())
}

#[test]
fn names_the_fault(rt: HostRuntime) -> Result<(), Fail> {
    let alloc = rt.alloc();
    let cases: [(&[u8], &str); 12] = [
        (b"plcra", "report magic\n"),
        (b"plcrasx\x01", "report magic\n"),
        (b"plcrash", "report truncated 7\n"),
        (b"plcrash\x03", "report version 3\n"),
        (b"plcrash\x01", "report missing root 1\n"),
        (&REPORT[..270], "report truncated 270\n"),
        // a system of no fields, alone
        (b"plcrash\x01\x0a\x00", "report missing root 2\n"),
        // field 1 of the root as a number
        (b"plcrash\x01\x08\x05", "report wrongwire 1 8\n"),
        // a number of field 0
        (b"plcrash\x01\x78\x05\x00\x05", "report badtag 10\n"),
        // a group begins
        (b"plcrash\x01\x7b", "report badtag 8\n"),
        // a length of 2^64 - 1
        (
            b"plcrash\x01\x7a\xff\xff\xff\xff\xff\xff\xff\xff\xff\x01",
            "report truncated 19\n",
        ),
        // a number of 65 bits
        (
            b"plcrash\x01\x78\xff\xff\xff\xff\xff\xff\xff\xff\xff\x02",
            "report badvarint 9\n",
        ),
    ];
    for (bytes, line) in cases {
        let (status, lines) = shown(alloc, bytes, 100, 0)?;
        assert_eq!(rt; status, 6);
        assert_eq!(rt; lines.bytes(), line.as_bytes());
    }
    Ok(())
}

/// The line for the first so many bytes of the report of one thread; the text where they are a
/// report.
fn cut_line(alloc: Global, n: usize) -> Result<String, AllocError> {
    match n {
        0..=6 => String::from_str(alloc, "report magic\n"),
        8 => String::from_str(alloc, "report missing root 1\n"),
        19 => String::from_str(alloc, "report missing root 2\n"),
        29 | 237 => String::from_str(alloc, "report missing root 6\n"),
        254 | 267 => String::from_str(alloc, "text"),
        _ => format!(in alloc; "report truncated {n}\n"),
    }
}

#[test]
fn tells_of_each_cut(rt: HostRuntime) -> Result<(), Fail> {
    let alloc = rt.alloc();
    for n in 0..271usize {
        let (status, lines) = shown(alloc, &REPORT[..n], 100, 0)?;
        let want = cut_line(alloc, n)?;
        if want.as_str() == "text" {
            assert_eq!(rt; status, 0);
            assert!(rt; lines.bytes().starts_with(b"report 1\nsystem 0 0 1 0\n"));
        } else {
            assert_eq!(rt; status, 6);
            assert_eq!(rt; lines.bytes(), want.as_bytes());
        }
    }
    Ok(())
}

#[test]
fn leaves_out_what_is_not_there(rt: HostRuntime) -> Result<(), Fail> {
    let alloc = rt.alloc();
    let whole = TEXT.as_bytes();
    let process = b"process app 0 0 1\n".len();
    let info = b"info 0\n".len();
    let (_, without_both) = shown(alloc, &REPORT[..254], 100, 0)?;
    let (_, without_info) = shown(alloc, &REPORT[..267], 100, 0)?;
    assert_eq!(rt; without_both.bytes().len() + process + info, whole.len());
    assert!(rt; whole.starts_with(without_both.bytes()));
    assert_eq!(rt; without_info.bytes().len() + info, whole.len());
    assert!(rt; whole.starts_with(without_info.bytes()));
    Ok(())
}

#[test]
fn refuses_more_than_the_limit(rt: HostRuntime) -> Result<(), Fail> {
    let alloc = rt.alloc();
    let mut desk = desk(alloc, vec![in alloc; 0; 67_108_865]?, 0)?;
    let mut lines = MemOut::new(alloc, 100, 100, Vec::new(alloc))?;
    let status = show_command(alloc, "r", &mut desk, &mut lines);
    assert_eq!(rt; status, 2);
    assert_eq!(rt; lines.bytes(), b"too long r 67108864\n".as_slice());
    Ok(())
}

#[test]
fn tells_what_it_cannot_read(rt: HostRuntime) -> Result<(), Fail> {
    let alloc = rt.alloc();
    let cases = [
        ("r", 1, "cannot read r\n"),
        ("nowhere", 0, "cannot read nowhere\n"),
    ];
    for (name, failing, line) in cases {
        let mut desk = desk(alloc, Vec::from_slice(alloc, &REPORT)?, failing)?;
        let mut lines = MemOut::new(alloc, 100, 100, Vec::new(alloc))?;
        let status = show_command(alloc, name, &mut desk, &mut lines);
        assert_eq!(rt; status, 2);
        assert_eq!(rt; lines.bytes(), line.as_bytes());
    }
    Ok(())
}

#[test]
fn stops_at_each_put(rt: HostRuntime) -> Result<(), Fail> {
    let alloc = rt.alloc();
    let whole = TEXT.as_bytes();
    for k in 1..=818 {
        let (status, lines) = shown(alloc, &REPORT, 1, k)?;
        assert_eq!(rt; status, 5);
        assert_eq!(rt; lines.bytes().len(), k as usize - 1);
        assert!(rt; whole.starts_with(lines.bytes()));
    }
    let (status, _) = shown(alloc, &REPORT, 1, 819)?;
    assert_eq!(rt; status, 0);
    Ok(())
}

#[test]
fn keeps_its_status_where_the_line_fails(rt: HostRuntime) -> Result<(), Fail> {
    let alloc = rt.alloc();
    let (status, lines) = shown(alloc, b"plcra", 7, 2)?;
    assert_eq!(rt; status, 6);
    assert_eq!(rt; lines.bytes(), b"report ".as_slice());
    Ok(())
}
