use crate::files::{core_file, script_file};
use crate::{
    CORE_LIMIT, MOST_SCRIPTS, Modes, REPORT_LIMIT, Refusal, SCRIPT_LIMIT, Unsaved, read_job,
    refuse, report_file, save_bytes,
};
use plcr_io::{MemDesk, MemFile, MemOut};
use plcr_script::Mode;
use std::alloc::{AllocError, Global};
use std::test::Fail;

/// A core of no memory and one thread.
fn core_bytes(alloc: Global) -> Result<Vec<u8>, AllocError> {
    let mut bytes = Vec::new(alloc);
    let head = [0xfeed_facf, 0x0100_0007, 3, 4, 1, 184, 0, 0];
    for number in head.iter().chain([4, 184, 4, 42].iter()) {
        bytes.extend_from_slice(&u32::to_le_bytes(*number))?;
    }
    bytes.resize(32 + 184, 0)?;
    Ok(bytes)
}

/// A desk with the core `c` and two scripts, `s` and `t`.
fn desk(alloc: Global, first: &[u8], second: &[u8]) -> Result<MemDesk, Fail> {
    let core = MemFile {
        name: String::from_str(alloc, "c")?,
        bytes: core_bytes(alloc)?,
    };
    let first = MemFile {
        name: String::from_str(alloc, "s")?,
        bytes: Vec::from_slice(alloc, first)?,
    };
    let second = MemFile {
        name: String::from_str(alloc, "t")?,
        bytes: Vec::from_slice(alloc, second)?,
    };
    let files = vec![in alloc; core, first, second]?;
    Ok(MemDesk::new(alloc, files, Vec::new(alloc), Vec::new(alloc))?)
}

const MODES: Modes = Modes {
    first: Mode::Single,
    later: Mode::Single,
};

#[test]
fn reads_scripts_in_their_order(rt: HostRuntime) -> Result<(), Fail> {
    let alloc = rt.alloc();
    let mut desk = desk(alloc, b"report 0 a\n", b"load 1 x\n\nunload 1\n")?;
    match read_job(alloc, MODES, "c", &["s", "t"], &mut desk) {
        Ok(job) => {
            assert_eq!(rt; job.scripts.len(), 2);
            assert_eq!(rt; job.scripts.as_slice()[0].len(), 1);
            assert_eq!(rt; job.scripts.as_slice()[1].len(), 2);
            assert_eq!(rt; job.scripts.as_slice()[1].line(1), 3);
        }
        Err(_) => assert!(rt; false),
    }
    Ok(())
}

#[test]
fn names_the_first_refused_script(rt: HostRuntime) -> Result<(), Fail> {
    let alloc = rt.alloc();
    let cases: [(&[u8], &[u8], &str); 3] = [
        (b"# one\n", b"# two\nunload\n", "script 2 2 3\n"),
        // the first script writes the file
        (b"report 0 a\n", b"report 0 a\n", "script 2 1 6\n"),
        (b"jump 1\n", b"unload\n", "script 1 1 1\n"),
    ];
    for (first, second, line) in cases {
        let mut desk = desk(alloc, first, second)?;
        let mut lines = MemOut::new(alloc, 100, 100, Vec::new(alloc))?;
        match read_job(alloc, MODES, "c", &["s", "t"], &mut desk) {
            Ok(_) => assert!(rt; false),
            Err(refusal) => {
                let told = refuse(alloc, refusal, &mut lines);
                assert!(rt; matches!(told, Refusal::ScriptRefused { .. }));
            }
        }
        assert_eq!(rt; lines.bytes(), line.as_bytes());
    }
    Ok(())
}

#[test]
fn keeps_bytes_whole_or_not_at_all(rt: HostRuntime) -> Result<(), Fail> {
    let alloc = rt.alloc();
    // the desk's call, or the output's put, that fails
    let cases = [(0, 0, true), (1, 0, false), (2, 0, false), (0, 2, false)];
    for (call, put, kept) in cases {
        let out = MemOut::new(alloc, 100, 4, vec![in alloc; put]?)?;
        let outs = vec![in alloc; out]?;
        let mut desk = MemDesk::new(alloc, Vec::new(alloc), outs, vec![in alloc; call]?)?;
        let saved = save_bytes("a", b"seven b", &mut desk);
        assert_eq!(rt; saved, if kept { Ok(()) } else { Err(Unsaved) });
        assert_eq!(rt; desk.file("a").is_some(), kept);
        assert_eq!(rt;
            desk.dropped(0).map(|front| front.len()),
            if put == 2 { Some(4) } else { None }
        );
    }
    Ok(())
}

// 1 GiB, 16 MiB and 64 MiB.
#[test]
fn limits_are_these_numbers(rt: HostRuntime) {
    assert_eq!(rt; CORE_LIMIT, 1_073_741_824);
    assert_eq!(rt; SCRIPT_LIMIT, 16_777_216);
    assert_eq!(rt; REPORT_LIMIT, 67_108_864);
    assert_eq!(rt; MOST_SCRIPTS, 64);
    assert_eq!(rt; core_file("c").limit, 1_073_741_824);
    assert_eq!(rt; script_file("s").limit, 16_777_216);
    assert_eq!(rt; report_file("r").limit, 67_108_864);
}
