use crate::fixtures::{Core, REPORT, desk, lines, words};
use crate::report::report_command;
use crate::top::top;
use plcr_io::MemOut;
use plcr_workers::NoGate;
use std::alloc::Global;
use std::sync::Wait;
use std::test::Fail;
use std::thread::Threads;

#[test]
fn reports_one_thread(rt: HostRuntime) -> Result<(), Fail> {
    let alloc = rt.alloc();
    let mut desk = desk(
        alloc,
        Core::Whole,
        b"report 0 a.plcrash\n",
        Vec::new(alloc),
        Vec::new(alloc),
    )?;
    let mut lines = lines(alloc)?;
    let report = String::from_str(alloc, "report")?;
    let core = String::from_str(alloc, "c")?;
    let script = String::from_str(alloc, "s")?;
    let words = vec![in alloc; report, core, script]?;
    let status = top(
        &rt,
        alloc,
        words.as_slice(),
        &mut desk,
        &mut lines,
        &NoGate,
        &mut None,
    );
    assert_eq!(rt; status, 0);
    assert_eq!(rt; lines.bytes(), b"1 report a.plcrash 271 0 0 0\n".as_slice());
    assert_eq!(rt;
        desk.file("a.plcrash").ok_or("not kept")?,
        REPORT.as_slice()
    );
    Ok(())
}

/// What `top` answers and prints for the first of these words, on a desk with a core and a script.
fn said<R: Threads + Wait + Sync>(
    rt: &R,
    alloc: Global,
    script: &[u8],
    said: &[&str],
) -> Result<(u8, MemOut), Fail> {
    let owned = words(alloc, said)?;
    let mut desk = desk(alloc, Core::Whole, script, Vec::new(alloc), Vec::new(alloc))?;
    let mut lines = lines(alloc)?;
    let status = top(
        rt,
        alloc,
        owned.as_slice(),
        &mut desk,
        &mut lines,
        &NoGate,
        &mut None,
    );
    Ok((status, lines))
}

#[test]
fn tells_the_forms(rt: HostRuntime) -> Result<(), Fail> {
    let alloc = rt.alloc();
    let usage =
        "usage: report CORE SCRIPT / show REPORT / make N CORE SCRIPT / threads CORE SCRIPT...\n";
    let long = vec![in alloc; 0x23; 16_777_217]?;
    let two = b"# x\n\nreport 0 a\nreport 1 b".as_slice();
    let cases: [(&[u8], &[&str], u8, &str); 6] = [
        (b"", &[], 1, usage),
        (b"", &["report", "c"], 1, usage),
        (b"", &["--help"], 1, usage),
        (b"", &["report", "nowhere", "s"], 2, "cannot read nowhere\n"),
        (
            long.as_slice(),
            &["report", "c", "s"],
            2,
            "too long s 16777216\n",
        ),
        (
            two,
            &["report", "c", "s"],
            0,
            "3 report a 271 0 0 0\n4 report b 271 0 0 0\n",
        ),
    ];
    for (script, words, want, line) in cases {
        let (status, lines) = said(&rt, alloc, script, words)?;
        assert_eq!(rt; status, want);
        assert_eq!(rt; lines.bytes(), line.as_bytes());
    }
    Ok(())
}

// A wrapping state is the state that it holds.
#[test]
fn a_wrapped_state_is_reported_alike(rt: HostRuntime) -> Result<(), Fail> {
    let alloc = rt.alloc();
    let mut desk = desk(
        alloc,
        Core::WrappedState,
        b"report 0 a\n",
        Vec::new(alloc),
        Vec::new(alloc),
    )?;
    let mut lines = lines(alloc)?;
    let status = report_command(alloc, "c", "s", &mut desk, &mut lines, &mut None);
    assert_eq!(rt; status, 0);
    assert_eq!(rt; lines.bytes(), b"1 report a 271 0 0 0\n".as_slice());
    assert_eq!(rt; desk.file("a").ok_or("not kept")?, REPORT.as_slice());
    Ok(())
}

// A run that ends with a line of its own.
#[derive(Clone, Copy)]
struct Ended {
    core: Core,
    script: &'static [u8],
    // The number of the desk's call that fails, from 1; 0 where none does.
    failing: u32,
    status: u8,
    said: &'static str,
    // Whether the first output was kept, and the second begun.
    kept: bool,
}

// The script takes one report.
fn of_core(core: Core, status: u8, said: &'static str) -> Ended {
    Ended {
        core,
        script: b"report 0 a\n",
        failing: 0,
        status,
        said,
        kept: false,
    }
}

fn of_script(script: &'static [u8], said: &'static str) -> Ended {
    Ended {
        script,
        ..of_core(Core::Whole, 4, said)
    }
}

fn of_call(failing: u32, status: u8, said: &'static str) -> Ended {
    Ended {
        failing,
        ..of_core(Core::Whole, status, said)
    }
}

#[test]
fn refuses_and_stops(rt: HostRuntime) -> Result<(), Fail> {
    let alloc = rt.alloc();
    let two = Ended {
        script: b"report 0 a\nreport 15 b\n",
        kept: true,
        ..of_core(Core::Whole, 5, "1 report a 271 0 0 0\ncannot write b\n")
    };
    let cases = [
        of_core(Core::Cut, 3, "core truncated 100\n"),
        of_core(Core::Executable, 3, "core notcore 4277009103 2\n"),
        of_core(Core::Overlapping, 3, "core overlap 0 1\n"),
        of_core(Core::Wrapping, 3, "core wraps 1\n"),
        of_core(Core::WithoutThread, 3, "core nothread\n"),
        of_script(b"# one\n\nreport 0 a\nreport 0x1 a", "script 1 4 6\n"),
        of_script(b"report 0 a\r\n", "script 1 1 1\n"),
        of_script(b"jump 1", "script 1 1 1\n"),
        of_call(1, 2, "cannot read c\n"),
        of_call(2, 2, "cannot read s\n"),
        of_call(3, 5, "cannot write a\n"),
        of_call(4, 5, "cannot write a\n"),
        two,
    ];
    for case in cases {
        let failing = vec![in alloc; case.failing]?;
        let mut desk = desk(alloc, case.core, case.script, failing, vec![in alloc; 2]?)?;
        let mut lines = lines(alloc)?;
        let status = report_command(alloc, "c", "s", &mut desk, &mut lines, &mut None);
        assert_eq!(rt; status, case.status);
        assert_eq!(rt; lines.bytes(), case.said.as_bytes());
        assert_eq!(rt; desk.file("a").is_some(), case.kept);
        assert!(rt; desk.file("b").is_none());
        assert_eq!(rt;
            desk.dropped(0).map(|front| front.len()),
            if case.kept { Some(100) } else { None }
        );
    }
    Ok(())
}

#[test]
fn stops_at_a_line(rt: HostRuntime) -> Result<(), Fail> {
    let alloc = rt.alloc();
    let mut desk = desk(
        alloc,
        Core::Whole,
        b"report 0 a\nreport 0 b\n",
        Vec::new(alloc),
        Vec::new(alloc),
    )?;
    let mut lines = MemOut::new(alloc, 9, 16, Vec::new(alloc))?;
    let status = report_command(alloc, "c", "s", &mut desk, &mut lines, &mut None);
    assert_eq!(rt; status, 5);
    assert_eq!(rt; lines.bytes(), b"1 report ".as_slice());
    assert_eq!(rt; desk.file("a").ok_or("not kept")?, REPORT.as_slice());
    assert!(rt; desk.file("b").is_none());
    Ok(())
}
