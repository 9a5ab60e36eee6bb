//! Scripts that run side by side, where something fails or is refused.
use crate::fixtures::{Core, core_bytes, file_of, words};
use crate::threads_tests::{LOAD_A, REPORT, Signal, run};
use crate::top::top;
use plcr_io::{MemDesk, MemOut};
use plcr_workers::{Gate, NoGate};
use std::test::Fail;

/// Notes of which scripts a change was asked for.
#[derive(Drop)]
struct Asked {
    first: Signal,
    second: Signal,
}

impl Asked {
    fn new() -> Asked {
        Asked {
            first: Signal::new(),
            second: Signal::new(),
        }
    }
}

impl Gate for Asked {
    fn before_change(&self, script: u32, _line: u32) {
        if script == 1 {
            self.first.give();
        } else {
            self.second.give();
        }
    }

    fn inside_hold(&self, _script: u32, _line: u32) {}
}

#[test]
fn refuses_scripts_by_their_numbers(rt: HostRuntime) -> Result<(), Fail> {
    let cases: [(&[&str], &str); 8] = [
        (
            &["load 0x100000000 A\nbegin load 0x100004000 B\n"],
            "script 1 2 6\n",
        ),
        (&["enter 1\n"], "script 1 1 5\n"),
        (&["begin load 0x100000000 A\n", ""], "script 1 1 6\n"),
        (&["load 0x100000000 A\nend\n", ""], "script 1 2 6\n"),
        (&["report 1 t\n", ""], "script 1 1 5\n"),
        (&["", "set os 1\n"], "script 2 1 6\n"),
        (&[REPORT, "# again\nreport 0 t\n"], "script 2 2 6\n"),
        (&["", "table 1 1\n"], "script 2 1 6\n"),
    ];
    for (scripts, line) in cases {
        let came = run(&rt, rt.alloc(), scripts, &NoGate, &[], &[], &[])?;
        assert_eq!(rt; came.status, 4);
        assert_eq!(rt; came.lines.bytes(), line.as_bytes());
        assert!(rt; came.past.is_none());
    }
    Ok(())
}

#[test]
fn an_output_that_fails_ends_its_script_alone(rt: HostRuntime) -> Result<(), Fail> {
    let scripts = ["load 0x100000000 A\n", "report 0 t\nload 0x100004000 B\n"];
    let gate = Asked::new();
    let came = run(&rt, rt.alloc(), &scripts, &gate, &[], &[1], &[])?;
    assert_eq!(rt; came.status, 5);
    assert_eq!(rt; came.lines.bytes(), b"cannot write t\n".as_slice());
    assert!(rt; came.desk.file("t").is_none());
    assert_eq!(rt; came.desk.dropped(0).map(|front| front.len()), Some(0));
    assert!(rt; came.past.is_some());
    assert!(rt; gate.first.was_given());
    assert!(rt; !gate.second.was_given());
    let came = run(&rt, rt.alloc(), &[LOAD_A, REPORT], &NoGate, &[], &[1], &[])?;
    assert_eq!(rt; came.status, 5);
    assert_eq!(rt; came.lines.bytes(), b"cannot write t\n".as_slice());
    assert!(rt; came.desk.file("t").is_none());
    assert!(rt; came.past.is_some());
    Ok(())
}

#[test]
fn an_output_that_is_not_made_starts_no_worker(rt: HostRuntime) -> Result<(), Fail> {
    // The takes are the calls 1 to 3, and the makes 4 and 5.
    let scripts = ["report 0 a\n", "report 0 b\nload 0x100000000 A\n"];
    let gate = Asked::new();
    let came = run(&rt, rt.alloc(), &scripts, &gate, &[5], &[], &[])?;
    assert!(rt; !gate.first.was_given());
    assert!(rt; !gate.second.was_given());
    assert_eq!(rt; came.status, 5);
    assert_eq!(rt; came.lines.bytes(), b"cannot write b\n".as_slice());
    assert!(rt; came.desk.file("a").is_none());
    assert_eq!(rt; came.desk.dropped(0).map(|front| front.len()), Some(0));
    assert!(rt; came.past.is_some());
    Ok(())
}

#[test]
fn files_before_the_first_that_is_not_kept_stay(rt: HostRuntime) -> Result<(), Fail> {
    // The takes are the calls 1 to 4, the makes 5 to 7, and the keeps 8 to 10.
    let scripts = ["report 0 a\n", "report 0 b\n", "report 0 c\n"];
    let came = run(&rt, rt.alloc(), &scripts, &NoGate, &[9], &[], &[])?;
    assert_eq!(rt; came.status, 5);
    assert_eq!(rt; came.lines.bytes(), b"cannot write b\n".as_slice());
    assert!(rt; came.desk.file("a").is_some());
    assert!(rt; came.desk.file("b").is_none());
    assert!(rt; came.desk.file("c").is_none());
    // The last was written whole, and was given up.
    assert_eq!(rt; came.desk.dropped(0).map(|front| front.len()), Some(271));
    assert!(rt; came.past.is_some());
    Ok(())
}

#[test]
fn a_log_that_is_cut_leaves_the_files(rt: HostRuntime) -> Result<(), Fail> {
    for (put, front) in [(1, ""), (2, "1:1 load 1\n")] {
        let came = run(
            &rt,
            rt.alloc(),
            &[LOAD_A, REPORT],
            &NoGate,
            &[],
            &[],
            &[put],
        )?;
        assert_eq!(rt; came.status, 5);
        assert_eq!(rt; came.lines.bytes(), front.as_bytes());
        assert!(rt; came.desk.file("t").is_some());
        assert!(rt; came.past.is_some());
    }
    Ok(())
}

#[test]
fn files_that_cannot_be_read_are_named(rt: HostRuntime) -> Result<(), Fail> {
    // The takes are the calls 1 to 3.
    let cases = [
        (1, "cannot read q\n"),
        (2, "cannot read s\n"),
        (3, "cannot read ss\n"),
    ];
    for (call, line) in cases {
        let came = run(
            &rt,
            rt.alloc(),
            &[LOAD_A, REPORT],
            &NoGate,
            &[call],
            &[],
            &[],
        )?;
        assert_eq!(rt; came.status, 2);
        assert_eq!(rt; came.lines.bytes(), line.as_bytes());
        assert!(rt; came.past.is_none());
    }
    Ok(())
}

#[test]
fn a_script_is_no_core(rt: HostRuntime) -> Result<(), Fail> {
    let alloc = rt.alloc();
    let core = core_bytes(alloc, Core::WithImages)?;
    let core = file_of(alloc, "q", core.as_slice())?;
    let script = file_of(alloc, "s", LOAD_A.as_bytes())?;
    let files = vec![in alloc; core, script]?;
    let mut desk = MemDesk::new(alloc, files, Vec::new(alloc), Vec::new(alloc))?;
    let mut lines = MemOut::new(alloc, 500, 64, Vec::new(alloc))?;
    let mut past = None;
    let asked = words(alloc, &["threads", "s", "q"])?;
    let status = top(
        &rt,
        alloc,
        asked.as_slice(),
        &mut desk,
        &mut lines,
        &NoGate,
        &mut past,
    );
    assert_eq!(rt; status, 3);
    assert_eq!(rt; lines.bytes(), b"core truncated 19\n".as_slice());
    assert!(rt; past.is_none());
    Ok(())
}
