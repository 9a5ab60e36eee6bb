//! Scripts that run side by side, with gates at which a worker waits for another.
use crate::fixtures::{Core, REPORT as NO_IMAGE, core_bytes};
use crate::top::top;
use plcr_imagelist::Writer;
use plcr_io::{MemDesk, MemFile, MemOut};
use plcr_workers::{Gate, NoGate};
use std::alloc::Global;
use std::hint::spin_loop;
use std::sync::Wait;
use std::sync::atomic::{AtomicBool, Ordering};
use std::test::Fail;
use std::thread::Threads;

/// How many turns a worker waits at most.
const TURNS: u32 = 100_000_000;

/// What a run on threads came to.
#[derive(Drop)]
pub(crate) struct Came {
    pub(crate) status: u8,
    pub(crate) desk: MemDesk,
    pub(crate) lines: MemOut,
    pub(crate) past: Option<Writer>,
}

/// What a gate waits for.
#[derive(Drop)]
pub(crate) struct Signal {
    given: AtomicBool,
    missed: AtomicBool,
}

impl Signal {
    pub(crate) fn new() -> Signal {
        Signal {
            given: AtomicBool::new(false),
            missed: AtomicBool::new(false),
        }
    }

    pub(crate) fn give(&self) {
        self.given.store(true, Ordering::SeqCst);
    }

    /// Waits until it was given, or notes that all turns were used up.
    fn wait(&self) {
        for _ in 0..TURNS {
            if self.given.load(Ordering::SeqCst) {
                return;
            }
            spin_loop();
        }
        self.missed.store(true, Ordering::SeqCst);
    }

    pub(crate) fn was_given(&self) -> bool {
        self.given.load(Ordering::SeqCst)
    }

    fn was_missed(&self) -> bool {
        self.missed.load(Ordering::SeqCst)
    }
}

/// The change of the first script waits until the second script's pass is in; or the other way
/// round.
#[derive(Drop)]
struct OneWaits {
    inside: Signal,
    asked: Signal,
    change_waits: bool,
}

impl Gate for OneWaits {
    fn before_change(&self, _script: u32, _line: u32) {
        self.asked.give();
        if self.change_waits {
            self.inside.wait();
        }
    }

    fn inside_hold(&self, _script: u32, _line: u32) {
        self.inside.give();
        if !self.change_waits {
            self.asked.wait();
        }
    }
}

/// The first change waits until a pass is in, and that pass until the second change is asked for.
#[derive(Drop)]
struct InTurn {
    inside: Signal,
    second: Signal,
}

impl Gate for InTurn {
    fn before_change(&self, _script: u32, line: u32) {
        if line == 1 {
            self.inside.wait();
        } else {
            self.second.give();
        }
    }

    fn inside_hold(&self, _script: u32, _line: u32) {
        self.inside.give();
        self.second.wait();
    }
}

/// Runs scripts on a core of eight images, with three outputs. The calls of these numbers fail on
/// the desk, puts of those numbers on each output, and puts of the last numbers on the sink of the
/// lines.
pub(crate) fn run<R: Threads + Wait + Sync, G: Gate>(
    rt: &R,
    alloc: Global,
    scripts: &[&str],
    gate: &G,
    failing: &[u32],
    puts: &[u32],
    said: &[u32],
) -> Result<Came, Fail> {
    let mut files = Vec::new(alloc);
    files.push(MemFile {
        name: String::from_str(alloc, "q")?,
        bytes: core_bytes(alloc, Core::WithImages)?,
    })?;
    let mut words = Vec::new(alloc);
    words.push(String::from_str(alloc, "threads")?)?;
    words.push(String::from_str(alloc, "q")?)?;
    let mut name = String::new(alloc);
    for script in scripts {
        name.push('s')?;
        files.push(MemFile {
            name: String::from_str(alloc, name.as_str())?,
            bytes: Vec::from_slice(alloc, script.as_bytes())?,
        })?;
        words.push(String::from_str(alloc, name.as_str())?)?;
    }
    let one = MemOut::new(alloc, 1000, 100, Vec::from_slice(alloc, puts)?)?;
    let two = MemOut::new(alloc, 1000, 100, Vec::from_slice(alloc, puts)?)?;
    let three = MemOut::new(alloc, 1000, 100, Vec::from_slice(alloc, puts)?)?;
    let outs = vec![in alloc; one, two, three]?;
    let failing = Vec::from_slice(alloc, failing)?;
    let mut desk = MemDesk::new(alloc, files, outs, failing)?;
    let mut lines = MemOut::new(alloc, 4000, 64, Vec::from_slice(alloc, said)?)?;
    let mut past = None;
    let status = top(
        rt,
        alloc,
        words.as_slice(),
        &mut desk,
        &mut lines,
        gate,
        &mut past,
    );
    Ok(Came {
        status,
        desk,
        lines,
        past,
    })
}

pub(crate) const LOAD_A: &str = "load 0x100000000 A\n";

const LOAD_BOTH: &str = "load 0x100000000 A\nload 0x100004000 B\n";

pub(crate) const REPORT: &str = "report 0 t\n";

/// All logs that a load beside a report can have, by all orders of their steps.
const BESIDE: [&str; 5] = [
    "1:1 load 1\n2:1 report t 271 0 0 0\n",
    "1:1 load 1\n2:1 report t 271 0 0 1\n",
    "1:1 load 1\n2:1 report t 315 1 0 0\n",
    "1:1 load 1\n2:1 report t 315 1 0 1\n",
    "1:1 load 1\n2:1 report t 315 1 1 1\n",
];

#[test]
fn loads_beside_a_report(rt: HostRuntime) -> Result<(), Fail> {
    let came = run(&rt, rt.alloc(), &[LOAD_A, REPORT], &NoGate, &[], &[], &[])?;
    assert_eq!(rt; came.status, 0);
    let said = came.lines.bytes();
    assert!(rt; BESIDE.iter().any(|log| log.as_bytes() == said));
    let file = came.desk.file("t").ok_or("not kept")?;
    if BESIDE[..2].iter().any(|log| log.as_bytes() == said) {
        assert_eq!(rt; file, NO_IMAGE.as_slice());
    } else {
        assert_eq!(rt; file.len(), 315);
    }
    assert!(rt; came.past.is_some());
    Ok(())
}

#[test]
fn a_change_waits_for_a_hold(rt: HostRuntime) -> Result<(), Fail> {
    for change_waits in [true, false] {
        let gate = OneWaits {
            inside: Signal::new(),
            asked: Signal::new(),
            change_waits,
        };
        let came = run(&rt, rt.alloc(), &[LOAD_A, REPORT], &gate, &[], &[], &[])?;
        assert_eq!(rt; came.status, 0);
        assert!(rt; !gate.inside.was_missed());
        assert!(rt; !gate.asked.was_missed());
        // Where the change waits it isn't made before the hold.
        let said = came.lines.bytes();
        let lawful = if change_waits {
            &BESIDE[..4]
        } else {
            BESIDE.as_slice()
        };
        assert!(rt; lawful.iter().any(|log| log.as_bytes() == said));
    }
    Ok(())
}

#[test]
fn a_hold_meets_what_is_loaded_inside_it(rt: HostRuntime) -> Result<(), Fail> {
    let gate = InTurn {
        inside: Signal::new(),
        second: Signal::new(),
    };
    let came = run(&rt, rt.alloc(), &[LOAD_BOTH, REPORT], &gate, &[], &[], &[])?;
    assert_eq!(rt; came.status, 0);
    assert!(rt; !gate.inside.was_missed());
    assert!(rt; !gate.second.was_missed());
    let lawful = [
        "1:1 load 1\n1:2 load 2\n2:1 report t 315 1 0 1\n",
        "1:1 load 1\n1:2 load 2\n2:1 report t 315 1 0 2\n",
        "1:1 load 1\n1:2 load 2\n2:1 report t 359 2 0 1\n",
        "1:1 load 1\n1:2 load 2\n2:1 report t 359 2 0 2\n",
    ];
    let said = came.lines.bytes();
    assert!(rt; lawful.iter().any(|log| log.as_bytes() == said));
    Ok(())
}

#[test]
fn one_script_runs_alone(rt: HostRuntime) -> Result<(), Fail> {
    let script =
        "load 0x100000000 A\nenter 0\nwalk 0 0\nunload 0x100000000\nwalk 0 9\nleave 0\nreport 0 t\n";
    let came = run(&rt, rt.alloc(), &[script], &NoGate, &[], &[], &[])?;
    assert_eq!(rt; came.status, 0);
    let log = "1:1 load 1\n1:4 unload 1\n1:2 enter 0\n1:3 walk 0 0 more\n1:5 walk 0 0 end\n\
        1:6 leave 0 0 1 2\n1:7 report t 271 0 2 2\n";
    assert_eq!(rt; came.lines.bytes(), log.as_bytes());
    Ok(())
}

#[test]
fn a_list_of_two_nodes_is_full(rt: HostRuntime) -> Result<(), Fail> {
    let script = "table 2 1\nload 0x100000000 A\nenter 0\nunload 0x100000000\n\
        load 0x100004000 B\nload 0x100008000 C\nunload 0x100004000\nload 0x100008000 C\n";
    let came = run(&rt, rt.alloc(), &[script], &NoGate, &[], &[], &[])?;
    assert_eq!(rt; came.status, 0);
    let log = "1:2 load 1\n1:4 unload 1\n1:5 load 2\n1:6 full 1 1 12884901889\n1:7 unload 2\n\
        1:8 full 0 2 17179869185\n1:3 enter 0\n";
    assert_eq!(rt; came.lines.bytes(), log.as_bytes());
    let came = run(
        &rt,
        rt.alloc(),
        &["load 0x5000 x\n"],
        &NoGate,
        &[],
        &[],
        &[],
    )?;
    assert_eq!(rt; came.status, 0);
    assert_eq!(rt; came.lines.bytes(), b"1:1 notimage 1\n".as_slice());
    Ok(())
}

#[test]
fn a_report_sees_the_loads_before_it(rt: HostRuntime) -> Result<(), Fail> {
    let scripts = ["load 0x100000000 A\nreport 0 t\n", "load 0x100004000 B\n"];
    let came = run(&rt, rt.alloc(), &scripts, &NoGate, &[], &[], &[])?;
    assert_eq!(rt; came.status, 0);
    let lawful = [
        "1:1 load 1\n2:1 load 2\n1:2 report t 315 1 1 1\n",
        "1:1 load 1\n2:1 load 2\n1:2 report t 315 1 1 2\n",
        "1:1 load 1\n2:1 load 2\n1:2 report t 359 2 1 1\n",
        "1:1 load 1\n2:1 load 2\n1:2 report t 359 2 1 2\n",
        "1:1 load 1\n2:1 load 2\n1:2 report t 359 2 2 2\n",
        "2:1 load 1\n1:1 load 2\n1:2 report t 359 2 2 2\n",
    ];
    let said = came.lines.bytes();
    assert!(rt; lawful.iter().any(|log| log.as_bytes() == said));
    let script = "report 0 t\nload 0x100000000 A\n";
    let came = run(&rt, rt.alloc(), &[script], &NoGate, &[], &[], &[])?;
    assert_eq!(rt; came.status, 0);
    assert_eq!(rt;
        came.lines.bytes(),
        b"1:2 load 1\n1:1 report t 271 0 0 0\n".as_slice()
    );
    Ok(())
}

/// Whether a text has a part.
fn has(text: &[u8], part: &[u8]) -> bool {
    for at in 0..text.len() {
        if text[at..].starts_with(part) {
            return true;
        }
    }
    false
}

#[test]
fn counts_its_scripts(rt: HostRuntime) -> Result<(), Fail> {
    let many = [LOAD_A; 65];
    let came = run(&rt, rt.alloc(), &many[..64], &NoGate, &[], &[], &[])?;
    assert_eq!(rt; came.status, 0);
    let mut log = Vec::from_slice(rt.alloc(), b"\n")?;
    log.extend_from_slice(came.lines.bytes())?;
    assert_eq!(rt;
        log.as_slice().iter().filter(|byte| **byte == b'\n').count(),
        65
    );
    for number in 1..65u32 {
        let load = format!(in rt.alloc(); ":1 load {number}\n")?;
        assert!(rt; has(log.as_slice(), load.as_bytes()));
        let script = format!(in rt.alloc(); "\n{number}:1 load ")?;
        assert!(rt; has(log.as_slice(), script.as_bytes()));
    }
    let came = run(&rt, rt.alloc(), many.as_slice(), &NoGate, &[], &[], &[])?;
    assert_eq!(rt; came.status, 1);
    assert_eq!(rt;
        came.lines.bytes(),
        b"usage: report CORE SCRIPT / show REPORT / make N CORE SCRIPT / threads CORE SCRIPT...\n".as_slice()
    );
    assert!(rt; came.past.is_none());
    Ok(())
}
