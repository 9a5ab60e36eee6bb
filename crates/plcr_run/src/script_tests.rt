//! A whole script, over a process without a core.

use crate::run_script;
use plcr_encode::Context;
use plcr_io::{MemDesk, MemOut, PutFailed, Sink, put_all};
use plcr_macho::Images;
use plcr_regs::Arch;
use plcr_script::{Mode, Process, read_script};
use std::test::Fail;

/// A process all of whose reports are one byte, and that has an image everywhere.
struct Brief;

impl Process for Brief {
    ghost use Rattle.std.specs.Prelude.{None, codes};

    ghost image_fault = { λ p header. None };

    ghost report = { λ p context images. codes "r" };

    ghost accepts = { λ p context. Unit {0} };

    fn fault(&self, _header: u64) -> Option<u8> {
        None
    }

    fn capture<I: Images, K: Sink>(
        &self,
        _images: &mut I,
        _context: &Context,
        sink: &mut K,
    ) -> Result<u64, PutFailed> {
        put_all(sink, b"r")?;
        Ok(1)
    }
}

// The change that stays open is made to its end behind the log.
#[test]
fn a_script_runs_to_its_end(rt: HostRuntime) -> Result<(), Fail> {
    let alloc = rt.alloc();
    let lines = b"load 0x1000 A\nreport 0 a\nbegin unload 0x1000\n";
    let Ok(script) = read_script(alloc, lines, Mode::Single, &[]) else {
        return Err("not a script".into());
    };
    let out = MemOut::new(alloc, 1, 1, Vec::new(alloc))?;
    let outs = vec![in alloc; out]?;
    let mut desk = MemDesk::new(alloc, Vec::new(alloc), outs, Vec::new(alloc))?;
    let mut log = MemOut::new(alloc, 64, 64, Vec::new(alloc))?;
    let mut past = None;
    let context = script.context(Arch::X86_64);
    let status = run_script(
        alloc, &Brief, &script, &context, &mut desk, &mut log, &mut past,
    );
    assert_eq!(rt; status, 0);
    assert_eq!(rt;
        log.bytes(),
        b"1 load 1\n2 report a 1 1 1 1\n3 begin 2\n".as_slice()
    );
    assert_eq!(rt; desk.file("a").ok_or("not kept")?, b"r".as_slice());
    assert!(rt; past.is_some());
    Ok(())
}
