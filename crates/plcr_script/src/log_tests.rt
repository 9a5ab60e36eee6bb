use super::*;
use plcr_io::{MemOut, PutFailed};
use std::test::Fail;

#[test]
fn each_outcome_has_its_line(rt: HostRuntime) -> Result<(), Fail> {
    let alloc = rt.alloc();
    let mut out = MemOut::new(alloc, 1024, 5, Vec::new(alloc))?;
    let outcomes = [
        Outcome::Busy,
        Outcome::NotImage { kind: 2 },
        Outcome::Worn {
            changes: 4_294_967_295,
        },
        Outcome::Long { len: 1025 },
        Outcome::Full {
            live: 1,
            held: 2,
            seen: 21_474_836_481,
        },
        Outcome::NotLoaded,
        Outcome::Loaded { load: 1 },
        Outcome::Unloaded { load: 30 },
        Outcome::Idle,
        Outcome::Begun { steps: 133 },
        Outcome::Stepped { made: 4 },
        Outcome::Entered { pass: 1023 },
        Outcome::Walked {
            pass: 0,
            met: 1,
            ended: false,
        },
        Outcome::Walked {
            pass: 0,
            met: 2,
            ended: true,
        },
        Outcome::Left {
            pass: 0,
            met: 2,
            low: 2,
            high: 5,
        },
    ];
    for (line, outcome) in (1_u32..16).zip(outcomes.iter()) {
        assert_eq!(rt; write_outcome(None, line, outcome, &mut out), Ok(()));
    }
    assert_eq!(rt;
        out.bytes(),
        b"1 busy\n2 notimage 2\n3 worn 4294967295\n4 long 1025\n5 full 1 2 21474836481\n\
            6 notloaded\n7 load 1\n8 unload 30\n9 idle\n10 begin 133\n11 step 4\n\
            12 enter 1023\n13 walk 0 1 more\n14 walk 0 2 end\n15 leave 0 2 2 5\n"
            .as_slice()
    );
    Ok(())
}

#[test]
fn a_line_of_the_log_is_written_whole_or_in_front(rt: HostRuntime) -> Result<(), Fail> {
    let alloc = rt.alloc();
    // room for the first line, of 29 bytes, and 35 bytes more
    let mut out = MemOut::new(alloc, 64, 7, Vec::new(alloc))?;
    let first = Outcome::Reported {
        file: b"a.plcrash",
        bytes: 271,
        images: 0,
        low: 0,
        high: 0,
    };
    assert_eq!(rt; write_outcome(None, 1, &first, &mut out), Ok(()));
    assert_eq!(rt; out.bytes(), b"1 report a.plcrash 271 0 0 0\n".as_slice());
    let second = Outcome::Reported {
        file: b"t",
        bytes: 18_446_744_073_709_551_615,
        images: 1,
        low: 2,
        high: 4_294_967_295,
    };
    assert_eq!(rt;
        write_outcome(Some(2), 30, &second, &mut out),
        Err(PutFailed)
    );
    assert_eq!(rt;
        out.bytes(),
        b"1 report a.plcrash 271 0 0 0\n2:30 report t 18446744073709551615 ".as_slice()
    );
    Ok(())
}

// The longest line of a script's report. A second put fails.
#[test]
fn a_line_of_the_log_is_one_put(rt: HostRuntime) -> Result<(), Fail> {
    let mut out = MemOut::new(rt.alloc(), 1024, 1024, vec![in rt.alloc(); 2]?)?;
    let most = 4_294_967_295;
    let longest = Outcome::Reported {
        file: &[b'f'; 255],
        bytes: 18_446_744_073_709_551_615,
        images: most,
        low: most,
        high: most,
    };
    assert_eq!(rt; write_outcome(Some(most), most, &longest, &mut out), Ok(()));
    assert_eq!(rt; out.bytes().len(), 339);
    assert_eq!(rt;
        write_outcome(None, 1, &Outcome::Busy, &mut out),
        Err(PutFailed)
    );
    Ok(())
}
