ghost use Rattle.std.specs.Prelude.{◌≡◌, [], ◌∷◌, OnOk, OnErr};
ghost use Rattle.plcr_base.specs.Causes.{Rose};
ghost use Rattle.plcr_base.specs.Told.{Gains};

use super::*;
use crate::gathered::Gathered;
use std::alloc::{AllocError, Global};
use std::fs;
use std::test::Fail;

// A caller of both traits, which is proved from their contracts alone.
fn write_file<D: Desk>(desk: &mut D, name: &str, bytes: &[u8]) -> Result<(), MakeFailed>
    ensures kept { OnOk result
        (Gains (D.told desk.old).kept (D.told desk.new).kept ((name.now, bytes.now) ∷ [])) }
    ensures err { OnErr result ((D.told desk.new).kept ≡ (D.told desk.old).kept) }
    ensures cause { OnErr result (Rose (D.told desk.old).out_faults (D.told desk.new).out_faults) }
{
    let mut out = desk.make(name)?;
    match put_all(&mut out, bytes) {
        Ok(()) => desk.keep(name, out),
        Err(PutFailed) => {
            desk.abandon(out);
            Err(MakeFailed)
        }
    }
}

#[test]
fn an_output_in_memory_takes_what_it_is_to(rt: HostRuntime) -> Result<(), Fail> {
    let alloc = rt.alloc();
    let mut out = MemOut::new(alloc, 5, 3, vec![in alloc; 2]?)?;
    let steps = [
        ("abcd", Ok(3)),
        ("de", Err(PutFailed)),
        ("de", Ok(2)),
        ("f", Err(PutFailed)),
    ];
    for (piece, want) in steps {
        assert_eq!(rt; out.put(piece.as_bytes()), want);
    }
    assert_eq!(rt; out.bytes(), b"abcde".as_slice());

    let mut out = MemOut::new(alloc, 6, 2, Vec::new(alloc))?;
    assert_eq!(rt; put_all(&mut out, b"abcde"), Ok(()));
    assert_eq!(rt; put_all(&mut out, b"fgh"), Err(PutFailed));
    assert_eq!(rt; out.bytes(), b"abcdef".as_slice());
    Ok(())
}

fn file(alloc: Global, name: &str, bytes: &str) -> Result<MemFile, AllocError> {
    Ok(MemFile {
        name: String::from_str(alloc, name)?,
        bytes: bytes.as_bytes().to_vec(alloc)?,
    })
}

// Its third and sixth calls fail, and its second output has room for two bytes.
fn desk(alloc: Global) -> Result<MemDesk, Fail> {
    let first = file(alloc, "a", "one")?;
    let second = file(alloc, "a", "two")?;
    let files = vec![in alloc; first, second]?;
    let roomy = MemOut::new(alloc, 10, 3, Vec::new(alloc))?;
    let small = MemOut::new(alloc, 2, 3, Vec::new(alloc))?;
    let last = MemOut::new(alloc, 10, 3, Vec::new(alloc))?;
    let outs = vec![in alloc; roomy, small, last]?;
    Ok(MemDesk::new(alloc, files, outs, vec![in alloc; 3, 6]?)?)
}

#[test]
fn takes_from_memory(rt: HostRuntime) -> Result<(), Fail> {
    let alloc = rt.alloc();
    let mut desk = desk(alloc)?;
    let whole = desk.take(alloc, "a", 3)?;
    assert_eq!(rt; whole.as_slice(), b"one".as_slice());
    for (limit, want) in [(2, TakeFault::TooLong { limit: 2 }), (3, TakeFault::Failed)] {
        assert!(rt;
            desk.take(alloc, "a", limit)
                .is_err_and(|fault| fault == want)
        );
    }
    assert!(rt; desk.take(alloc, "c", 3).is_err());
    Ok(())
}

fn is_bytes(found: Option<&[u8]>, want: &str) -> bool {
    match found {
        Some(bytes) => bytes == want.as_bytes(),
        None => false,
    }
}

#[test]
fn writes_to_memory(rt: HostRuntime) -> Result<(), Fail> {
    let mut desk = desk(rt.alloc())?;
    // The third call is a make and the sixth a keep. After it no output is left.
    let writes = [
        ("x", "first", Ok(())),
        ("x", "second", Err(MakeFailed)),
        ("y", "abc", Err(MakeFailed)),
        ("z", "kept", Err(MakeFailed)),
        ("z", "made", Err(MakeFailed)),
    ];
    for (name, bytes, want) in writes {
        assert_eq!(rt; write_file(&mut desk, name, bytes.as_bytes()), want);
    }
    assert!(rt; is_bytes(desk.file("x"), "first"));
    assert!(rt; is_bytes(desk.file("a"), "one"));
    assert!(rt; desk.file("z").is_none());
    assert!(rt; is_bytes(desk.dropped(0), "ab"));
    assert!(rt; desk.dropped(1).is_none());
    Ok(())
}

#[test]
fn files_of_the_system(rt: HostRuntime) -> Result<(), Fail> {
    let alloc = rt.alloc();
    let mut desk = HostDesk::new(rt);
    fs::write(&rt, "six", "abcdef")?;
    fs::create_dir(&rt, "folder")?;
    let whole = desk.take(alloc, "six", 6)?;
    assert_eq!(rt; whole.as_slice(), b"abcdef".as_slice());
    let refused = [
        ("six", TakeFault::TooLong { limit: 5 }),
        ("folder", TakeFault::Failed),
        ("missing", TakeFault::Failed),
    ];
    for (name, want) in refused {
        match desk.take(alloc, name, 5) {
            Ok(_) => panic!(rt; "{name} was taken"),
            Err(fault) => assert_eq!(rt; fault, want),
        }
    }

    // What is put stands in the part file at once, and under the name once it is kept.
    let mut out = desk.make("report")?;
    put_all(&mut out, b"te")?;
    put_all(&mut out, b"xt")?;
    assert_eq!(rt; fs::read_to_string(&rt, "report.part")?.as_str(), "text");
    desk.keep("report", out)?;
    assert_eq!(rt; fs::read_to_string(&rt, "report")?.as_str(), "text");

    let mut out = desk.make("given up")?;
    put_all(&mut out, b"text")?;
    desk.abandon(out);
    let out = desk.make("late")?;
    assert_eq!(rt; desk.keep("nowhere/late", out), Err(MakeFailed));
    for name in [
        "report.part",
        "given up",
        "given up.part",
        "late",
        "late.part",
    ] {
        assert!(rt; !fs::exists(&rt, name)?, "{name} is there");
    }

    fs::remove_file(&rt, "six")?;
    fs::remove_file(&rt, "report")?;
    fs::remove_dir(&rt, "folder")?;
    Ok(())
}

// 1,024 bytes of each letter from the first one up to the last one.
fn letters(alloc: Global, first: u8, last: u8) -> Result<Vec<u8>, AllocError> {
    let mut text = Vec::new(alloc);
    for letter in first..last {
        text.extend_from_slice(&[letter; 1024])?;
    }
    Ok(text)
}

// Pieces of 1,024 bytes, sixteen of which fit in the room, on their way to an output whose second
// put fails.
#[test]
fn pieces_are_gathered(rt: HostRuntime) -> Result<(), Fail> {
    let alloc = rt.alloc();
    let sixteen = letters(alloc, b'A', b'Q')?;
    let mut whole = letters(alloc, b'A', b'a')?;
    let great = [b'z'; 20_000];
    whole.extend_from_slice(&great)?;
    let mut out = MemOut::new(alloc, 60_000, 60_000, vec![in alloc; 2]?)?;

    let mut gathered = Gathered::new(&mut out);
    for letter in b'A'..b'Q' {
        assert_eq!(rt; gathered.put(&[letter; 1024]), Ok(1024));
    }
    assert_eq!(rt; gathered.sink.bytes(), b"".as_slice());
    for letter in b'Q'..b'a' {
        assert_eq!(rt; gathered.put(&[letter; 1024]), Ok(1024));
        assert_eq!(rt; gathered.sink.bytes(), sixteen.as_slice());
    }
    // The next is refused with the second put. What waits is passed on at the next try, and a piece
    // that is greater than the room goes straight on.
    assert_eq!(rt; gathered.put(b"lost"), Err(PutFailed));
    assert_eq!(rt; gathered.sink.bytes(), sixteen.as_slice());
    assert_eq!(rt; gathered.put(&great), Ok(20_000));
    assert_eq!(rt; gathered.put(b"end"), Ok(3));
    assert_eq!(rt; gathered.sink.bytes(), whole.as_slice());
    assert_eq!(rt; gathered.finish(), Ok(()));
    whole.extend_from_slice(b"end")?;
    assert_eq!(rt; out.bytes(), whole.as_slice());

    // What waits is lost where it is given up.
    let mut gathered = Gathered::new(&mut out);
    assert_eq!(rt; gathered.put(b"lost"), Ok(4));
    gathered.give_up();
    assert_eq!(rt; out.bytes(), whole.as_slice());
    Ok(())
}

// A put of the second line fails.
#[test]
fn a_line_of_three_parts_is_one_put(rt: HostRuntime) -> Result<(), Fail> {
    let alloc = rt.alloc();
    let mut out = MemOut::new(alloc, 2000, 2000, vec![in alloc; 2]?)?;
    assert_eq!(rt;
        put_parts(&mut out, b"1 report ", b"a.plcrash", b" 271\n"),
        Ok(())
    );
    assert_eq!(rt; put_parts(&mut out, b"2", b"", b"\n"), Err(PutFailed));
    assert_eq!(rt; out.bytes(), b"1 report a.plcrash 271\n".as_slice());
    // A part that is too long for the room goes by itself.
    let name = [b'n'; 600];
    let mut out = MemOut::new(alloc, 2000, 2000, vec![in alloc; 3]?)?;
    assert_eq!(rt;
        put_parts(&mut out, b"cannot read ", &name, b"\n"),
        Err(PutFailed)
    );
    assert_eq!(rt; out.bytes().len(), 612);
    Ok(())
}
