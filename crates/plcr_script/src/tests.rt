use super::*;
use crate::tests::Want::{Read, Refused};
use std::process::Abort;
use std::test::Fail;

// What reading a script gives: the number of its statements, or its first refused line and the
// number of what is wrong with it.
#[derive(Clone, Copy, Debug, PartialEq, Eq)]
enum Want {
    Read(usize),
    Refused(u32, u8),
    NoMemory,
}

fn each_is<R: Abort + AllocGlobal>(rt: &R, cases: &[(&str, Want)]) {
    each_is_for(rt, Mode::Single, cases);
}

fn each_is_for<R: Abort + AllocGlobal>(rt: &R, mode: Mode, cases: &[(&str, Want)]) {
    for (text, want) in cases {
        let bytes = text.as_bytes();
        assert!(rt; bytes.len() < 1 << 32);
        let got = match read_script(rt.alloc(), bytes, mode, &[]) {
            Ok(script) => Read(script.len()),
            Err(ScriptFault::Refused { line, kind }) => Refused(line, kind),
            Err(ScriptFault::Memory) => Want::NoMemory,
        };
        assert_eq!(rt; got, *want, "{text}");
    }
}

#[test]
fn reports_are_read_or_refused(rt: HostRuntime) {
    each_is(
        &rt,
        &[
            ("", Read(0)),
            ("report 0 a.plcrash", Read(1)),
            ("report 0 a\nreport 0 b\n", Read(2)),
            ("# a b\n\n#\nreport 0x0F ~!\n", Read(1)),
            ("report 0 a\nreport 3 a\n", Refused(2, 6)),
            ("report 0 a\nreport 16 a", Refused(2, 5)),
            (
                "report 0 a\nreport 0 b\nreport 0 a\nreport 0 b",
                Refused(3, 6),
            ),
            ("\n#\n\njump 1\njump", Refused(4, 1)),
            ("report 0 a\r\n", Refused(1, 1)),
            ("report 0 a\0b", Refused(1, 1)),
            ("report 0  a", Refused(1, 4)),
            ("report x a b", Refused(1, 4)),
            ("report 0 ", Refused(1, 1)),
            (" report 0 a", Refused(1, 1)),
            (" ", Refused(1, 1)),
            ("reporter 0 a", Refused(1, 1)),
            ("report", Refused(1, 3)),
            ("report ", Refused(1, 3)),
            ("report 0", Refused(1, 3)),
            ("report x a", Refused(1, 2)),
            ("report x ", Refused(1, 2)),
            ("report ff a", Refused(1, 2)),
            ("report 0x a", Refused(1, 2)),
            ("report 0X1 a", Refused(1, 2)),
            ("report 0x10000000000000000 a", Refused(1, 2)),
            ("report 4294967296 a", Refused(1, 2)),
            ("report 4294967295 a", Refused(1, 5)),
            ("report 16 a", Refused(1, 5)),
            ("report 00000000000000000015 a", Read(1)),
            ("report 000000000000000000015 a", Refused(1, 2)),
        ],
    );
}

#[test]
fn sizes_are_read_or_refused(rt: HostRuntime) {
    each_is(
        &rt,
        &[
            ("table 1 1\nreport 0 a", Read(1)),
            ("\n#\ntable 4096 1024\nset os 1", Read(0)),
            ("table 1 1\nreport 1 a", Refused(2, 5)),
            ("table 1 17\nreport 16 a", Read(1)),
            ("table 0 1", Refused(1, 2)),
            ("table 1 0", Refused(1, 2)),
            ("table 4097 1", Refused(1, 2)),
            ("table 1 1025", Refused(1, 2)),
            ("table 0x1000 0x400", Read(0)),
            ("table", Refused(1, 3)),
            ("table 1", Refused(1, 3)),
            ("table x", Refused(1, 3)),
            ("table ", Refused(1, 3)),
            ("table 1 1 ", Refused(1, 4)),
            ("table 1 1 1", Refused(1, 4)),
            ("table 1 1\ntable 1 1", Refused(2, 6)),
            ("set os 1\ntable 1 1", Refused(2, 6)),
            ("unload 1\ntable 1 1", Refused(2, 6)),
            ("unload 1\ntable 1 x", Refused(2, 2)),
        ],
    );
}

#[test]
fn values_are_read_or_refused(rt: HostRuntime) {
    each_is(
        &rt,
        &[
            ("set", Refused(1, 3)),
            ("set os", Refused(1, 3)),
            ("set jump", Refused(1, 3)),
            ("set os ", Refused(1, 2)),
            ("set  x", Refused(1, 1)),
            ("set jump 1", Refused(1, 1)),
            ("set oS 1", Refused(1, 1)),
            ("set os 2\nset os 0x0", Read(0)),
            ("set os 3", Refused(1, 2)),
            ("set os 1 ", Refused(1, 2)),
            ("set timestamp 9223372036854775807", Read(0)),
            ("set timestamp 9223372036854775808", Refused(1, 2)),
            ("set address 0xffffFFFFffffFFFF", Read(0)),
            ("set address 18446744073709551616", Refused(1, 2)),
            ("set pid 4294967295\nset ppid 4294967295", Read(0)),
            ("set pid 4294967296", Refused(1, 2)),
            ("set ppid 4294967296", Refused(1, 2)),
            ("set crashed 4294967295", Read(0)),
            ("set crashed 4294967296", Refused(1, 2)),
            ("set user 1\nset user 0", Read(0)),
            ("set user 2", Refused(1, 2)),
            ("set bits 32\nset bits 64", Read(0)),
            ("set bits 31", Refused(1, 2)),
            ("set bits 65", Refused(1, 2)),
            ("set osversion ", Read(0)),
            ("set code a b\r\0 ", Read(0)),
            ("unload 1\nset os 1", Refused(2, 6)),
            ("unload 1\nset os 3", Refused(2, 2)),
            ("report 0 a\nset process a", Refused(2, 6)),
            ("report 0 a\nset jump a", Refused(2, 1)),
        ],
    );
}

#[test]
fn loads_and_unloads_are_read_or_refused(rt: HostRuntime) {
    each_is(
        &rt,
        &[
            ("load", Refused(1, 3)),
            ("load ", Refused(1, 2)),
            ("load  1", Refused(1, 2)),
            ("load 1", Read(1)),
            ("load 1 ", Read(1)),
            ("load 1 a b c", Read(1)),
            ("load 0xffffffffffffffff \r", Read(1)),
            ("load 18446744073709551616 a", Refused(1, 2)),
            ("load 1\r", Refused(1, 2)),
            ("unload", Refused(1, 3)),
            ("unload ", Refused(1, 2)),
            ("unload 1 ", Refused(1, 4)),
            ("unload x y", Refused(1, 4)),
            ("unload x", Refused(1, 2)),
            ("unload 1\nload 1\nunload 1", Read(3)),
        ],
    );
}

#[test]
fn statements_of_open_changes_are_read_or_refused(rt: HostRuntime) {
    each_is(
        &rt,
        &[
            ("begin", Refused(1, 3)),
            ("begin ", Refused(1, 1)),
            ("begin jump", Refused(1, 1)),
            ("begin  load 1", Refused(1, 1)),
            ("begin load", Refused(1, 3)),
            ("begin load ", Refused(1, 2)),
            ("begin load x y", Refused(1, 2)),
            ("begin load 1", Read(1)),
            ("begin load 0x1 a b ", Read(1)),
            ("begin loads 1", Refused(1, 1)),
            ("begin unload", Refused(1, 3)),
            ("begin unload x 1", Refused(1, 4)),
            ("begin unload x", Refused(1, 2)),
            ("begin unload 1\nbegin unload 1", Read(2)),
            ("step", Refused(1, 3)),
            ("step x", Refused(1, 2)),
            ("step x 1", Refused(1, 4)),
            ("step 4294967295", Read(1)),
            ("step 4294967296", Refused(1, 2)),
            ("step 0", Read(1)),
            ("end", Read(1)),
            ("end ", Refused(1, 4)),
            ("end now", Refused(1, 4)),
            ("END", Refused(1, 1)),
        ],
    );
}

#[test]
fn statements_of_passes_are_read_or_refused(rt: HostRuntime) {
    each_is(
        &rt,
        &[
            ("enter", Refused(1, 3)),
            ("enter 0", Read(1)),
            ("enter 0 ", Refused(1, 4)),
            ("enter x", Refused(1, 2)),
            ("enter 16", Refused(1, 5)),
            ("enter 4294967296", Refused(1, 2)),
            ("enter 0\nenter 0", Refused(2, 6)),
            ("enter 0\nenter 1\nleave 0\nenter 0", Read(4)),
            ("walk", Refused(1, 3)),
            ("walk 0", Refused(1, 3)),
            ("walk 0 1", Refused(1, 6)),
            ("walk 16 x", Refused(1, 2)),
            ("walk 16 1", Refused(1, 5)),
            ("enter 0\nwalk 0 1 1", Refused(2, 4)),
            ("enter 0\nwalk 0 4294967295\nwalk 0 0", Read(3)),
            ("enter 0\nwalk 1 1", Refused(2, 6)),
            ("leave 0", Refused(1, 6)),
            ("leave 0 0", Refused(1, 4)),
            ("enter 0\nleave 0\nleave 0", Refused(3, 6)),
            ("enter 0\nleave 0\nwalk 0 1", Refused(3, 6)),
            ("enter 0\nreport 0 a\nwalk 0 1", Refused(3, 6)),
            ("enter 0\nreport 0 a\nenter 0", Read(3)),
            ("report 0 a\nleave 0", Refused(2, 6)),
            ("enter 1\nreport 0 a\nleave 1", Read(3)),
            ("table 1 1024\nenter 1023\nleave 1023", Read(2)),
            ("table 1 1024\nenter 1024", Refused(2, 5)),
            ("enter 0\nset os 1", Refused(2, 6)),
        ],
    );
}

#[test]
fn scripts_are_refused_with_each_kind(rt: HostRuntime) {
    each_is(
        &rt,
        &[
            ("jump 1", Refused(1, 1)),
            ("step x", Refused(1, 2)),
            ("unload", Refused(1, 3)),
            ("end now", Refused(1, 4)),
            ("enter 16", Refused(1, 5)),
            ("walk 0 1", Refused(1, 6)),
            ("set os 1\ntable 1 1", Refused(2, 6)),
        ],
    );
}

#[test]
fn scripts_of_workers_are_read_or_refused(rt: HostRuntime) {
    let first = Mode::Worker { first: true };
    each_is_for(
        &rt,
        first,
        &[
            (
                "table 7 1024\nset os 1\nload 1\nenter 0\nwalk 0 1\nreport 0 a",
                Read(4),
            ),
            ("enter 1", Refused(1, 5)),
            ("table 7 2\nreport 1 a", Refused(2, 5)),
            ("load 1\nbegin load 1", Refused(2, 6)),
            ("begin unload 1", Refused(1, 6)),
            ("begin load x", Refused(1, 2)),
            ("begin jump 1", Refused(1, 1)),
            ("step 1", Refused(1, 6)),
            ("step x", Refused(1, 2)),
            ("end", Refused(1, 6)),
            ("end now", Refused(1, 4)),
            ("leave 0", Refused(1, 6)),
        ],
    );
    let later = Mode::Worker { first: false };
    each_is_for(
        &rt,
        later,
        &[
            ("load 1\nreport 0 a", Read(2)),
            ("table 1 1", Refused(1, 6)),
            ("table 0 1", Refused(1, 2)),
            ("set os 1", Refused(1, 6)),
            ("set process a", Refused(1, 6)),
            ("set jump 1", Refused(1, 1)),
            ("end", Refused(1, 6)),
        ],
    );
}

#[test]
fn a_file_has_up_to_255_bytes(rt: HostRuntime) -> Result<(), Fail> {
    let alloc = rt.alloc();
    for (length, want) in [(255, true), (256, false)] {
        let mut text = b"report 0 ".to_vec(alloc)?;
        for _ in 0..length {
            text.push(b'a')?;
        }
        assert!(rt; text.len() < 1 << 32);
        assert_eq!(rt; read_script(alloc, &text, Mode::Single, &[]).is_ok(), want);
    }
    Ok(())
}

#[test]
fn a_file_of_a_script_before_is_out_of_place(rt: HostRuntime) -> Result<(), Fail> {
    let alloc = rt.alloc();
    let first = read_script(alloc, b"report 0 a\nreport 0 b", Mode::Single, &[])?;
    let second = read_script(alloc, b"load 1\nreport 0 c", Mode::Single, &[])?;
    let before = [first, second];
    let cases = [
        ("report 0 d\nreport 0 aa", 0),
        ("report 0 d\nreport 0 b", 2),
        ("report 0 c", 1),
        ("report 16 c", 0),
    ];
    for (text, want) in cases {
        let bytes = text.as_bytes();
        assert!(rt; bytes.len() < 1 << 32);
        let got = match read_script(alloc, bytes, Mode::Single, &before) {
            Err(ScriptFault::Refused { line, kind: 6 }) => line,
            _ => 0,
        };
        assert_eq!(rt; got, want, "{text}");
    }
    Ok(())
}
