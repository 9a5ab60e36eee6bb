//! The lines that a command prints beside what it was asked for.
ghost use Rattle.std.specs.Prelude.{◌≡◌, ◌⊎◌, ◌≤◌, ◌++◌, codes, decimal};
ghost use Rattle.plcr_base.specs.Told.{Prints};
ghost use Rattle.plcr_command.specs.Lines.{IsToldAs, cannot_write, refusal_line};

use crate::refusals::Refusal;
use arrayvec::ArrayVec;
use plcr_io::{Sink, add_bytes, add_decimal, put_parts};
use std::alloc::{AllocError, Global};

// Room for a space, a limit and the end of the line: a number of 64 bits has at most 20 digits.
const LIMIT_ROOM: usize = 32;

// Room for the numbers of a script, a line and a kind, with the spaces between them.
const PLACE_ROOM: usize = 64;

/// Prints a line in three parts. Where the sink fails, the line ends there.
pub fn print_line<L: Sink>(lines: &mut L, head: &[u8], middle: &[u8], tail: &[u8])
    ensures printed { Prints (L.written lines.old) (L.written lines.new)
        (head.now ++ middle.now ++ tail.now) (L.faults lines.old) (L.faults lines.new) }
    ensures later { L.faults lines.old ≤ L.faults lines.new }
    ensures mark { L.mark lines.new ≡ L.mark lines.old }
{
    let _ = put_parts(lines, head, middle, tail);
}

/// Prints that a file wasn't kept.
pub fn print_unwritten<L: Sink>(lines: &mut L, name: &[u8])
    ensures printed { Prints (L.written lines.old) (L.written lines.new) (cannot_write name.now)
        (L.faults lines.old) (L.faults lines.new) }
    ensures later { L.faults lines.old ≤ L.faults lines.new }
    ensures mark { L.mark lines.new ≡ L.mark lines.old }
{
    print_line(lines, b"cannot write ", name, b"\n");
}

/// Prints the line of a refusal, and gives the refusal; want of memory for the line of a core's or
/// a report's fault is one of its own. The lines of the others take no memory.
pub fn refuse<'a, L: Sink>(alloc: Global, refusal: Refusal<'a>, lines: &mut L) -> Refusal<'a>
    ensures refusal { IsToldAs refusal.entry result }
    ensures printed { Prints (L.written lines.old) (L.written lines.new) (refusal_line result)
        (L.faults lines.old) (L.faults lines.new) }
    ensures silent { result ≡ Refusal.OutOfMemory → L.faults lines.new ≡ L.faults lines.old }
    ensures later { L.faults lines.old ≤ L.faults lines.new }
    ensures mark { L.mark lines.new ≡ L.mark lines.old }
{
    match refusal {
        Refusal::CannotRead { word } => {
            let name = word.name.as_bytes();
            print_line(lines, b"cannot read ", name, b"\n");
        }
        Refusal::TooLong { word } => {
            let name = word.name.as_bytes();
            let limit = limit_text(word.limit);
            print_line(lines, b"too long ", name, limit.as_slice());
        }
        Refusal::CoreRefused { fault } => match fault.to_string(alloc) {
            Ok(text) => print_line(lines, b"core ", text.as_bytes(), b"\n"),
            Err(AllocError) => return Refusal::OutOfMemory,
        },
        Refusal::ScriptRefused { script, line, kind } => {
            let place = place_text(script, line, kind);
            print_line(lines, b"script ", place.as_slice(), b"\n");
        }
        Refusal::ReportRefused { fault } => match fault.to_string(alloc) {
            Ok(text) => print_line(lines, b"report ", text.as_bytes(), b"\n"),
            Err(AllocError) => return Refusal::OutOfMemory,
        },
        Refusal::OutOfMemory => {}
    }
    refusal
}

/// A limit, behind a space, and the end of the line.
fn limit_text(limit: u64) -> ArrayVec<u8, LIMIT_ROOM>
    ensures { result.items ≡ codes " " ++ decimal limit ++ codes "\n" }
{
    let mut text = ArrayVec::new();
    add_bytes(&mut text, b" ");
    add_decimal(&mut text, limit);
    add_bytes(&mut text, b"\n");
    text
}

/// The numbers of a script, of a line and of a kind.
fn place_text(script: u32, line: u32, kind: u8) -> ArrayVec<u8, PLACE_ROOM>
    ensures { result.items ≡ decimal script ++ codes " " ++ decimal line ++ codes " "
        ++ decimal kind }
{
    let mut text = ArrayVec::new();
    add_decimal(&mut text, u64::from(script));
    add_bytes(&mut text, b" ");
    add_decimal(&mut text, u64::from(line));
    add_bytes(&mut text, b" ");
    add_decimal(&mut text, u64::from(kind));
    text
}
