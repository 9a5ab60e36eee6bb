//! The threads of a report, with their registers.
ghost use Rattle.std.specs.Prelude.{◌≡◌, ◌+◌, ◌*◌, ◌^◌, ◌<◌, ◌≤◌, All, List, length, map};
ghost use Rattle.std.specs.List.{enumerate_from};
ghost use Rattle.plcr_cursor.specs.Walks.{IsIndex};
ghost use Rattle.plcr_regs.specs.declared.registers.Registers as regs;
ghost use Rattle.plcr_regs.specs.declared.limits.TheConstants.{MOST_REGISTERS};
ghost use Rattle.plcr_wire.specs.Pen.{Wrote};
ghost use Rattle.plcr_wire.specs.Message.{spelling};
ghost use Rattle.plcr_report.specs.Messages.{register_message, thread_message};
ghost use Rattle.plcr_report.specs.declared.messages.Frame as report_frame;
ghost use Rattle.plcr_encode.specs.inner.FrameRows.{IsNamedIn};
ghost use Rattle.plcr_encode.specs.inner.Groups.{AreRowsOf, numbered_thread};
ghost use Rattle.plcr_encode.specs.inner.Rows.{message_fields};
ghost use Rattle.plcr_regs.specs.Names.{register_count};
ghost use Rattle.plcr_encode.specs.declared.limits.TheConstants.{FIELD_BYTES, REGISTER_BYTES, REGISTER_NAME_BYTES, THREAD_BYTES, THREADS_BYTES};
ghost use Rattle.plcr_encode.specs.Conditions.{AreWhole};
ghost use Rattle.plcr_encode.specs.Values.{register_at, registers_of, threads_of, value_at};

use crate::context::Context;
use crate::fields::{
    Message, flag_len, message_len, number_len, put_flag, put_message, put_number, put_text,
    text_len,
};
use crate::frame_parts::{frames_len, put_frames};
use crate::frame_rows::FrameRow;
use crate::frames::find_frames;
use crate::room::Room;
use plcr_cursor::Known;
use plcr_macho::Images;
use plcr_memory::Memory;
use plcr_regs::{Registers, count, name};
use plcr_report::{Register, Report, Thread};
use plcr_wire::Ink;

/// A register and its value.
#[derive(Drop)]
struct RegisterPart {
    name: &'static str,
    value: u64,
}

impl Message for RegisterPart {
    ghost use Rattle.std.specs.Prelude.{◌≤◌, length};
    ghost use Rattle.std.proofs.Common.{lit<};
    ghost use Rattle.plcr_report.specs.Messages.{register_message};
    ghost use Rattle.plcr_encode.specs.declared.limits.TheConstants.{REGISTER_BYTES, REGISTER_NAME_BYTES};

    ghost fields = { λ part.
        register_message (record { name = part.name.now; value = part.value }) };

    ghost fits = { λ part. length part.name.now ≤ REGISTER_NAME_BYTES };

    ghost most = { REGISTER_BYTES };

    #[tactic(auto, unfolding(plcr_report::specs::Messages::register_message))]
    fn len(&self) -> u64 {
        text_len(Register::NAME, self.name.as_bytes()) + number_len(Register::VALUE, self.value)
    }

    #[tactic(auto, using(plcr_wire::proofs::Writing::wrote_twice, plcr_wire::proofs::Writing::wrote_none), unfolding(plcr_report::specs::Messages::register_message))]
    fn put<W: Ink>(&self, ink: &mut W) {
        put_text(ink, Register::NAME, self.name.as_bytes());
        put_number(ink, Register::VALUE, self.value);
    }

    ghost moderate = { lit< tt };
}

/// A register's value. In the states that are written each register is known.
fn value(state: &Registers, i: usize) -> u64
    requires { i < MOST_REGISTERS }
    ensures { result ≡ value_at state.now i }
{
    state.value[i].unwrap_or(0)
}

/// Register `i` of a state.
fn register(state: &Registers, i: usize) -> RegisterPart
    requires { i < register_count state.now.arch }
    ensures name { result.name.now ≡ (register_at state.now i).name }
    ensures value { result.value ≡ (register_at state.now i).value }
    ensures short { length result.name.now ≤ REGISTER_NAME_BYTES }
{
    RegisterPart {
        name: name(state.arch, i),
        value: value(state, i),
    }
}

/// The length of a thread's registers.
fn registers_len(state: &Registers) -> u64
    ensures size { result
        ≡ length (spelling (message_fields Thread.REGISTERS register_message
        (registers_of state.now))) }
    ensures short { result ≤ (FIELD_BYTES + REGISTER_BYTES) * MOST_REGISTERS }
{
    let mut length = 0;
    for i in 0..count(state.arch) {
        length += message_len(Thread::REGISTERS, &register(state, i));
    }
    length
}

/// Writes a thread's registers, in the order of its state.
fn put_registers<W: Ink>(ink: &mut W, state: &Registers)
    ensures { Wrote (W.pen ink.old) (W.pen ink.new)
        (spelling (message_fields Thread.REGISTERS register_message (registers_of state.now))) }
{
    for i in 0..count(state.arch) {
        put_message(ink, Thread::REGISTERS, &register(state, i));
    }
}

/// A thread: its number, that of the thread that crashed, the memory and the rows of its frames,
/// and its state.
#[derive(Drop)]
struct ThreadPart<'a> {
    number: u32,
    crashed: u32,
    memory: &'a Memory,
    rows: &'a [FrameRow],
    state: &'a Registers,
}

impl Message for ThreadPart<'_> {
    ghost use Rattle.std.specs.Prelude.{map};
    ghost use Rattle.std.proofs.Common.{lit<};
    ghost use Rattle.plcr_report.specs.Messages.{thread_message};
    ghost use Rattle.plcr_encode.specs.declared.limits.TheConstants.{THREAD_BYTES};
    ghost use Rattle.plcr_encode.specs.inner.FrameRows.{AreWritable, frame_in};
    ghost use Rattle.plcr_encode.specs.Values.{thread_with};

    ghost fields = { λ part.
        thread_message (thread_with part.crashed part.number
        (map (frame_in part.memory.now) part.rows.now) part.state.now) };

    ghost fits = { λ part. AreWritable part.memory.now part.rows.now };

    ghost most = { THREAD_BYTES };

    fn len(&self) -> u64 {
        number_len(Thread::THREAD_NUMBER, self.number as u64)
            + frames_len(self.memory, self.rows)
            + flag_len(Thread::CRASHED, self.number == self.crashed)
            + registers_len(self.state)
    }

    #[tactic(auto, using(plcr_wire::proofs::Writing::wrote_twice, plcr_wire::proofs::Writing::wrote_none))]
    fn put<W: Ink>(&self, ink: &mut W) {
        put_number(ink, Thread::THREAD_NUMBER, self.number as u64);
        put_frames(ink, self.memory, self.rows);
        put_flag(ink, Thread::CRASHED, self.number == self.crashed);
        put_registers(ink, self.state);
    }

    ghost moderate = { lit< tt };
}

/// Writes threads in these states, numbered from a number on, whose rows stand one behind the
/// other, and gives the length of what was written. The counts tell how many rows each thread has.
fn put_group<W: Ink>(
    ink: &mut W,
    memory: &Memory,
    rows: &[FrameRow],
    counts: &[usize],
    states: &[Registers],
    first: usize,
    crashed: u32,
) -> u64
    requires few { first + length states.now < 2 ^ 32 }
    requires rows { (frames : regs.Registers → List report_frame.Frame)
        × AreRowsOf frames memory.now rows.now counts.now states.now }
    requires named { All (IsNamedIn memory.now) rows.now }
    ensures wrote { (frames : regs.Registers → List report_frame.Frame) →
        AreRowsOf frames memory.now rows.now counts.now states.now
        → Wrote (W.pen ink.old) (W.pen ink.new)
        (spelling (message_fields Report.THREADS thread_message
        (map (numbered_thread crashed frames) (enumerate_from first states.now)))) }
    ensures size { (frames : regs.Registers → List report_frame.Frame) →
        AreRowsOf frames memory.now rows.now counts.now states.now
        → result ≡ length (spelling
        (message_fields Report.THREADS thread_message
        (map (numbered_thread crashed frames) (enumerate_from first states.now)))) }
    ensures short { result ≤ (FIELD_BYTES + THREAD_BYTES) * length states.now }
{
    let mut rest = rows;
    let mut length = 0;
    for (k, state) in states.iter().enumerate() {
        let (own, behind) = rest.split_at(counts[k]);
        let part = ThreadPart {
            number: (first + k) as u32,
            crashed,
            memory,
            rows: own,
            state,
        };
        length += put_message(ink, Report::THREADS, &part);
        rest = behind;
    }
    length
}

/// Writes the threads in these states, numbered from 0, and gives the length of what was written.
/// The frames of a thread are found once, those of several threads together, and kept in the rows
/// while the threads are sized and written.
pub(crate) fn put_threads<I: Images, W: Ink>(
    ink: &mut W,
    room: &mut Room,
    images: &mut I,
    known: &mut Known,
    memory: &Memory,
    states: &[Registers],
    context: &Context,
) -> u64
    requires memory { known.old ≡ memory.now }
    requires whole { AreWhole context.now.arch states.now }
    requires bits { (32 ≤ context.now.bits) × (context.now.bits ≤ 64) }
    requires index { IsIndex memory.now context.now.arch (I.images images.old)
        (I.extents images.old) }
    ensures wrote { Wrote (W.pen ink.old) (W.pen ink.new)
        (spelling (message_fields Report.THREADS thread_message
        (threads_of memory.now (I.images images.old) context.now states.now))) }
    ensures size { result
        ≡ length (spelling (message_fields Report.THREADS thread_message
        (threads_of memory.now (I.images images.old) context.now states.now))) }
    ensures short { result < THREADS_BYTES }
    ensures same { I.images images.new ≡ I.images images.old }
    ensures follows { I.follows images.old images.new }
{
    let mut length = 0;
    let mut done = 0;
    while done < states.len() {
        let left = &states[done..];
        let count = find_frames(
            room,
            images,
            known,
            memory,
            context.arch,
            left,
            context.bits,
        );
        length += put_group(
            ink,
            memory,
            room.rows(),
            room.counts(),
            &left[..count],
            done,
            context.crashed,
        );
        done += count;
    }
    length
}
