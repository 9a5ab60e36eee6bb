//! The messages of frames and their symbols.
ghost use Rattle.std.specs.Prelude.{◌≡◌, ◌+◌, ◌*◌, ◌≤◌, [], All, length, map, IsSome, unwrap_or};
ghost use Rattle.plcr_wire.specs.Pen.{Wrote};
ghost use Rattle.plcr_wire.specs.Message.{spelling, field_spelling, bytes_field};
ghost use Rattle.plcr_memory.specs.Regions.{bytes_at};
ghost use Rattle.plcr_report.specs.Messages.{frame_message};
ghost use Rattle.plcr_cursor.specs.declared.limits.TheConstants.{MOST_FRAMES};
ghost use Rattle.plcr_encode.specs.declared.limits.TheConstants.{FIELD_BYTES, FRAME_BYTES};
ghost use Rattle.plcr_encode.specs.inner.Rows.{message_fields};
ghost use Rattle.plcr_encode.specs.inner.FrameRows.{IsNamedIn, frame_in};

use crate::fields::{
    Message, bytes_len, message_len, number_len, put_message, put_number, put_text,
};
use crate::frame_rows::FrameRow;
use plcr_memory::Memory;
use plcr_report::{Frame, Symbol, Thread};
use plcr_symbols::{SYMBOL_NAME_BYTES, SymbolAt};
use plcr_wire::Ink;

/// Writes the name that stands at an address, through a buffer of its length.
fn put_name<W: Ink>(ink: &mut W, memory: &Memory, at: u64, buffer: &mut [u8])
    requires { IsSome (bytes_at memory.now at (length buffer.old)) }
    ensures { Wrote (W.pen ink.old) (W.pen ink.new)
        (field_spelling (bytes_field Symbol.NAME
        (unwrap_or (bytes_at memory.now at (length buffer.old)) []))) }
{
    if !memory.copy(at, buffer) {
        unreachable!();
    }
    put_text(ink, Symbol::NAME, buffer);
}

/// A symbol, whose name is copied from memory when it is written.
#[derive(Drop)]
struct SymbolPart<'a> {
    memory: &'a Memory,
    symbol: &'a SymbolAt,
}

impl Message for SymbolPart<'_> {
    ghost use Rattle.std.proofs.Common.{lit<};
    ghost use Rattle.plcr_report.specs.Messages.{symbol_message};
    ghost use Rattle.plcr_encode.specs.declared.limits.TheConstants.{SYMBOL_BYTES};
    ghost use Rattle.plcr_encode.specs.Frames.{symbol_of};
    ghost use Rattle.plcr_encode.specs.inner.FrameRows.{IsNamed};

    ghost fields = { λ part. symbol_message (symbol_of part.memory.now part.symbol.now) };

    ghost fits = { λ part. IsNamed part.memory.now part.symbol.now };

    ghost most = { SYMBOL_BYTES };

    #[tactic(auto, unfolding(plcr_report::specs::Messages::symbol_message))]
    fn len(&self) -> u64 {
        let name = u64::from(self.symbol.name_len);
        bytes_len(Symbol::NAME, name) + number_len(Symbol::START_ADDRESS, self.symbol.value)
    }

    #[tactic(auto, using(plcr_wire::proofs::Writing::wrote_twice, plcr_wire::proofs::Writing::wrote_none), unfolding(plcr_report::specs::Messages::symbol_message))]
    fn put<W: Ink>(&self, ink: &mut W) {
        let symbol = self.symbol;
        let mut buffer = [0; SYMBOL_NAME_BYTES as usize];
        let name = &mut buffer[..symbol.name_len as usize];
        put_name(ink, self.memory, symbol.name_at, name);
        put_number(ink, Symbol::START_ADDRESS, symbol.value);
    }

    ghost moderate = { lit< tt };
}

/// A frame, by what is kept of it.
#[derive(Drop)]
struct FramePart<'a> {
    memory: &'a Memory,
    row: &'a FrameRow,
}

impl Message for FramePart<'_> {
    ghost use Rattle.std.proofs.Common.{lit<};
    ghost use Rattle.plcr_report.specs.Messages.{frame_message};
    ghost use Rattle.plcr_encode.specs.declared.limits.TheConstants.{FRAME_BYTES};
    ghost use Rattle.plcr_encode.specs.inner.FrameRows.{IsNamedIn, frame_in};

    ghost fields = { λ part. frame_message (frame_in part.memory.now part.row.now) };

    ghost fits = { λ part. IsNamedIn part.memory.now part.row.now };

    ghost most = { FRAME_BYTES };

    #[tactic(auto, unfolding(plcr_report::specs::Messages::frame_message))]
    fn len(&self) -> u64 {
        let memory = self.memory;
        let symbol = match &self.row.symbol {
            Some(symbol) => message_len(Frame::SYMBOL, &SymbolPart { memory, symbol }),
            None => 0,
        };
        number_len(Frame::PC, self.row.pc) + symbol
    }

    #[tactic(auto, using(plcr_wire::proofs::Writing::wrote_twice, plcr_wire::proofs::Writing::wrote_none), unfolding(plcr_report::specs::Messages::frame_message))]
    fn put<W: Ink>(&self, ink: &mut W) {
        let memory = self.memory;
        put_number(ink, Frame::PC, self.row.pc);
        if let Some(symbol) = &self.row.symbol {
            put_message(ink, Frame::SYMBOL, &SymbolPart { memory, symbol });
        }
    }

    ghost moderate = { lit< tt };
}

/// The length of the frames in these rows.
pub(crate) fn frames_len(memory: &Memory, rows: &[FrameRow]) -> u64
    requires few { length rows.now ≤ MOST_FRAMES }
    requires named { All (IsNamedIn memory.now) rows.now }
    ensures size { result
        ≡ length (spelling (message_fields Thread.FRAMES frame_message
        (map (frame_in memory.now) rows.now))) }
    ensures short { result ≤ (FIELD_BYTES + FRAME_BYTES) * MOST_FRAMES }
{
    let mut length = 0;
    for row in rows {
        length += message_len(Thread::FRAMES, &FramePart { memory, row });
    }
    length
}

/// Writes the frames in these rows.
pub(crate) fn put_frames<W: Ink>(ink: &mut W, memory: &Memory, rows: &[FrameRow])
    requires few { length rows.now ≤ MOST_FRAMES }
    requires named { All (IsNamedIn memory.now) rows.now }
    ensures { Wrote (W.pen ink.old) (W.pen ink.new)
        (spelling (message_fields Thread.FRAMES frame_message
        (map (frame_in memory.now) rows.now))) }
{
    for row in rows {
        put_message(ink, Thread::FRAMES, &FramePart { memory, row });
    }
}
