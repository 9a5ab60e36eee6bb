//! The text form of a report.
ghost use Rattle.std.specs.Prelude.{◌≡◌, ◌≤◌, ℕ, [], ◌∷◌, ◌++◌, IfOk, OnOk, OnErr};
ghost use Rattle.std.specs.Io.KnownBytes.{append_known};
ghost use Rattle.plcr_base.specs.Causes.{Rose};
ghost use Rattle.plcr_base.specs.Told.{AppendsProperFront};
ghost use Rattle.plcr_wire.specs.Pen.{Wrote};
ghost use Rattle.plcr_decode.specs.Text as spec;
ghost use Rattle.plcr_decode.specs.Text.{text_of};
ghost use Rattle.plcr_decode.specs.inner.Words.{word_text};

use crate::ink::{Word, put_line};
use crate::written::{Written, put_each};
use plcr_io::{PutFailed, Sink};
use plcr_report::{
    Application, Bytes, Frame, Image, Info, Process, Register, Report, Signal, System, Thread,
    VERSION,
};
use plcr_wire::{BufferedText, Ink};

fn put_version<W: Ink>(ink: &mut W)
    ensures { Wrote (W.pen ink.old) (W.pen ink.new) spec.version_line }
{
    put_line(ink, b"report", &[Word::Decimal(u64::from(VERSION))]);
}

fn put_system<W: Ink>(ink: &mut W, system: &System)
    ensures { Wrote (W.pen ink.old) (W.pen ink.new) (spec.system_line system.now) }
{
    let words = [
        Word::Decimal(u64::from(system.operating_system)),
        Word::Text(&system.os_version),
        Word::Decimal(u64::from(system.architecture)),
        Word::Signed(system.timestamp),
    ];
    put_line(ink, b"system", &words);
}

fn put_application<W: Ink>(ink: &mut W, application: &Application)
    ensures { Wrote (W.pen ink.old) (W.pen ink.new) (spec.application_line application.now) }
{
    let words = [
        Word::Text(&application.identifier),
        Word::Text(&application.version),
    ];
    put_line(ink, b"application", &words);
}

impl Written for Frame {
    ghost text = { λ n f. spec.frame_line n f.pc f.symbol };

    fn put<W: Ink>(&self, ink: &mut W, place: u64) {
        match &self.symbol {
            None => {
                let words = [Word::Decimal(place), Word::Address(self.pc)];
                put_line(ink, b"frame", &words);
            }
            Some(symbol) => {
                let words = [
                    Word::Decimal(place),
                    Word::Address(self.pc),
                    Word::Text(&symbol.name),
                    Word::Address(symbol.start_address),
                ];
                put_line(ink, b"frame", &words);
            }
        }
    }
}

impl Written for Register {
    ghost text = { λ _ r. spec.register_line r };

    fn put<W: Ink>(&self, ink: &mut W, _place: u64) {
        let name = Word::Text(&self.name);
        put_line(ink, b"register", &[name, Word::Address(self.value)]);
    }
}

fn put_thread_line<W: Ink>(ink: &mut W, number: u32, crashed: bool)
    ensures { Wrote (W.pen ink.old) (W.pen ink.new) (spec.thread_line number crashed) }
{
    let number = Word::Decimal(u64::from(number));
    if crashed {
        put_line(ink, b"thread", &[number, Word::Plain(b"crashed")]);
    } else {
        put_line(ink, b"thread", &[number]);
    }
}

impl Written for Thread {
    ghost text = { λ _ t. spec.thread_text t };

    #[tactic(auto, using(plcr_wire::proofs::Writing::wrote_twice), unfolding(crate::specs::Text::thread_text))]
    fn put<W: Ink>(&self, ink: &mut W, _place: u64) {
        put_thread_line(ink, self.thread_number, self.crashed);
        put_each(ink, &self.frames);
        put_each(ink, &self.registers);
    }
}

/// The word of bytes that may not be there.
fn bytes_word(bytes: &Option<Bytes>) -> Word<'_>
    ensures { word_text result ≡ spec.or_dash spec.bytes_text bytes.now }
{
    match bytes {
        None => Word::Plain(b"-"),
        Some(bytes) => Word::Bytes(bytes),
    }
}

/// The word of a text that may not be there.
fn text_word(text: &Option<Bytes>) -> Word<'_>
    ensures { word_text result ≡ spec.or_dash spec.shown text.now }
{
    match text {
        None => Word::Plain(b"-"),
        Some(text) => Word::Text(text),
    }
}

/// The words of an image's type and subtype of processor.
fn code_words(image: &Image) -> (Word<'_>, Word<'_>)
    ensures { word_text result.0 ∷ word_text result.1 ∷ [] ≡ spec.code_words image.now.code_type }
{
    match &image.code_type {
        None => (Word::Plain(b"-"), Word::Plain(b"-")),
        Some(code) => (Word::Decimal(code.cpu), Word::Decimal(code.subtype)),
    }
}

impl Written for Image {
    ghost text = { λ _ i. spec.image_line i };

    fn put<W: Ink>(&self, ink: &mut W, _place: u64) {
        let uuid = bytes_word(&self.uuid);
        let (cpu, subtype) = code_words(self);
        let base = Word::Address(self.base_address);
        let size = Word::Decimal(self.size);
        let name = Word::Text(&self.name);
        put_line(ink, b"image", &[base, size, name, uuid, cpu, subtype]);
    }
}

fn put_signal<W: Ink>(ink: &mut W, signal: &Signal)
    ensures { Wrote (W.pen ink.old) (W.pen ink.new) (spec.signal_line signal.now) }
{
    let name = Word::Text(&signal.name);
    let code = Word::Text(&signal.code);
    put_line(ink, b"signal", &[name, code, Word::Address(signal.address)]);
}

fn flag_word(flag: bool) -> Word<'static>
    ensures { word_text result ≡ spec.flag flag }
{
    Word::Decimal(if flag { 1 } else { 0 })
}

#[tactic(auto, using(plcr_wire::proofs::Writing::wrote_none))]
fn put_process<W: Ink>(ink: &mut W, process: &Option<Process>)
    ensures { Wrote (W.pen ink.old) (W.pen ink.new) (spec.process_line process.now) }
{
    if let Some(process) = process {
        let name = text_word(&process.name);
        let id = Word::Decimal(u64::from(process.id));
        let parent = Word::Decimal(u64::from(process.parent_id));
        let native = flag_word(process.native);
        put_line(ink, b"process", &[name, id, parent, native]);
    }
}

#[tactic(auto, using(plcr_wire::proofs::Writing::wrote_none))]
fn put_info<W: Ink>(ink: &mut W, info: &Option<Info>)
    ensures { Wrote (W.pen ink.old) (W.pen ink.new) (spec.info_line info.now) }
{
    if let Some(info) = info {
        put_line(ink, b"info", &[flag_word(info.user_requested)]);
    }
}

#[tactic(auto, using(plcr_wire::proofs::Writing::wrote_twice), unfolding(crate::specs::Text::text_of))]
fn put_report<W: Ink>(ink: &mut W, report: &Report)
    ensures { Wrote (W.pen ink.old) (W.pen ink.new) (text_of report.now) }
{
    put_version(ink);
    put_system(ink, &report.system_info);
    put_application(ink, &report.application_info);
    put_each(ink, &report.threads);
    put_each(ink, &report.binary_images);
    put_signal(ink, &report.signal);
    put_process(ink, &report.process_info);
    put_info(ink, &report.report_info);
}

/// Writes a report as lines of text, each with a newline: its version, its system and application,
/// its threads with their frames and registers, its images, and its signal, process and info where
/// they are there. Bytes of a text that can't be seen, spaces and backslashes are written as `\x`
/// and two digits. Takes no memory. The sink is given pieces of at most 4,096 bytes.
///
/// # Errors
///
/// `PutFailed` where the sink didn't take the whole text. A front of it was then written.
pub fn write_text<K: Sink>(report: &Report, sink: &mut K) -> Result<(), PutFailed>
    ensures written { OnOk result
        (K.written sink.new ≡ append_known (K.written sink.old) (text_of report.now)) }
    ensures err { OnErr result
        (AppendsProperFront (K.written sink.old) (K.written sink.new) (text_of report.now)) }
    ensures cause { OnErr result (Rose (K.faults sink.old) (K.faults sink.new)) }
    ensures later { K.faults sink.old ≤ K.faults sink.new }
    ensures mark { K.mark sink.new ≡ K.mark sink.old }
{
    let mut buffered = BufferedText::new(sink);
    put_report(&mut buffered, report);
    buffered.finish()?;
    Ok(())
}
