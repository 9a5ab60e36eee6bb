//! The messages that hold other messages.
ghost use Rattle.std.specs.Prelude.{◌≡◌, IfOk};
ghost use Rattle.plcr_decode.specs.Fields.{fields_of};
ghost use Rattle.plcr_decode.specs.Values.{frame_of, thread_of, image_of, report_of};

use crate::fields::Fields;
use crate::found::Found;
use crate::messages::{Part, Row, build_one, build_rows};
use crate::numbers::{low, owned, owned_where};
use plcr_report::{
    Application, Frame, Image, Info, Process, Processor, Register, Report, Signal, Symbol, System,
    Thread,
};
use std::alloc::{AllocError, Global};

impl Row for Frame {
    ghost value = { frame_of };

    #[tactic(auto, unfolding(crate::specs::Values::frame_of))]
    fn build(alloc: Global, bytes: &[u8]) -> Result<Frame, AllocError> {
        let found = Found::of(Fields::of(bytes));
        Ok(Frame {
            pc: found.number_or_zero(Frame::PC),
            symbol: build_one::<Symbol>(alloc, &found, bytes, Frame::SYMBOL)?,
        })
    }
}

impl Row for Thread {
    ghost value = { thread_of };

    #[tactic(auto, unfolding(crate::specs::Values::thread_of))]
    fn build(alloc: Global, bytes: &[u8]) -> Result<Thread, AllocError> {
        let found = Found::of(Fields::of(bytes));
        let numbers = (Thread::FRAMES, Thread::REGISTERS);
        let (frames, registers) = build_rows::<Frame, Register>(alloc, &found, bytes, numbers)?;
        Ok(Thread {
            thread_number: low(found.number_or_zero(Thread::THREAD_NUMBER)),
            frames,
            crashed: found.number_or_zero(Thread::CRASHED) != 0,
            registers,
        })
    }
}

impl Row for Image {
    ghost value = { image_of };

    #[tactic(auto, unfolding(crate::specs::Values::image_of))]
    fn build(alloc: Global, bytes: &[u8]) -> Result<Image, AllocError> {
        let found = Found::of(Fields::of(bytes));
        Ok(Image {
            base_address: found.number_or_zero(Image::BASE_ADDRESS),
            size: found.number_or_zero(Image::SIZE),
            name: owned(alloc, found.text_or_empty(Image::NAME))?,
            uuid: owned_where(alloc, found.text(Image::UUID))?,
            code_type: build_one::<Processor>(alloc, &found, bytes, Image::CODE_TYPE)?,
        })
    }
}

/// The report whose root message has these bytes, of which this was found.
#[tactic(auto, unfolding(crate::specs::Values::report_of))]
pub(crate) fn build_report<'a>(
    alloc: Global,
    bytes: &'a [u8],
    found: &Found<'a>,
) -> Result<Report, AllocError>
    requires { found.now ≡ fields_of bytes.now }
    ensures { IfOk result (λ report. report ≡ report_of (fields_of bytes.now)) }
{
    let system = found.message(bytes, Report::SYSTEM_INFO);
    let application = found.message(bytes, Report::APPLICATION_INFO);
    let signal = found.message(bytes, Report::SIGNAL);
    let numbers = (Report::THREADS, Report::BINARY_IMAGES);
    let (threads, binary_images) = build_rows::<Thread, Image>(alloc, found, bytes, numbers)?;
    Ok(Report {
        system_info: System::build(alloc, system)?,
        application_info: Application::build(alloc, application)?,
        threads,
        binary_images,
        signal: Signal::build(alloc, signal)?,
        process_info: build_one::<Process>(alloc, found, bytes, Report::PROCESS_INFO)?,
        report_info: build_one::<Info>(alloc, found, bytes, Report::REPORT_INFO)?,
    })
}
