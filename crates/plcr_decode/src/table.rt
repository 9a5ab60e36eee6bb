//! The fields of each message, after PLCrashReporter's crash_report.proto: what they hold, and how
//! often they stand there.
ghost use Rattle.std.specs.Prelude.{◌≡◌};
ghost use Rattle.plcr_decode.specs.inner.Entries.{rows_of};
ghost use Rattle.plcr_report.specs.Schema.{rows, rule};

use plcr_report::{
    Application, Frame, Holds, Image, Info, Kind, Process, Processor, Register, Report, Signal,
    Symbol, System, Thread,
};

/// A field of a message by its number and what it holds: it stands there once, at most once, or any
/// number of times.
#[derive(Clone, Copy)]
pub(crate) enum Entry {
    Required(u32, Holds),
    Optional(u32, Holds),
    Repeated(u32, Holds),
}

/// The fields of a message of this kind, in rising order.
pub(crate) fn entries(kind: Kind) -> &'static [Entry]
    ensures { rows_of result.now ≡ rows kind }
{
    match kind {
        Kind::Root => &[
            Entry::Required(Report::SYSTEM_INFO, Holds::Message(Kind::System)),
            Entry::Required(Report::APPLICATION_INFO, Holds::Message(Kind::Application)),
            Entry::Repeated(Report::THREADS, Holds::Message(Kind::Thread)),
            Entry::Repeated(Report::BINARY_IMAGES, Holds::Message(Kind::Image)),
            Entry::Required(Report::SIGNAL, Holds::Message(Kind::Signal)),
            Entry::Optional(Report::PROCESS_INFO, Holds::Message(Kind::Process)),
            Entry::Optional(Report::REPORT_INFO, Holds::Message(Kind::Info)),
        ],
        Kind::System => &[
            Entry::Required(System::OPERATING_SYSTEM, Holds::Number),
            Entry::Required(System::OS_VERSION, Holds::Text),
            Entry::Required(System::ARCHITECTURE, Holds::Number),
            Entry::Required(System::TIMESTAMP, Holds::Number),
            Entry::Optional(System::OS_BUILD, Holds::Text),
        ],
        Kind::Application => &[
            Entry::Required(Application::IDENTIFIER, Holds::Text),
            Entry::Required(Application::VERSION, Holds::Text),
        ],
        Kind::Thread => &[
            Entry::Required(Thread::THREAD_NUMBER, Holds::Number),
            Entry::Repeated(Thread::FRAMES, Holds::Message(Kind::Frame)),
            Entry::Required(Thread::CRASHED, Holds::Number),
            Entry::Repeated(Thread::REGISTERS, Holds::Message(Kind::Register)),
        ],
        Kind::Frame => &[
            Entry::Required(Frame::PC, Holds::Number),
            Entry::Optional(Frame::SYMBOL, Holds::Message(Kind::Symbol)),
        ],
        Kind::Symbol => &[
            Entry::Required(Symbol::NAME, Holds::Text),
            Entry::Required(Symbol::START_ADDRESS, Holds::Number),
            Entry::Optional(Symbol::END_ADDRESS, Holds::Number),
        ],
        Kind::Register => &[
            Entry::Required(Register::NAME, Holds::Text),
            Entry::Required(Register::VALUE, Holds::Number),
        ],
        Kind::Image => &[
            Entry::Required(Image::BASE_ADDRESS, Holds::Number),
            Entry::Required(Image::SIZE, Holds::Number),
            Entry::Required(Image::NAME, Holds::Text),
            Entry::Optional(Image::UUID, Holds::Text),
            Entry::Optional(Image::CODE_TYPE, Holds::Message(Kind::Processor)),
        ],
        Kind::Processor => &[
            Entry::Required(Processor::ENCODING, Holds::Number),
            Entry::Required(Processor::CPU, Holds::Number),
            Entry::Required(Processor::SUBTYPE, Holds::Number),
        ],
        Kind::Signal => &[
            Entry::Required(Signal::NAME, Holds::Text),
            Entry::Required(Signal::CODE, Holds::Text),
            Entry::Required(Signal::ADDRESS, Holds::Number),
        ],
        Kind::Process => &[
            Entry::Optional(Process::NAME, Holds::Text),
            Entry::Required(Process::ID, Holds::Number),
            Entry::Optional(Process::PATH, Holds::Text),
            Entry::Optional(Process::PARENT_NAME, Holds::Text),
            Entry::Required(Process::PARENT_ID, Holds::Number),
            Entry::Required(Process::NATIVE, Holds::Number),
        ],
        Kind::Info => &[
            Entry::Required(Info::USER_REQUESTED, Holds::Number),
            Entry::Optional(Info::UUID, Holds::Text),
        ],
    }
}

/// What the field of this number holds in a message of this kind; none where it isn't known.
#[inline(always)]
pub(crate) fn held(kind: Kind, number: u32) -> Option<Holds>
    ensures { result ≡ rule kind number }
{
    match (kind, number) {
        (Kind::Root, Report::SYSTEM_INFO) => Some(Holds::Message(Kind::System)),
        (Kind::Root, Report::APPLICATION_INFO) => Some(Holds::Message(Kind::Application)),
        (Kind::Root, Report::THREADS) => Some(Holds::Message(Kind::Thread)),
        (Kind::Root, Report::BINARY_IMAGES) => Some(Holds::Message(Kind::Image)),
        (Kind::Root, Report::SIGNAL) => Some(Holds::Message(Kind::Signal)),
        (Kind::Root, Report::PROCESS_INFO) => Some(Holds::Message(Kind::Process)),
        (Kind::Root, Report::REPORT_INFO) => Some(Holds::Message(Kind::Info)),
        (Kind::System, System::OPERATING_SYSTEM) => Some(Holds::Number),
        (Kind::System, System::OS_VERSION) => Some(Holds::Text),
        (Kind::System, System::ARCHITECTURE) => Some(Holds::Number),
        (Kind::System, System::TIMESTAMP) => Some(Holds::Number),
        (Kind::System, System::OS_BUILD) => Some(Holds::Text),
        (Kind::Application, Application::IDENTIFIER) => Some(Holds::Text),
        (Kind::Application, Application::VERSION) => Some(Holds::Text),
        (Kind::Thread, Thread::THREAD_NUMBER) => Some(Holds::Number),
        (Kind::Thread, Thread::FRAMES) => Some(Holds::Message(Kind::Frame)),
        (Kind::Thread, Thread::CRASHED) => Some(Holds::Number),
        (Kind::Thread, Thread::REGISTERS) => Some(Holds::Message(Kind::Register)),
        (Kind::Frame, Frame::PC) => Some(Holds::Number),
        (Kind::Frame, Frame::SYMBOL) => Some(Holds::Message(Kind::Symbol)),
        (Kind::Symbol, Symbol::NAME) => Some(Holds::Text),
        (Kind::Symbol, Symbol::START_ADDRESS) => Some(Holds::Number),
        (Kind::Symbol, Symbol::END_ADDRESS) => Some(Holds::Number),
        (Kind::Register, Register::NAME) => Some(Holds::Text),
        (Kind::Register, Register::VALUE) => Some(Holds::Number),
        (Kind::Image, Image::BASE_ADDRESS) => Some(Holds::Number),
        (Kind::Image, Image::SIZE) => Some(Holds::Number),
        (Kind::Image, Image::NAME) => Some(Holds::Text),
        (Kind::Image, Image::UUID) => Some(Holds::Text),
        (Kind::Image, Image::CODE_TYPE) => Some(Holds::Message(Kind::Processor)),
        (Kind::Processor, Processor::ENCODING) => Some(Holds::Number),
        (Kind::Processor, Processor::CPU) => Some(Holds::Number),
        (Kind::Processor, Processor::SUBTYPE) => Some(Holds::Number),
        (Kind::Signal, Signal::NAME) => Some(Holds::Text),
        (Kind::Signal, Signal::CODE) => Some(Holds::Text),
        (Kind::Signal, Signal::ADDRESS) => Some(Holds::Number),
        (Kind::Process, Process::NAME) => Some(Holds::Text),
        (Kind::Process, Process::ID) => Some(Holds::Number),
        (Kind::Process, Process::PATH) => Some(Holds::Text),
        (Kind::Process, Process::PARENT_NAME) => Some(Holds::Text),
        (Kind::Process, Process::PARENT_ID) => Some(Holds::Number),
        (Kind::Process, Process::NATIVE) => Some(Holds::Number),
        (Kind::Info, Info::USER_REQUESTED) => Some(Holds::Number),
        (Kind::Info, Info::UUID) => Some(Holds::Text),
        _ => None,
    }
}
