/// A message of a crash report, as PLCrashReporter's crash_report.proto declares them.
#[derive(Clone, Copy, Debug, PartialEq, Eq)]
pub enum Kind {
    Root,
    System,
    Application,
    Thread,
    Frame,
    Symbol,
    Register,
    Image,
    Processor,
    Signal,
    Process,
    Info,
}

/// What a field holds: a number (of wire type 0), a text or plain bytes, or a message (both of wire
/// type 2).
#[derive(Clone, Copy, Debug, PartialEq, Eq)]
pub enum Holds {
    Number,
    Text,
    Message(Kind),
}
