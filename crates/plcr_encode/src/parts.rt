//! The messages of a report that stand for what a context says.
ghost use Rattle.std.specs.Prelude.{◌≡◌};
ghost use Rattle.plcr_encode.specs.Values.{architecture_number};

use crate::context::Context;
use crate::fields::{Message, flag_len, number_len, put_flag, put_number, put_text, text_len};
use plcr_regs::Arch;
use plcr_report::{Application, Info, Process, Signal, System};
use plcr_wire::Ink;

/// The number of an architecture in a report.
fn architecture(arch: Arch) -> u64
    ensures { result ≡ architecture_number arch }
{
    match arch {
        Arch::X86_64 => 1,
        Arch::Arm64 => 6,
    }
}

/// The system.
#[derive(Drop)]
pub(crate) struct SystemPart<'a> {
    pub(crate) context: &'a Context<'a>,
}

impl Message for SystemPart<'_> {
    ghost use Rattle.std.proofs.Common.{lit<};
    ghost use Rattle.plcr_report.specs.Messages.{system_message};
    ghost use Rattle.plcr_encode.specs.Values.{system_of};
    ghost use Rattle.plcr_encode.specs.Conditions.{IsWritable};
    ghost use Rattle.plcr_encode.specs.declared.limits.TheConstants.{PART_BYTES};

    ghost fields = { λ part. system_message (system_of part.context.now) };

    ghost fits = { λ part. IsWritable part.context.now };

    ghost most = { PART_BYTES };

    #[tactic(auto, unfolding(plcr_report::specs::Messages::system_message))]
    fn len(&self) -> u64 {
        let context = self.context;
        number_len(System::OPERATING_SYSTEM, context.os as u64)
            + text_len(System::OS_VERSION, context.os_version)
            + number_len(System::ARCHITECTURE, architecture(context.arch))
            + number_len(System::TIMESTAMP, context.timestamp)
    }

    #[tactic(auto, using(plcr_wire::proofs::Writing::wrote_twice, plcr_wire::proofs::Writing::wrote_none), unfolding(plcr_report::specs::Messages::system_message))]
    fn put<W: Ink>(&self, ink: &mut W) {
        let context = self.context;
        put_number(ink, System::OPERATING_SYSTEM, context.os as u64);
        put_text(ink, System::OS_VERSION, context.os_version);
        put_number(ink, System::ARCHITECTURE, architecture(context.arch));
        put_number(ink, System::TIMESTAMP, context.timestamp);
    }

    ghost moderate = { lit< tt };
}

/// The application.
#[derive(Drop)]
pub(crate) struct ApplicationPart<'a> {
    pub(crate) context: &'a Context<'a>,
}

impl Message for ApplicationPart<'_> {
    ghost use Rattle.std.proofs.Common.{lit<};
    ghost use Rattle.plcr_report.specs.Messages.{application_message};
    ghost use Rattle.plcr_encode.specs.Values.{application_of};
    ghost use Rattle.plcr_encode.specs.Conditions.{IsWritable};
    ghost use Rattle.plcr_encode.specs.declared.limits.TheConstants.{PART_BYTES};

    ghost fields = { λ part. application_message (application_of part.context.now) };

    ghost fits = { λ part. IsWritable part.context.now };

    ghost most = { PART_BYTES };

    #[tactic(auto, unfolding(plcr_report::specs::Messages::application_message))]
    fn len(&self) -> u64 {
        let context = self.context;
        text_len(Application::IDENTIFIER, context.identifier)
            + text_len(Application::VERSION, context.version)
    }

    #[tactic(auto, using(plcr_wire::proofs::Writing::wrote_twice, plcr_wire::proofs::Writing::wrote_none), unfolding(plcr_report::specs::Messages::application_message))]
    fn put<W: Ink>(&self, ink: &mut W) {
        let context = self.context;
        put_text(ink, Application::IDENTIFIER, context.identifier);
        put_text(ink, Application::VERSION, context.version);
    }

    ghost moderate = { lit< tt };
}

/// The signal.
#[derive(Drop)]
pub(crate) struct SignalPart<'a> {
    pub(crate) context: &'a Context<'a>,
}

impl Message for SignalPart<'_> {
    ghost use Rattle.std.proofs.Common.{lit<};
    ghost use Rattle.plcr_report.specs.Messages.{signal_message};
    ghost use Rattle.plcr_encode.specs.Values.{signal_of};
    ghost use Rattle.plcr_encode.specs.Conditions.{IsWritable};
    ghost use Rattle.plcr_encode.specs.declared.limits.TheConstants.{PART_BYTES};

    ghost fields = { λ part. signal_message (signal_of part.context.now) };

    ghost fits = { λ part. IsWritable part.context.now };

    ghost most = { PART_BYTES };

    #[tactic(auto, unfolding(plcr_report::specs::Messages::signal_message))]
    fn len(&self) -> u64 {
        let context = self.context;
        text_len(Signal::NAME, context.signal)
            + text_len(Signal::CODE, context.code)
            + number_len(Signal::ADDRESS, context.address)
    }

    #[tactic(auto, using(plcr_wire::proofs::Writing::wrote_twice, plcr_wire::proofs::Writing::wrote_none), unfolding(plcr_report::specs::Messages::signal_message))]
    fn put<W: Ink>(&self, ink: &mut W) {
        let context = self.context;
        put_text(ink, Signal::NAME, context.signal);
        put_text(ink, Signal::CODE, context.code);
        put_number(ink, Signal::ADDRESS, context.address);
    }

    ghost moderate = { lit< tt };
}

/// The process. It is native, since no report is written under emulation.
#[derive(Drop)]
pub(crate) struct ProcessPart<'a> {
    pub(crate) context: &'a Context<'a>,
}

impl Message for ProcessPart<'_> {
    ghost use Rattle.std.proofs.Common.{lit<};
    ghost use Rattle.plcr_report.specs.Messages.{process_message};
    ghost use Rattle.plcr_encode.specs.Values.{process_of};
    ghost use Rattle.plcr_encode.specs.Conditions.{IsWritable};
    ghost use Rattle.plcr_encode.specs.declared.limits.TheConstants.{PART_BYTES};

    ghost fields = { λ part. process_message (process_of part.context.now) };

    ghost fits = { λ part. IsWritable part.context.now };

    ghost most = { PART_BYTES };

    #[tactic(auto, unfolding(plcr_report::specs::Messages::process_message))]
    fn len(&self) -> u64 {
        let context = self.context;
        text_len(Process::NAME, context.process)
            + number_len(Process::ID, context.pid as u64)
            + number_len(Process::PARENT_ID, context.ppid as u64)
            + flag_len(Process::NATIVE, true)
    }

    #[tactic(auto, using(plcr_wire::proofs::Writing::wrote_twice, plcr_wire::proofs::Writing::wrote_none), unfolding(plcr_report::specs::Messages::process_message))]
    fn put<W: Ink>(&self, ink: &mut W) {
        let context = self.context;
        put_text(ink, Process::NAME, context.process);
        put_number(ink, Process::ID, context.pid as u64);
        put_number(ink, Process::PARENT_ID, context.ppid as u64);
        put_flag(ink, Process::NATIVE, true);
    }

    ghost moderate = { lit< tt };
}

/// The report itself.
#[derive(Drop)]
pub(crate) struct InfoPart<'a> {
    pub(crate) context: &'a Context<'a>,
}

impl Message for InfoPart<'_> {
    ghost use Rattle.std.proofs.Common.{lit<};
    ghost use Rattle.plcr_report.specs.Messages.{info_message};
    ghost use Rattle.plcr_encode.specs.Values.{info_of};
    ghost use Rattle.plcr_encode.specs.Conditions.{IsWritable};
    ghost use Rattle.plcr_encode.specs.declared.limits.TheConstants.{PART_BYTES};

    ghost fields = { λ part. info_message (info_of part.context.now) };

    ghost fits = { λ part. IsWritable part.context.now };

    ghost most = { PART_BYTES };

    #[tactic(auto, unfolding(plcr_report::specs::Messages::info_message))]
    fn len(&self) -> u64 {
        flag_len(Info::USER_REQUESTED, self.context.user)
    }

    #[tactic(auto, using(plcr_wire::proofs::Writing::wrote_twice, plcr_wire::proofs::Writing::wrote_none), unfolding(plcr_report::specs::Messages::info_message))]
    fn put<W: Ink>(&self, ink: &mut W) {
        let context = self.context;
        put_flag(ink, Info::USER_REQUESTED, context.user);
    }

    ghost moderate = { lit< tt };
}
