//! The messages that hold no other message.
ghost use Rattle.plcr_decode.specs.Values.{symbol_of, register_of, system_of, application_of, processor_of, signal_of, process_of, info_of};

use crate::fields::Fields;
use crate::found::Found;
use crate::messages::{Part, Row};
use crate::numbers::{low, owned, owned_where};
use plcr_report::{Application, Info, Process, Processor, Register, Signal, Symbol, System};
use std::alloc::{AllocError, Global};

impl Part for Symbol {
    ghost value = { symbol_of };

    #[tactic(auto, unfolding(crate::specs::Values::symbol_of))]
    fn build(alloc: Global, fields: Fields<'_>) -> Result<Symbol, AllocError> {
        let found = Found::of(fields);
        Ok(Symbol {
            name: owned(alloc, found.text_or_empty(Symbol::NAME))?,
            start_address: found.number_or_zero(Symbol::START_ADDRESS),
            end_address: found.number(Symbol::END_ADDRESS),
        })
    }
}

impl Row for Register {
    ghost value = { register_of };

    #[tactic(auto, unfolding(crate::specs::Values::register_of))]
    fn build(alloc: Global, bytes: &[u8]) -> Result<Register, AllocError> {
        let found = Found::of(Fields::of(bytes));
        Ok(Register {
            name: owned(alloc, found.text_or_empty(Register::NAME))?,
            value: found.number_or_zero(Register::VALUE),
        })
    }
}

impl Part for System {
    ghost value = { system_of };

    #[tactic(auto, unfolding(crate::specs::Values::system_of))]
    fn build(alloc: Global, fields: Fields<'_>) -> Result<System, AllocError> {
        let found = Found::of(fields);
        Ok(System {
            operating_system: low(found.number_or_zero(System::OPERATING_SYSTEM)),
            os_version: owned(alloc, found.text_or_empty(System::OS_VERSION))?,
            architecture: low(found.number_or_zero(System::ARCHITECTURE)),
            timestamp: found.number_or_zero(System::TIMESTAMP).cast_signed(),
            os_build: owned_where(alloc, found.text(System::OS_BUILD))?,
        })
    }
}

impl Part for Application {
    ghost value = { application_of };

    #[tactic(auto, unfolding(crate::specs::Values::application_of))]
    fn build(alloc: Global, fields: Fields<'_>) -> Result<Application, AllocError> {
        let found = Found::of(fields);
        Ok(Application {
            identifier: owned(alloc, found.text_or_empty(Application::IDENTIFIER))?,
            version: owned(alloc, found.text_or_empty(Application::VERSION))?,
        })
    }
}

impl Part for Processor {
    ghost value = { processor_of };

    #[tactic(auto, unfolding(crate::specs::Values::processor_of))]
    fn build(_alloc: Global, fields: Fields<'_>) -> Result<Processor, AllocError> {
        let found = Found::of(fields);
        Ok(Processor {
            encoding: low(found.number_or_zero(Processor::ENCODING)),
            cpu: found.number_or_zero(Processor::CPU),
            subtype: found.number_or_zero(Processor::SUBTYPE),
        })
    }
}

impl Part for Signal {
    ghost value = { signal_of };

    #[tactic(auto, unfolding(crate::specs::Values::signal_of))]
    fn build(alloc: Global, fields: Fields<'_>) -> Result<Signal, AllocError> {
        let found = Found::of(fields);
        Ok(Signal {
            name: owned(alloc, found.text_or_empty(Signal::NAME))?,
            code: owned(alloc, found.text_or_empty(Signal::CODE))?,
            address: found.number_or_zero(Signal::ADDRESS),
        })
    }
}

impl Part for Process {
    ghost value = { process_of };

    #[tactic(auto, unfolding(crate::specs::Values::process_of))]
    fn build(alloc: Global, fields: Fields<'_>) -> Result<Process, AllocError> {
        let found = Found::of(fields);
        Ok(Process {
            name: owned_where(alloc, found.text(Process::NAME))?,
            id: low(found.number_or_zero(Process::ID)),
            path: owned_where(alloc, found.text(Process::PATH))?,
            parent_name: owned_where(alloc, found.text(Process::PARENT_NAME))?,
            parent_id: low(found.number_or_zero(Process::PARENT_ID)),
            native: found.number_or_zero(Process::NATIVE) != 0,
        })
    }
}

impl Part for Info {
    ghost value = { info_of };

    #[tactic(auto, unfolding(crate::specs::Values::info_of))]
    fn build(alloc: Global, fields: Fields<'_>) -> Result<Info, AllocError> {
        let found = Found::of(fields);
        Ok(Info {
            user_requested: found.number_or_zero(Info::USER_REQUESTED) != 0,
            uuid: owned_where(alloc, found.text(Info::UUID))?,
        })
    }
}
