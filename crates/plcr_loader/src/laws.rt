ghost use Rattle.std.specs.Prelude.{◌≡◌, ℕ, List, length, Ok, Err};
ghost use Rattle.plcr_loader.specs.declared.trouble.Trouble.{Trouble};
ghost use Rattle.plcr_loader.specs.Commands.{Bytes, Command, Test, AreLaid, IsPlain, IsFirstTrouble, commands_at};
ghost use Rattle.plcr_loader.specs.Sources.{file_bytes};
ghost use Rattle.plcr_loader.specs.Structures.{OfLoader, OfMachine, OfNlist, OfLoadCommand, OfMachHeader64, OfSegmentCommand64, OfSection64, OfSymtabCommand, OfUuidCommand, OfThreadGroup, OfNlist64};

/// What the list of load commands is: the commands that lie one after the other from a place on,
/// each beginning with which it is and with its own size, all before the end of the list and with
/// all their bytes there.
#[tactic(auto, using(crate::proofs::Lists::lists_again, crate::proofs::Lists::lists_stop, crate::proofs::Files::files_are_plain))]
pub fn commands_lie()
    // The commands that are read lie so.
    ensures found { (source : Bytes) → IsPlain source →
        (test : Test) (end count index at : ℕ) (cs : List Command) →
        commands_at source test end count index at ≡ Ok cs →
        (length cs ≡ count) × AreLaid source test end index at cs }

    // Commands that lie so are read.
    ensures only { (source : Bytes) → IsPlain source →
        (test : Test) (end index at : ℕ) (cs : List Command) →
        AreLaid source test end index at cs →
        commands_at source test end (length cs) index at ≡ Ok cs }

    // A list that isn't read has its trouble at the first command that doesn't lie so.
    ensures first { (source : Bytes) → IsPlain source →
        (test : Test) (end count index at : ℕ) (trouble : Trouble) →
        commands_at source test end count index at ≡ Err trouble →
        IsFirstTrouble source test end count index at trouble }

    // The bytes of a file are such a source.
    ensures file { (file : List ℕ) → IsPlain (file_bytes file) }
{}

/// Each constant of the crate is the number that Apple's headers state for it: <mach-o/loader.h>,
/// <mach-o/nlist.h> and <mach/machine.h>.
#[tactic(auto, using(crate::proofs::Structures::of_loader, crate::proofs::Structures::of_machine, crate::proofs::Structures::of_nlist, crate::proofs::Structures::of_load_command, crate::proofs::Structures::of_mach_header_64, crate::proofs::Structures::of_segment_command_64, crate::proofs::Structures::of_section_64, crate::proofs::Structures::of_symtab_command, crate::proofs::Structures::of_uuid_command, crate::proofs::Structures::of_thread_group, crate::proofs::Structures::of_nlist_64))]
pub fn structures_stand()
    ensures loader { OfLoader }
    ensures machine { OfMachine }
    ensures nlist { OfNlist }
    ensures load_command { OfLoadCommand }
    ensures mach_header_64 { OfMachHeader64 }
    ensures segment_command_64 { OfSegmentCommand64 }
    ensures section_64 { OfSection64 }
    ensures symtab_command { OfSymtabCommand }
    ensures uuid_command { OfUuidCommand }
    ensures thread_group { OfThreadGroup }
    ensures nlist_64 { OfNlist64 }
{}
