ghost use Rattle.std.specs.Prelude.{◌≡◌};
ghost use Rattle.plcr_loader.specs.Fields.{bytes_of};
ghost use Rattle.plcr_macho.specs.inner.Keeping.{Stands, command_of, kept_in, tables_in};

use crate::kept::{Kept, Tables};
use crate::standing::Standing;
use plcr_loader::symtab_command::{NSYMS, STROFF, STRSIZE, SYMOFF};
use plcr_loader::uuid_command::UUID;
use plcr_loader::{LC_SYMTAB, LC_UUID, Trouble, symtab_command, uuid_command};

#[tactic(auto, unfolding(crate::specs::inner::Keeping::tables_in))]
fn tables_of(front: &[u8; symtab_command::LENGTH]) -> Tables
    ensures { result ≡ tables_in front.now }
{
    Tables {
        symoff: SYMOFF.read_u32(front),
        nsyms: NSYMS.read_u32(front),
        stroff: STROFF.read_u32(front),
        strsize: STRSIZE.read_u32(front),
    }
}

fn uuid_of(front: &[u8; uuid_command::LENGTH]) -> [u8; 16]
    ensures { result ≡ bytes_of UUID front.now }
{
    let mut uuid = [0; 16];
    uuid.copy_from_slice(UUID.bytes(front));
    uuid
}

/// What is kept of an LC_SYMTAB that is long enough.
pub fn symtab_kept(command: &Standing, index: u32) -> Result<Kept, Trouble>
    requires stands { Stands command.now }
    requires cmd { command.now.cmd ≡ LC_SYMTAB }
    ensures { result ≡ kept_in index (command_of command.now) }
{
    if command.cmdsize < symtab_command::LENGTH as u32 {
        return Err(Trouble::Bad { index });
    }
    let tables = tables_of(&command.front());
    Ok(Kept {
        text: None,
        linkedit: None,
        symtab: Some(tables),
        uuid: None,
    })
}

/// What is kept of an LC_UUID that is long enough.
pub fn uuid_kept(command: &Standing, index: u32) -> Result<Kept, Trouble>
    requires stands { Stands command.now }
    requires cmd { command.now.cmd ≡ LC_UUID }
    ensures { result ≡ kept_in index (command_of command.now) }
{
    if command.cmdsize < uuid_command::LENGTH as u32 {
        return Err(Trouble::Bad { index });
    }
    let uuid = uuid_of(&command.front());
    Ok(Kept {
        text: None,
        linkedit: None,
        symtab: None,
        uuid: Some(uuid),
    })
}
