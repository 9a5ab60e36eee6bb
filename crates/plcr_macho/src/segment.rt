ghost use Rattle.std.specs.Prelude.{◌≡◌, ◌≤◌, ◌+◌, ◌*◌, [], ◌∷◌, take, not, ◌&&◌, if◌then◌else◌, Some, None};
ghost use Rattle.plcr_base.specs.Chains.{result_map};
ghost use Rattle.plcr_loader.specs.declared.section_64.TheConstants as section_64;
ghost use Rattle.plcr_loader.specs.Fields.{is_named};
ghost use Rattle.plcr_macho.specs.inner.Keeping.{Stands, command_of, first_kept, kept_in, kept_of, segment_in, text_of};

use crate::kept::{Kept, Segment, Text};
use crate::sections::parts_within;
use crate::standing::Standing;
use plcr_loader::segment_command_64::{FILEOFF, LENGTH, NSECTS, SEGNAME, VMADDR, VMSIZE};
use plcr_loader::{LC_SEGMENT_64, SEG_LINKEDIT, SEG_TEXT, Trouble, section_64};

#[tactic(auto, unfolding(crate::specs::inner::Keeping::segment_in))]
fn segment_of(front: &[u8; LENGTH]) -> Segment
    ensures { result ≡ segment_in front.now }
{
    Segment {
        vmaddr: VMADDR.read_u64(front),
        vmsize: VMSIZE.read_u64(front),
        fileoff: FILEOFF.read_u64(front),
        sections: NSECTS.read_u32(front),
    }
}

// The segment where it is `__LINKEDIT`.
fn linkedit_of(front: &[u8; LENGTH], segment: Segment) -> Option<Segment>
    ensures { result ≡ if is_named SEGNAME SEG_LINKEDIT front.now then Some segment else None }
{
    if SEGNAME.is_named(front, &SEG_LINKEDIT) {
        Some(segment)
    } else {
        None
    }
}

// The segment with its sections where it is `__TEXT` and none was seen before.
#[tactic(auto, using(crate::proofs::Segments::text_is, crate::proofs::Fronts::sections_are))]
fn text_from(command: &Standing, front: &[u8; LENGTH], segment: Segment, seen: bool) -> Option<Text>
    requires stands { Stands command.now }
    requires within { LENGTH + section_64.LENGTH * segment.sections ≤ command.now.cmdsize }
    requires segment { segment ≡ segment_in (command_of command.now).bytes }
    ensures { result ≡ if not seen && is_named SEGNAME SEG_TEXT front.now
        then Some (text_of (command_of command.now)) else None }
{
    if !seen && SEGNAME.is_named(front, &SEG_TEXT) {
        Some(Text {
            segment,
            parts: parts_within(command, segment.sections),
        })
    } else {
        None
    }
}

/// What is kept with an LC_SEGMENT_64 more that has room for its sections. These are read in the
/// first `__TEXT` alone.
pub fn segment_kept(command: &Standing, index: u32, before: &Kept) -> Result<Kept, Trouble>
    requires stands { Stands command.now }
    requires cmd { command.now.cmd ≡ LC_SEGMENT_64 }
    ensures { result ≡ result_map (first_kept before.now) (kept_in index (command_of command.now)) }
{
    let size = u64::from(command.cmdsize);
    if size < LENGTH as u64 {
        return Err(Trouble::Bad { index });
    }
    let front = command.front::<LENGTH>();
    let segment = segment_of(&front);
    if size < LENGTH as u64 + section_64::LENGTH as u64 * u64::from(segment.sections) {
        return Err(Trouble::Bad { index });
    }
    let seen = before.text.is_some();
    Ok(before.or(Kept {
        text: text_from(command, &front, segment, seen),
        linkedit: linkedit_of(&front, segment),
        symtab: None,
        uuid: None,
    }))
}
