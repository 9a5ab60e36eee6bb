ghost use Rattle.std.specs.Prelude.{◌≡◌, ok_or, option_map};
ghost use Rattle.plcr_base.specs.Chains.{result_map};
ghost use Rattle.plcr_loader.specs.Commands.{commands_at};
ghost use Rattle.plcr_macho.specs.inner.Keeping.{image_by, image_from, kept_of, linked_by, moved, symtab_from};
ghost use Rattle.plcr_macho.specs.Loading.{fault_of, image_at, image_trouble};
ghost use Rattle.plcr_macho.specs.Sources.{memory_bytes};

use crate::gain::gain_at;
use crate::header::{Header, header_at};
use crate::image::{Image, ImageFault, Part, Symtab};
use crate::kept::{Kept, Segment, Tables, Text};
use crate::source::MemoryBytes;
use crate::window::Window;
use plcr_loader::{Trouble, mach_header_64};
use plcr_memory::Memory;
use plcr_regs::Arch;

// What is kept of the load commands behind a header, or the first trouble among them.
fn kept_behind(source: &MemoryBytes, header: &Header) -> Result<Kept, Trouble>
    ensures { result ≡ result_map kept_of
        (commands_at (memory_bytes source.now.memory.now source.now.start) image_trouble
        header.now.size header.now.commands 0 0) }
{
    let end = u64::from(header.size);
    let mut kept = Kept::nothing();
    let mut at = 0;
    for index in 0..header.commands {
        let gain = gain_at(source, end, index, at, &kept)?;
        kept = gain.kept;
        at += u64::from(gain.size);
    }
    Ok(kept)
}

fn fault_from(source: &MemoryBytes, trouble: Trouble) -> ImageFault
    ensures { result ≡ fault_of source.now.start trouble }
{
    match trouble {
        Trouble::Bad { index } => ImageFault::BadCommand { index },
        Trouble::Absent { place } => ImageFault::Unreadable {
            at: source.address(place),
        },
    }
}

fn moved_by(slide: u64, part: Option<Part>) -> Option<Part>
    ensures { result ≡ option_map (moved slide) part }
{
    let part = part?;
    Some(Part {
        at: part.at.wrapping_add(slide),
        size: part.size,
    })
}

#[tactic(auto, unfolding(crate::specs::inner::Keeping::symtab_from))]
fn symtab_at(slide: u64, linkedit: Option<Segment>, tables: Option<Tables>) -> Option<Symtab>
    ensures { result ≡ symtab_from slide linkedit tables }
{
    let linkedit = linkedit?;
    let tables = tables?;
    Some(Symtab {
        rows_at: linked(slide, &linkedit, tables.symoff),
        rows: tables.nsyms,
        strings_at: linked(slide, &linkedit, tables.stroff),
        strings: tables.strsize,
    })
}

// The address of what the file has at an offset.
fn linked(slide: u64, linkedit: &Segment, offset: u32) -> u64
    ensures { result ≡ linked_by slide linkedit.now offset }
{
    u64::from(offset)
        .wrapping_sub(linkedit.fileoff)
        .wrapping_add(linkedit.vmaddr)
        .wrapping_add(slide)
}

#[tactic(auto, unfolding(crate::specs::inner::Keeping::image_by))]
fn image_with(address: u64, header: &Header, kept: &Kept, text: &Text) -> Image
    ensures { result ≡ image_by address header.now kept.now text.now }
{
    let slide = address.wrapping_sub(text.segment.vmaddr);
    Image {
        header: address,
        cpu: header.cpu,
        subtype: header.subtype,
        slide,
        text_size: text.segment.vmsize,
        uuid: kept.uuid,
        symtab: symtab_at(slide, kept.linkedit, kept.symtab),
        unwind: moved_by(slide, text.parts.unwind),
        eh_frame: moved_by(slide, text.parts.eh_frame),
    }
}

fn image_of(address: u64, header: &Header, kept: &Kept) -> Result<Image, ImageFault>
    ensures { result ≡ image_from address header.now kept.now }
{
    match &kept.text {
        Some(text) => Ok(image_with(address, header, kept, text)),
        None => Err(ImageFault::NoText),
    }
}

/// The Mach-O image whose header stands at an address, or the first fault: of the header, of each
/// load command in order, then that there is no `__TEXT`. It takes no memory, and at most about as
/// many steps, each with a search among the regions by halves, as there are regions and bytes of
/// the file that these map, whatever the header says. Where one region has the load commands in the
/// file, two searches serve.
pub fn parse(memory: &Memory, arch: Arch, header: u64) -> Result<Image, ImageFault>
    ensures { result ≡ image_at memory.now arch header }
{
    let head = header_at(memory, arch, header)?;
    let start = header.wrapping_add(mach_header_64::LENGTH as u64);
    let window = Window::new(memory, start, u64::from(head.size));
    let source = MemoryBytes {
        memory: &window,
        start,
    };
    match kept_behind(&source, &head) {
        Ok(kept) => image_of(header, &head, &kept),
        Err(trouble) => Err(fault_from(&source, trouble)),
    }
}
