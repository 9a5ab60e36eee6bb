//! The images of a report.
ghost use Rattle.std.specs.Prelude.{◌≡◌, ◌+◌, ◌<◌, ◌≤◌, All, length};
ghost use Rattle.plcr_wire.specs.Pen.{Wrote};
ghost use Rattle.plcr_wire.specs.Message.{spelling, field_spelling};
ghost use Rattle.plcr_macho.specs.Images.{listed_at};
ghost use Rattle.plcr_report.specs.Messages.{image_message};
ghost use Rattle.plcr_encode.specs.Conditions.{IsNamable, AreNamable};
ghost use Rattle.plcr_encode.specs.declared.limits.TheConstants.{FIELD_BYTES, IMAGE_BYTES, IMAGES_BYTES};
ghost use Rattle.plcr_encode.specs.Images.{image_of, images_of};
ghost use Rattle.plcr_encode.specs.inner.Rows.{message_field, message_fields};

use crate::fields::{
    Message, message_len, number_len, put_message, put_number, put_text, text_len,
};
use crate::names::read_name;
use arrayvec::ArrayVec;
use plcr_base::IMAGE_NAME_BYTES;
use plcr_macho::{ImageFault, Images, parse};
use plcr_memory::Memory;
use plcr_regs::Arch;
use plcr_report::{Image, Processor, Report};
use plcr_wire::Ink;

/// In this encoding a processor is told by the numbers of a Mach-O header.
const MACH_ENCODING: u64 = 1;

/// The type of processor that an image is for, as its header tells it.
#[derive(Drop)]
struct ProcessorPart {
    cpu: u32,
    subtype: u32,
}

impl Message for ProcessorPart {
    ghost use Rattle.std.proofs.Common.{lit<};
    ghost use Rattle.plcr_report.specs.Messages.{processor_message};
    ghost use Rattle.plcr_encode.specs.Images.{processor_of};
    ghost use Rattle.plcr_encode.specs.declared.limits.TheConstants.{PROCESSOR_BYTES};

    ghost fields = { λ part. processor_message (processor_of part.cpu part.subtype) };

    ghost fits = { λ part. Unit {0} };

    ghost most = { PROCESSOR_BYTES };

    #[tactic(auto, unfolding(plcr_report::specs::Messages::processor_message))]
    fn len(&self) -> u64 {
        number_len(Processor::ENCODING, MACH_ENCODING)
            + number_len(Processor::CPU, self.cpu as u64)
            + number_len(Processor::SUBTYPE, self.subtype as u64)
    }

    #[tactic(auto, using(plcr_wire::proofs::Writing::wrote_twice, plcr_wire::proofs::Writing::wrote_none), unfolding(plcr_report::specs::Messages::processor_message))]
    fn put<W: Ink>(&self, ink: &mut W) {
        put_number(ink, Processor::ENCODING, MACH_ENCODING);
        put_number(ink, Processor::CPU, self.cpu as u64);
        put_number(ink, Processor::SUBTYPE, self.subtype as u64);
    }

    ghost moderate = { lit< tt };
}

/// A loaded image: its header's address, its name, and what stands at the header.
#[derive(Drop)]
struct ImagePart<'a> {
    header: u64,
    name: &'a [u8],
    found: &'a Result<plcr_macho::Image, ImageFault>,
}

impl Message for ImagePart<'_> {
    ghost use Rattle.std.proofs.Common.{lit<};
    ghost use Rattle.plcr_report.specs.Messages.{image_message};
    ghost use Rattle.plcr_base.specs.Limits.{IsImageName};
    ghost use Rattle.plcr_encode.specs.Images.{image_with};
    ghost use Rattle.plcr_encode.specs.declared.limits.TheConstants.{IMAGE_BYTES};

    ghost fields = { λ part.
        image_message (image_with (record { header = part.header; name = part.name.now })
        part.found.now) };

    ghost fits = { λ part. IsImageName part.name.now };

    ghost most = { IMAGE_BYTES };

    #[tactic(auto, unfolding(plcr_report::specs::Messages::image_message))]
    fn len(&self) -> u64 {
        let base = number_len(Image::BASE_ADDRESS, self.header);
        let name = text_len(Image::NAME, self.name);
        match self.found {
            Ok(image) => {
                let uuid = match &image.uuid {
                    Some(uuid) => text_len(Image::UUID, uuid),
                    None => 0,
                };
                let processor = ProcessorPart {
                    cpu: image.cpu,
                    subtype: image.subtype,
                };
                let code = message_len(Image::CODE_TYPE, &processor);
                base + number_len(Image::SIZE, image.text_size) + name + uuid + code
            }
            Err(_) => base + number_len(Image::SIZE, 0) + name,
        }
    }

    #[tactic(auto, using(plcr_wire::proofs::Writing::wrote_twice, plcr_wire::proofs::Writing::wrote_none), unfolding(plcr_report::specs::Messages::image_message))]
    fn put<W: Ink>(&self, ink: &mut W) {
        put_number(ink, Image::BASE_ADDRESS, self.header);
        match self.found {
            Ok(image) => {
                put_number(ink, Image::SIZE, image.text_size);
                put_text(ink, Image::NAME, self.name);
                if let Some(uuid) = &image.uuid {
                    put_text(ink, Image::UUID, uuid);
                }
                let processor = ProcessorPart {
                    cpu: image.cpu,
                    subtype: image.subtype,
                };
                put_message(ink, Image::CODE_TYPE, &processor);
            }
            Err(_) => {
                put_number(ink, Image::SIZE, 0);
                put_text(ink, Image::NAME, self.name);
            }
        }
    }

    ghost moderate = { lit< tt };
}

/// Writes the image at an index of the list, and gives the length of what was written. The image is
/// parsed once and its name is read once, into the room for it.
fn put_image<I: Images, W: Ink>(
    ink: &mut W,
    name: &mut ArrayVec<u8, IMAGE_NAME_BYTES>,
    images: &mut I,
    memory: &Memory,
    arch: Arch,
    i: usize,
) -> u64
    requires inside { i < length (I.images images.old) }
    requires namable { IsNamable (listed_at (I.images images.old) i) }
    ensures wrote { Wrote (W.pen ink.old) (W.pen ink.new)
        (field_spelling (message_field Report.BINARY_IMAGES
        (image_message (image_of memory.now arch (listed_at (I.images images.old) i))))) }
    ensures size { result
        ≡ length (field_spelling
        (message_field Report.BINARY_IMAGES
        (image_message (image_of memory.now arch (listed_at (I.images images.old) i))))) }
    ensures short { result ≤ FIELD_BYTES + IMAGE_BYTES }
    ensures same { I.images images.new ≡ I.images images.old }
    ensures follows { I.follows images.old images.new }
{
    let header = images.header(i);
    read_name(name, images, i);
    let found = parse(memory, arch, header);
    let part = ImagePart {
        header,
        name: name.as_slice(),
        found: &found,
    };
    put_message(ink, Report::BINARY_IMAGES, &part)
}

/// Writes the images of the list, in its order, and gives the length of what was written.
pub(crate) fn put_images<I: Images, W: Ink>(
    ink: &mut W,
    images: &mut I,
    memory: &Memory,
    arch: Arch,
) -> u64
    requires { AreNamable (I.images images.old) }
    ensures wrote { Wrote (W.pen ink.old) (W.pen ink.new)
        (spelling (message_fields Report.BINARY_IMAGES image_message
        (images_of memory.now arch (I.images images.old)))) }
    ensures size { result
        ≡ length (spelling (message_fields Report.BINARY_IMAGES image_message
        (images_of memory.now arch (I.images images.old)))) }
    ensures short { result < IMAGES_BYTES }
    ensures same { I.images images.new ≡ I.images images.old }
    ensures follows { I.follows images.old images.new }
{
    let mut name = ArrayVec::new();
    let mut length = 0;
    for i in 0..images.count() {
        length += put_image(ink, &mut name, images, memory, arch, i);
    }
    length
}
