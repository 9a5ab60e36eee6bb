//! The images that are made.
ghost use Rattle.std.specs.Prelude.{◌≡◌, ◌<◌, ◌^◌, ◌++◌, OnOk};
ghost use Rattle.plcr_make.specs.Images as images;
ghost use Rattle.plcr_make.specs.Images.{image_bytes};

use crate::constants::{FIRST_IMAGE, IMAGE_BYTES, IMAGE_SIZE, VM_PROT_READ_EXECUTE};
use crate::numbers::push_u32s;
use crate::segments::{Segment, push_header, push_segment};
use arrayvec::ArrayVec;
use plcr_io::add_bytes;
use plcr_loader::{LC_UUID, MH_DYLIB, SEG_TEXT, segment_command_64, uuid_command};
use std::alloc::AllocError;

/// Room for the bytes of an image.
const IMAGE_ROOM: usize = IMAGE_BYTES as usize;

/// The address of an image.
pub(crate) fn image_address(k: u32) -> u64
    ensures { result ≡ images.image_address k }
{
    FIRST_IMAGE + IMAGE_SIZE * u64::from(k)
}

/// The segment of an image's text.
fn text_segment(k: u32) -> Segment
    ensures { result ≡ images.text_segment k }
{
    Segment {
        name: SEG_TEXT,
        address: image_address(k),
        memory_size: IMAGE_SIZE,
        file_offset: 0,
        file_size: IMAGE_SIZE,
        protection: VM_PROT_READ_EXECUTE,
    }
}

/// The segment of the core with an image, where those of all images begin at a place.
pub(crate) fn image_segment(start: u64, k: u32) -> Segment
    requires { start < 2 ^ 32 }
    ensures { result ≡ images.image_segment start k }
{
    Segment {
        name: [0; 16],
        address: image_address(k),
        memory_size: IMAGE_SIZE,
        file_offset: start + IMAGE_BYTES * u64::from(k),
        file_size: IMAGE_BYTES,
        protection: VM_PROT_READ_EXECUTE,
    }
}

/// Adds the bytes of an image.
pub(crate) fn add_image(bytes: &mut Vec<u8>, k: u32) -> Result<(), AllocError>
    ensures { OnOk result (bytes.new.items ≡ bytes.old.items ++ image_bytes k) }
{
    let image = image_of(k);
    bytes.extend_from_slice(image.as_slice())
}

/// The bytes of an image.
fn image_of(k: u32) -> ArrayVec<u8, IMAGE_ROOM>
    ensures { result.items ≡ image_bytes k }
{
    let size = segment_command_64::LENGTH + uuid_command::LENGTH;
    let mut image = ArrayVec::new();
    push_header(&mut image, MH_DYLIB, 2, size as u32);
    push_segment(&mut image, &text_segment(k));
    push_u32s(&mut image, &[LC_UUID, uuid_command::LENGTH as u32]);
    add_bytes(&mut image, &[0; 12]);
    add_bytes(&mut image, &k.to_be_bytes());
    image
}
