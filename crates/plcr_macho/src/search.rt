ghost use Rattle.std.specs.Prelude.{◌≡◌};
ghost use Rattle.plcr_macho.specs.Containing.{first_over, over};
ghost use Rattle.plcr_macho.specs.Loading.{image_at};

use crate::image::Image;
use crate::images::Images;
use crate::parsing::parse;
use plcr_memory::Memory;
use plcr_regs::Arch;

// The image at a header, where the address lies in its `__TEXT`.
fn image_over(memory: &Memory, arch: Arch, header: u64, address: u64) -> Option<Image>
    ensures { result ≡ over address (image_at memory.now arch header) }
{
    let Ok(image) = parse(memory, arch, header) else {
        return None;
    };
    if image.header <= address && address - image.header < image.text_size {
        Some(image)
    } else {
        None
    }
}

/// The first image of the list, with its index, that parses and has the address in its `__TEXT`.
#[tactic(auto, using(crate::proofs::FirstOver::passes_over, crate::proofs::FirstOver::stops_at, crate::proofs::FirstOver::none_over))]
pub fn containing<I: Images>(
    images: &mut I,
    memory: &Memory,
    arch: Arch,
    address: u64,
) -> Option<(usize, Image)>
    ensures first { result ≡ first_over memory.now arch address 0 (I.images images.old) }
    ensures same { I.images images.new ≡ I.images images.old }
    ensures index { I.extents images.new ≡ I.extents images.old }
    ensures follows { I.follows images.old images.new }
{
    for index in 0..images.count() {
        let header = images.header(index);
        if let Some(image) = image_over(memory, arch, header, address) {
            return Some((index, image));
        }
    }
    None
}
