//! The names of images, read word by word.
ghost use Rattle.std.specs.Prelude.{◌≡◌, ◌+◌, ◌<◌, ◌≤◌, ◌++◌, length, take};
ghost use Rattle.std.specs.Int.{w64, to_le_bytes};
ghost use Rattle.arrayvec.specs.ArrayVec.{array_vec_len};
ghost use Rattle.plcr_base.specs.declared.limits.TheConstants.{IMAGE_NAME_BYTES};
ghost use Rattle.plcr_macho.specs.Images.{listed_at};
ghost use Rattle.plcr_encode.specs.Conditions.{IsNamable};

use arrayvec::ArrayVec;
use plcr_base::IMAGE_NAME_BYTES;
use plcr_macho::Images;

/// Appends the first bytes of a word, the lowest first.
fn push_front(name: &mut ArrayVec<u8, IMAGE_NAME_BYTES>, word: u64, count: usize)
    requires within { count ≤ 8 }
    requires room { array_vec_len name.old + count ≤ IMAGE_NAME_BYTES }
    ensures { name.new.items ≡ name.old.items ++ take count (to_le_bytes w64 word) }
{
    let bytes = word.to_le_bytes();
    match name.try_extend_from_slice(&bytes[..count]) {
        Ok(()) => {}
        Err(_) => unreachable!(),
    }
}

/// Reads the name of the image at an index, in place of what stood in the room.
pub(crate) fn read_name<I: Images>(
    name: &mut ArrayVec<u8, IMAGE_NAME_BYTES>,
    images: &mut I,
    i: usize,
)
    requires inside { i < length (I.images images.old) }
    requires short { IsNamable (listed_at (I.images images.old) i) }
    ensures name { name.new.items ≡ (listed_at (I.images images.old) i).name }
    ensures same { I.images images.new ≡ I.images images.old }
    ensures follows { I.follows images.old images.new }
{
    name.clear();
    let len = images.name_len(i);
    for j in 0..len.div_ceil(8) {
        let word = images.name_word(i, j);
        push_front(name, word, (len - 8 * j).min(8));
    }
}
