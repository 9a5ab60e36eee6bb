//! Numbers as bytes.
ghost use Rattle.std.specs.Prelude.{◌≡◌, ◌+◌, ◌*◌, ◌≤◌, ◌++◌, length};
ghost use Rattle.arrayvec.specs.ArrayVec.{array_vec_len};
ghost use Rattle.plcr_make.specs.Numbers.{u32s, u64s};

use arrayvec::ArrayVec;
use plcr_io::add_bytes;

/// Adds numbers of 4 bytes, the lowest byte first, to a piece that has room for them.
pub(crate) fn push_u32s<const N: usize>(piece: &mut ArrayVec<u8, N>, numbers: &[u32])
    requires { array_vec_len piece.old + 4 * length numbers.now ≤ N }
    ensures items { piece.new.items ≡ piece.old.items ++ u32s numbers.now }
    ensures len { array_vec_len piece.new ≡ array_vec_len piece.old + 4 * length numbers.now }
{
    for number in numbers {
        add_bytes(piece, &number.to_le_bytes());
    }
}

/// Adds numbers of 8 bytes, the lowest byte first, to a piece that has room for them.
pub(crate) fn push_u64s<const N: usize>(piece: &mut ArrayVec<u8, N>, numbers: &[u64])
    requires { array_vec_len piece.old + 8 * length numbers.now ≤ N }
    ensures items { piece.new.items ≡ piece.old.items ++ u64s numbers.now }
    ensures len { array_vec_len piece.new ≡ array_vec_len piece.old + 8 * length numbers.now }
{
    for number in numbers {
        add_bytes(piece, &number.to_le_bytes());
    }
}
