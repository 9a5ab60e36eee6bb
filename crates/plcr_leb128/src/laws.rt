ghost use Rattle.std.specs.Prelude.{◌≡◌, ℕ, ◌+◌, ◌^◌, ◌%◌, ◌≤◌, ℤ, List, length, Some, Ok, Err};
ghost use Rattle.plcr_leb128.specs.declared.constants.TheConstants.{MOST_BYTES};
ghost use Rattle.plcr_leb128.specs.declared.fault.Leb128Fault.TheVariants.{Absent, Long};
ghost use Rattle.plcr_leb128.specs.declared.leb128.Number.{Number};
ghost use Rattle.plcr_memory.specs.Regions.{Contents, bytes_at};
ghost use Rattle.plcr_leb128.specs.Cells.{AreBytes, Bytes, list_bytes, piece_bytes};
ghost use Rattle.plcr_leb128.specs.Leb128.{HasSigned, HasUnsigned, IsCut, IsLong, IsSigned, IsUnsigned, Stand, signed_at, unsigned_at, word_of};

/// What a LEB128 number is (DWARF 4, section 7.6): groups of seven bits, the low one first, in
/// bytes whose high bit tells that another follows.
#[tactic(auto, using(crate::proofs::Numbers::unsigned_read, crate::proofs::Numbers::signed_read, crate::proofs::Numbers::unsigned_has, crate::proofs::Numbers::signed_has, crate::proofs::Numbers::unsigned_cut, crate::proofs::Numbers::unsigned_long, crate::proofs::Numbers::signed_cut, crate::proofs::Numbers::signed_long))]
pub fn leb128_is_read()
    // The bytes of a number, at most ten, are read where they stand.
    ensures unsigned { (cells : Bytes) (place : ℕ) (bytes : List ℕ) (n : ℕ) →
        length bytes ≤ MOST_BYTES → IsUnsigned bytes n → Stand cells place bytes →
        unsigned_at cells place ≡ Ok (record { value = n % 2 ^ 64; next = place + length bytes }) }
    ensures signed { (cells : Bytes) (place : ℕ) (bytes : List ℕ) (z : ℤ) →
        length bytes ≤ MOST_BYTES → IsSigned bytes z → Stand cells place bytes →
        signed_at cells place ≡ Ok (record { value = word_of z; next = place + length bytes }) }

    // What is read stands there.
    ensures has_unsigned { (cells : Bytes) → AreBytes cells → (place : ℕ) (number : Number) →
        unsigned_at cells place ≡ Ok number → HasUnsigned cells place number }
    ensures has_signed { (cells : Bytes) → AreBytes cells → (place : ℕ) (number : Number) →
        signed_at cells place ≡ Ok number → HasSigned cells place number }

    // Where nothing is read, a byte that should follow isn't there, or ten bytes go on.
    ensures cut { (cells : Bytes) (place : ℕ) → unsigned_at cells place ≡ Err Absent →
        IsCut cells place }
    ensures long { (cells : Bytes) (place : ℕ) → unsigned_at cells place ≡ Err Long →
        IsLong cells place }
    ensures alike_cut { (cells : Bytes) (place : ℕ) → signed_at cells place ≡ Err Absent →
        IsCut cells place }
    ensures alike_long { (cells : Bytes) (place : ℕ) → signed_at cells place ≡ Err Long →
        IsLong cells place }
{}

/// The bytes of a piece of memory as a slice, where it ends within the addresses of 64 bits, are
/// the same bytes at the same places, so that what is read is the same.
#[tactic(auto, using(crate::proofs::Fixed::stored_bytes))]
pub fn slices_are_pieces()
    ensures { (memory : Contents) (at size : ℕ) (bytes : List ℕ) → at + size ≤ 2 ^ 64 →
        bytes_at memory at size ≡ Some bytes → list_bytes bytes ≡ piece_bytes memory at size }
{}
