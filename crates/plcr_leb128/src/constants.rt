//! Constants of LEB128 numbers (DWARF 4, section 7.6).

/// A number of 64 bits has at most so many bytes of seven bits each.
pub const MOST_BYTES: u32 = 10;

/// The high bit of a byte, which tells that another byte of the number follows. The bits below it
/// are its group.
pub const HIGH_BIT: u8 = 0x80;

/// The highest bit of a group. In a signed number's last group it is the sign.
pub const SIGN_BIT: u8 = 0x40;
