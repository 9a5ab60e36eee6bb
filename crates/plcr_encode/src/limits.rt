//! How many frames are found together, and how long the parts of a report may be at most, in bytes.
use plcr_base::IMAGE_NAME_BYTES;
use plcr_cursor::MOST_FRAMES;
use plcr_regs::MOST_REGISTERS;
use plcr_symbols::SYMBOL_NAME_BYTES;
use plcr_wire::VARINT_BYTES;

/// The frames of several threads are found together as long as they are no more than one thread may
/// have. So there is always room for those of one more thread.
pub const GROUP_FRAMES: usize = 2 * MOST_FRAMES;

/// A field that is a number, or what stands before the bytes of a text or of a message.
pub const FIELD_BYTES: u64 = 2 * VARINT_BYTES as u64;

/// The name of a register.
pub const REGISTER_NAME_BYTES: u64 = 6;

/// A register.
pub const REGISTER_BYTES: u64 = FIELD_BYTES + REGISTER_NAME_BYTES + FIELD_BYTES;

/// A symbol.
pub const SYMBOL_BYTES: u64 = FIELD_BYTES + SYMBOL_NAME_BYTES as u64 + FIELD_BYTES;

/// A frame.
pub const FRAME_BYTES: u64 = FIELD_BYTES + FIELD_BYTES + SYMBOL_BYTES;

/// A thread.
pub const THREAD_BYTES: u64 = FIELD_BYTES
    + (FIELD_BYTES + FRAME_BYTES) * MOST_FRAMES as u64
    + FIELD_BYTES
    + (FIELD_BYTES + REGISTER_BYTES) * MOST_REGISTERS as u64;

/// All threads. There are fewer than 2^32.
pub const THREADS_BYTES: u64 = (FIELD_BYTES + THREAD_BYTES) << 32;

/// A type of processor.
pub const PROCESSOR_BYTES: u64 = 3 * FIELD_BYTES;

/// The universally unique identifier of an image.
pub const UUID_BYTES: u64 = 16;

/// An image.
pub const IMAGE_BYTES: u64 = 5 * FIELD_BYTES
    + IMAGE_NAME_BYTES as u64
    + UUID_BYTES
    + PROCESSOR_BYTES;

/// All images. There are fewer than 2^32.
pub const IMAGES_BYTES: u64 = (FIELD_BYTES + IMAGE_BYTES) << 32;

/// What a context says in one message. Its texts have fewer than 2^32 bytes each.
pub const PART_BYTES: u64 = 1 << 34;

/// The fields of a report: five such messages, the threads and the images.
pub const REPORT_BYTES: u64 = 5 * (FIELD_BYTES + PART_BYTES) + THREADS_BYTES + IMAGES_BYTES;
