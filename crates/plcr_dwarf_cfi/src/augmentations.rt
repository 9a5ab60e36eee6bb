//! Letters of augmentation texts (Linux Standard Base Core, "The Common Information Entry Format").

/// Augmentation data of a length of its own is there. Where a text has it, it is the first letter.
pub const AUGMENTED: u8 = b'z';

/// How pointers of the frame description entries are encoded.
pub const POINTER_ENCODING: u8 = b'R';

/// How pointers to language data are encoded.
pub const LANGUAGE_DATA: u8 = b'L';

/// A pointer to a personality routine, behind its encoding.
pub const PERSONALITY: u8 = b'P';

/// A signal frame: its caller stands at its program counter itself.
pub const SIGNAL_FRAME: u8 = b'S';
