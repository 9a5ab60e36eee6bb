//! Encodings by their modes (compact_unwind_encoding.h).

/// A register of x86-64 that a function saves for its caller.
#[derive(Clone, Copy, Debug, Default, PartialEq, Eq)]
pub enum SavedRegister {
    #[default]
    Rbx,
    R12,
    R13,
    R14,
    R15,
    Rbp,
}

/// Which registers a function without a frame saved, and in which order: how many of the six they
/// are, and the number of their order among all orders of so many.
#[derive(Clone, Copy, Debug, PartialEq, Eq)]
pub struct Permutation {
    pub count: u32,
    pub number: u32,
}

/// How many these registers are.
pub const SAVED_REGISTERS: usize = 6;

/// Pairs of arm64's registers, from x19 and x20 to x27 and x28: whether each was saved.
pub const PAIRS: usize = 5;

/// A frame with rbp names at most so many registers.
pub const FRAME_REGISTERS: usize = 5;

/// How the frame of a function is laid out. Sizes and offsets are in bytes.
#[derive(Clone, Copy, Debug, PartialEq, Eq)]
pub enum Encoding {
    /// x86-64: the function keeps its frame in rbp, and saved these registers from `offset` bytes
    /// below it upwards.
    RbpFrame {
        offset: u32,
        registers: [Option<SavedRegister>; FRAME_REGISTERS],
    },
    /// x86-64: the function keeps no frame pointer, and its stack has `size` bytes, the return
    /// address among them.
    StackImmediate {
        size: u32,
        saved: Permutation,
    },
    /// The same, where the size is the sum of `adjust` and the word that stands in the code so far
    /// from the function's start.
    StackIndirect {
        size_at: u32,
        adjust: u32,
        saved: Permutation,
    },
    /// arm64: the function keeps no frame pointer, and its stack has `size` bytes. lr has the
    /// return address.
    Frameless {
        size: u32,
        pairs: [bool; PAIRS],
    },
    /// arm64: the function keeps its frame in fp.
    Frame {
        pairs: [bool; PAIRS],
    },
}
