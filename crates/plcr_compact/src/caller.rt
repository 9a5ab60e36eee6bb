use arrayvec::ArrayVec;

/// How many bytes a word of the stack has.
pub const WORD: u64 = 8;

/// A word on the stack that a function saved: where it stands, counted without modulo, and the
/// place of the register whose value it is.
#[derive(Clone, Copy, Debug, Default, PartialEq, Eq)]
pub struct SavedWord {
    pub at: i128,
    pub place: usize,
}

/// A function saves at most so many words: ten of pairs, the frame pointer and the return address.
pub const MOST_WORDS: usize = 12;

/// The words that a function saved.
pub type Words = ArrayVec<SavedWord, MOST_WORDS>;

/// What is known of a caller before the stack is read, beside the registers that functions keep and
/// the words that hold others: its pc, where a register has it, and its stack pointer, counted
/// without modulo.
#[derive(Clone, Copy)]
pub struct Caller {
    pub back: Option<u64>,
    pub stack: i128,
}
