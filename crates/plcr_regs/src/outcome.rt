/// What a reader of frames answers that puts the frame of the caller into room that it is lent.
#[derive(Clone, Copy, Debug, PartialEq, Eq)]
pub enum Outcome {
    /// The frame of the caller stands in the room.
    Caller,
    /// There is no caller.
    End,
    /// The caller can't be found, for the reason of this number.
    Bad(u8),
}
