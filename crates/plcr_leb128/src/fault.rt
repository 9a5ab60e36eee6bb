/// Why no LEB128 number is read at a place.
#[derive(Clone, Copy, Debug, PartialEq, Eq)]
pub enum Leb128Fault {
    /// A byte of it isn't there.
    Absent,
    /// It has more than ten bytes, all of which are there.
    Long,
}
