/// Where an image of a list has its `__TEXT`: the address of its header, the size in bytes, an
/// address that is no less than the end of its range and of those before it in the index, and the
/// image's position in the list.
#[derive(Clone, Copy, Debug, PartialEq, Eq)]
pub struct Spot {
    pub start: u64,
    pub size: u64,
    pub reach: u64,
    pub position: u32,
}
