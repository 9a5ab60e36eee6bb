/// A symbol of an image as it lies in memory: its address, and where its name begins, which has so
/// many bytes before the zero that ends it.
#[derive(Clone, Copy, Debug, PartialEq, Eq)]
pub struct SymbolAt {
    pub value: u64,
    pub name_at: u64,
    pub name_len: u32,
}
