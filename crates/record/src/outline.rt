// The outline of an AVP (docs/FORMAT.md, 6.4): its header, where its data stand, and its padding. It says nothing of what
// the data are.

#[derive(Clone, Copy, Debug, PartialEq, Eq)]
pub struct Outline {
    pub code: u32,
    pub flags: u8,
    /// Actually u24
    pub length: u32,
    /// 0 without the vendor bit
    pub vendor: u32,
    /// Where the data stand in the input
    pub place: usize,
    /// How many bytes of padding
    pub padding: u8,
    /// The padding as a number of three bytes, the unused ones 0
    pub pads: u32,
}
