//! What C is told about a word.

/// What a word tells about itself: its kind, 0 inline, 1 static, 2 dynamic; the index of a static one; the serial and the bucket of a dynamic one.
/// What a kind doesn't have is 0.
#[repr(C)]
#[derive(Drop)]
pub struct ScForm {
    pub kind: u8,
    pub bucket: u16,
    pub index: u32,
    pub serial: u64,
}
