//! Bytes that a caller lends.

/// Bytes that a caller lends: in C a pointer and a length.
#[repr(C)]
pub struct Lent<'a> {
    /// The bytes.
    pub bytes: &'a [u8],
}
