//! Bytes with a name.

/// A file's name and its bytes.
#[derive(Debug, Drop)]
pub struct NamedBytes {
    /// The name.
    pub name: String,
    /// What the file holds.
    pub bytes: Vec<u8>,
}
