//! The sizes that files keep to. Each is this project's own.

/// The most bytes of an issue, a rate or a price file.
pub const FILE_LIMIT: u64 = 1_048_576;

/// The most bytes of a certificate.
pub const CERTIFICATE_LIMIT: u64 = 67_108_864;
