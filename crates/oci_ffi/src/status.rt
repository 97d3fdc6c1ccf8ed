//! Statuses.

/// Success.
pub const DONE: u32 = 0;
/// The output does not fit into the buffer; its length is returned.
pub const BUFFER_TOO_SMALL: u32 = 1;
/// Out of memory.
pub const OUT_OF_MEMORY: u32 = 2;
/// The number is that of no kind of document.
pub const UNKNOWN_KIND: u32 = 3;
/// The document is not JSON.
pub const INVALID_JSON: u32 = 4;
/// The document is JSON that its schema does not allow, or that has no canonical form.
pub const INVALID_DOCUMENT: u32 = 5;
/// The text is not UTF-8.
pub const INVALID_UTF8: u32 = 6;
/// The text is not a digest.
pub const INVALID_DIGEST: u32 = 7;
/// The content has another size.
pub const OTHER_SIZE: u32 = 8;
/// The content has another digest.
pub const OTHER_DIGEST: u32 = 9;
/// The digest is by another algorithm than `sha256`, `sha384` and `sha512`.
pub const UNKNOWN_ALGORITHM: u32 = 10;
/// The number is that of no level of rules.
pub const UNKNOWN_LEVEL: u32 = 11;
/// The number is that of no platform.
pub const UNKNOWN_PLATFORM: u32 = 12;
/// The text is not a reference: it is empty.
pub const NAME_EMPTY: u32 = 16;
/// The text is not a reference: the repository has an uppercase letter.
pub const NAME_CONTAINS_UPPERCASE: u32 = 17;
/// The text is not a reference: the repository is longer than 255 bytes.
pub const NAME_TOO_LONG: u32 = 18;
/// Never returned: a tag outside the grammar is `REFERENCE_INVALID_FORMAT`.
pub const TAG_INVALID_FORMAT: u32 = 19;
/// Never returned: a digest outside the grammar is `REFERENCE_INVALID_FORMAT`.
pub const DIGEST_INVALID_FORMAT: u32 = 20;
/// The text is not a reference: the digest does not have the 64, 96 or 128 digits of its algorithm.
pub const DIGEST_INVALID_LENGTH: u32 = 21;
/// The text is not a reference: the digest is by another algorithm than `sha256`, `sha384` and `sha512`.
pub const DIGEST_UNSUPPORTED: u32 = 22;
/// The text is not a reference: it is outside the grammar.
pub const REFERENCE_INVALID_FORMAT: u32 = 23;
