//! Compressed archives, by their first bytes.
ghost use Rattle.std.specs.Prelude.{◌≡◌};
ghost use Rattle.tar_folder.specs.Compressions.{format_of};

/// A format of compressed data.
#[derive(Clone, Copy, Debug, PartialEq, Eq)]
pub enum Compression {
    /// RFC 1952, 2.3.1.
    Gzip,
    /// RFC 8878, 3.1.1.
    Zstandard,
    Bzip2,
    /// The .xz File Format, 2.1.1.1.
    Xz,
}

/// The format of compressed data that begins so, if it is one of these. At most six bytes are looked at.
pub fn compression_of(front: &[u8]) -> Option<Compression>
    ensures { result ≡ format_of front.now }
{
    if front.starts_with(b"\x1f\x8b") {
        return Some(Compression::Gzip);
    }
    if front.starts_with(b"\x28\xb5\x2f\xfd") {
        return Some(Compression::Zstandard);
    }
    if front.starts_with(b"BZh") {
        return Some(Compression::Bzip2);
    }
    if front.starts_with(b"\xfd7zXZ\0") {
        return Some(Compression::Xz);
    }
    None
}
