//! How layers are encoded.
ghost use Rattle.std.specs.Prelude.{◌≡◌, map};
ghost use Rattle.oci_layers.specs.Encodings.{encoding_of, encoding_among, layer_types, row_of, is_same_type as same_type, encoding_at_front};

use tar_folder::{Compression, compression_of};

/// How the archive of a layer is encoded.
#[derive(Clone, Copy, Debug, PartialEq, Eq)]
pub enum Encoding {
    /// The uncompressed archive.
    Plain,
    /// RFC 1952.
    Gzip,
    /// RFC 8878.
    Zstd,
}

/// A media type of layers.
#[derive(Clone, Copy)]
pub struct LayerType {
    pub media_type: &'static str,
    /// How a layer of the type is encoded.
    pub encoding: Encoding,
}

/// The media types of layers: OCI's, those of OCI's that are not distributable, and Docker's.
pub static LAYER_TYPES: [LayerType; 10] = [
    LayerType {
        media_type: "application/vnd.oci.image.layer.v1.tar",
        encoding: Encoding::Plain,
    },
    LayerType {
        media_type: "application/vnd.oci.image.layer.v1.tar+gzip",
        encoding: Encoding::Gzip,
    },
    LayerType {
        media_type: "application/vnd.oci.image.layer.v1.tar+zstd",
        encoding: Encoding::Zstd,
    },
    LayerType {
        media_type: "application/vnd.oci.image.layer.nondistributable.v1.tar",
        encoding: Encoding::Plain,
    },
    LayerType {
        media_type: "application/vnd.oci.image.layer.nondistributable.v1.tar+gzip",
        encoding: Encoding::Gzip,
    },
    LayerType {
        media_type: "application/vnd.oci.image.layer.nondistributable.v1.tar+zstd",
        encoding: Encoding::Zstd,
    },
    LayerType {
        media_type: "application/vnd.docker.image.rootfs.diff.tar",
        encoding: Encoding::Plain,
    },
    LayerType {
        media_type: "application/vnd.docker.image.rootfs.diff.tar.gzip",
        encoding: Encoding::Gzip,
    },
    LayerType {
        media_type: "application/vnd.docker.image.rootfs.diff.tar.zstd",
        encoding: Encoding::Zstd,
    },
    LayerType {
        media_type: "application/vnd.docker.image.rootfs.foreign.diff.tar.gzip",
        encoding: Encoding::Gzip,
    },
];

impl Encoding {
    /// How a layer of this media type is encoded; none where it is no type of layers. Letters' case does not count (RFC 6838, 4.2).
    pub fn of_media_type(media_type: &str) -> Option<Encoding>
        ensures { result ≡ encoding_of media_type.now }
    {
        encoding_in(&LAYER_TYPES, media_type)
    }
}

/// How a layer of this media type is encoded by these rows.
fn encoding_in(rows: &[LayerType], media_type: &str) -> Option<Encoding>
    ensures { result ≡ encoding_among (map row_of rows.now) media_type.now }
{
    for row in rows {
        if is_same_type(media_type, row.media_type) {
            return Some(row.encoding);
        }
    }
    None
}

/// Whether two texts are one media type: its names are compared without regard to case (RFC 6838, 4.2).
fn is_same_type(media_type: &str, other: &str) -> bool
    ensures { result ≡ same_type media_type.now other.now }
{
    media_type.eq_ignore_ascii_case(other)
}

/// How a layer is encoded that begins so; none where it begins as data in a format that no media type of layers has. At most six bytes are
/// looked at. What begins as no compressed data is taken for an uncompressed archive, and an archive whose first
/// entry has a name that begins as compressed data, as `BZh`, is taken for that.
pub fn encoding_of_front(front: &[u8]) -> Option<Encoding>
    ensures { result ≡ encoding_at_front front.now }
{
    match compression_of(front) {
        None => Some(Encoding::Plain),
        Some(Compression::Gzip) => Some(Encoding::Gzip),
        Some(Compression::Zstandard) => Some(Encoding::Zstd),
        Some(Compression::Bzip2) | Some(Compression::Xz) => None,
    }
}
