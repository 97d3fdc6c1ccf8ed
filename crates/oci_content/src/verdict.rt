//! Verdicts.
use crate::checksum::Checksum;

/// How a content stands to the digest and the size that are said of it.
#[derive(Clone, Copy, Debug, PartialEq, Eq)]
pub enum Verdict {
    /// It has this size and this digest.
    Same,
    /// It ends after so many bytes, which are fewer than is said.
    Shorter(u64),
    /// It has more bytes than is said.
    Longer,
    /// It has the size, and by the algorithm that the digest names it has this other digest.
    OtherDigest(Checksum),
    /// It has the size, and the digest is by an algorithm that is not known here.
    Unjudged,
}
