//! What `MediaType` alone has: its text as a string of its own, and its media type in the Docker image manifest.
ghost use Rattle.std.specs.Prelude.{◌≡◌, ℕ, List, IfOk, IfErr, Option, Some, None, string_bytes};
ghost use Rattle.oci_base.specs.Names.{name_text};
ghost use Rattle.oci_text.specs.MediaType.{media_type_name};
ghost use Rattle.oci_text.specs.MediaTypeOwn.{docker_name};

use super::MediaType;
use oci_base::{OciSpecError, Result};
use std::alloc::Global;
use std::fmt;

impl MediaType {
    /// The text. That of `Other` is handed over as it is.
    pub fn into_string(self, alloc: Global) -> Result<String>
        ensures ok { IfOk result (λ t. string_bytes t ≡ name_text (media_type_name self)) }
        ensures err { IfErr result (λ e. e ≡ OciSpecError.Memory) }
    {
        match self {
            MediaType::Other(text) => Ok(text),
            named => Ok(String::from_str(alloc, named.as_ref())?),
        }
    }
}

/// What has a media type in the Docker image manifest, version 2, schema 2, too.
pub trait ToDockerV2S2 {
    /// That media type, if there is one.
    ghost docker_text: { Self → Option (List ℕ) };

    /// Returns the media type that the Docker image manifest, version 2, schema 2, has for this one; fails with a formatting error
    /// if it has none.
    fn to_docker_v2s2(&self) -> std::result::Result<&str, fmt::Error>
        ensures ok { IfOk result (λ t. docker_text self.now ≡ Some t.now) }
        ensures err { IfErr result (λ e. docker_text self.now ≡ None) };
}

impl ToDockerV2S2 for MediaType {
    ghost docker_text = { docker_name };

    fn to_docker_v2s2(&self) -> std::result::Result<&str, fmt::Error> {
        match self {
            MediaType::ImageIndex => {
                Ok("application/vnd.docker.distribution.manifest.list.v2+json")
            }
            MediaType::ImageManifest => Ok("application/vnd.docker.distribution.manifest.v2+json"),
            MediaType::ImageConfig => Ok("application/vnd.docker.container.image.v1+json"),
            MediaType::ImageLayerGzip => Ok("application/vnd.docker.image.rootfs.diff.tar.gzip"),
            _ => Err(fmt::Error),
        }
    }
}
