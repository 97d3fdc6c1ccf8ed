//! Which mounts the builder of `Mount` rejects.
ghost use Rattle.std.specs.Prelude.{◌≡◌, None, IfOk, IfErr, OnOk, unwrap_or, option_map, []};
ghost use Rattle.oci_base.specs.Refused.{Refuses};
ghost use Rattle.oci_model.specs.Plain as plain;
ghost use Rattle.oci_model.specs.Types.{text_plain};
ghost use Rattle.oci_runtime_records.specs.MountBuilder.{mount_refusal, has_items};

use super::{Mount, MountBuilder};
use oci_base::{OciSpecError, Result};
use oci_linux::LinuxIdMapping;
use std::alloc::Global;

impl MountBuilder {
    /// The document of the fields that were set; the others have their defaults. `Other` where there are mappings of users
    /// and none of groups, or the other way round; reading a mount asks for nothing of the kind.
    pub fn build(self, alloc: Global) -> Result<Mount>
        ensures destination { IfOk result (λ x. text_plain x.destination ≡ unwrap_or (option_map text_plain self.destination) (plain.text [])) }
        ensures typ { IfOk result (λ x. x.typ ≡ self.typ) }
        ensures source { IfOk result (λ x. x.source ≡ self.source) }
        ensures options { IfOk result (λ x. x.options ≡ self.options) }
        ensures uid_mappings { IfOk result (λ x. x.uid_mappings ≡ self.uid_mappings) }
        ensures gid_mappings { IfOk result (λ x. x.gid_mappings ≡ self.gid_mappings) }
        ensures together { OnOk result (mount_refusal self ≡ None) }
        ensures err { IfErr result (Refuses (mount_refusal self)) }
    {
        if has_items(&self.uid_mappings) != has_items(&self.gid_mappings) {
            return Err(OciSpecError::Other(String::from_str(
                alloc,
                "Mount.uidMappings and Mount.gidMappings must be specified together",
            )?));
        }
        let MountBuilder {
            destination,
            typ,
            source,
            options,
            uid_mappings,
            gid_mappings,
        } = self;
        let destination = match destination {
            Some(destination) => destination,
            None => String::new(alloc),
        };
        Ok(Mount {
            destination,
            typ,
            source,
            options,
            uid_mappings,
            gid_mappings,
        })
    }
}

fn has_items(mappings: &Option<Vec<LinuxIdMapping>>) -> bool
    ensures { result ≡ has_items mappings.now }
{
    match mappings {
        Some(listed) => !listed.is_empty(),
        None => false,
    }
}
