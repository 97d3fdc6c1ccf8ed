//! Mounts from a table.
ghost use Rattle.std.specs.Prelude.{◌≡◌, IfOk, IfErr, map};
ghost use Rattle.oci_model.specs.Plain as plain;
ghost use Rattle.oci_model.specs.Types.{perhaps, list_plain, text_plain};
ghost use Rattle.oci_runtime_records.specs.Mount.{mount_plain};
ghost use Rattle.oci_runtime_records.specs.DefaultMounts.{mount_of_row, options_slot};

use super::Mount;
use crate::defaults::MountRow;
use oci_base::{OciSpecError, Result};
use oci_linux::texts_of;
use std::alloc::Global;

impl Mount {
    // a row's mount, which has no options where the row has none
    pub(crate) fn of_row(alloc: Global, row: &MountRow) -> Result<Mount>
        ensures ok { IfOk result (λ x. mount_plain x ≡ mount_of_row row.now) }
        ensures err { IfErr result (λ e. e ≡ OciSpecError.Memory) }
    {
        let options = options_of(alloc, row.options)?;
        Ok(Mount {
            destination: String::from_str(alloc, row.destination)?,
            typ: Some(String::from_str(alloc, row.typ)?),
            source: Some(String::from_str(alloc, row.source)?),
            options,
            uid_mappings: None,
            gid_mappings: None,
        })
    }
}

// options, where there are any
#[tactic(auto, using(crate::proofs::Options::no_options, crate::proofs::Options::some_options))]
fn options_of(alloc: Global, options: &[&'static str]) -> Result<Option<Vec<String>>>
    ensures ok { IfOk result (λ x. perhaps (list_plain text_plain) x ≡ options_slot (map (λ t. plain.text t.now) options.now)) }
    ensures err { IfErr result (λ e. e ≡ OciSpecError.Memory) }
{
    if options.is_empty() {
        return Ok(None);
    }
    let listed = texts_of(alloc, options)?;
    Ok(Some(listed))
}
