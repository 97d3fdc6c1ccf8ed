//! Which affinities the builder of `ExecCPUAffinity` rejects.
ghost use Rattle.std.specs.Prelude.{◌≡◌, ◌⊎◌, ℕ, List, Some, IfOk, IfErr, string_bytes};
ghost use Rattle.oci_base.specs.Refused.{Says};
ghost use Rattle.oci_text.specs.Affinities.{AreLists, IsFirstOther};
ghost use Rattle.oci_process.specs.RefusedAffinities.{affinity_refusal};

use super::{ExecCPUAffinity, ExecCPUAffinityBuilder};
use oci_base::{OciSpecError, Result};
use oci_text::refused_affinity;
use std::alloc::{AllocError, Global};

impl ExecCPUAffinityBuilder {
    /// Returns the record of the fields that were set. Fails with `Other`, which names the first text that is no CPU list, `initial`
    /// before `cpu_affinity_final`, and with `Memory` if out of memory.
    pub fn build(self, alloc: Global) -> Result<ExecCPUAffinity>
        ensures built { IfOk result (λ x. self ≡ record { initial = x.initial; cpu_affinity_final = x.cpu_affinity_final }) }
        ensures lists { IfOk result (λ x. AreLists self.initial self.cpu_affinity_final) }
        ensures err { IfErr result (λ e. (e ≡ OciSpecError.Memory) ⊎ (text : List ℕ) × IsFirstOther self.initial self.cpu_affinity_final text × Says (affinity_refusal text) e) }
    {
        let ExecCPUAffinityBuilder {
            initial,
            cpu_affinity_final,
        } = self;
        if let Some(text) = refused_affinity(&initial, &cpu_affinity_final) {
            return Err(OciSpecError::Other(refusal(alloc, text)?));
        }
        Ok(ExecCPUAffinity {
            initial,
            cpu_affinity_final,
        })
    }
}

fn refusal(alloc: Global, text: &str) -> std::result::Result<String, AllocError>
    ensures { IfOk result (λ t. string_bytes t ≡ affinity_refusal text.now) }
{
    format!(in alloc; "Invalid execCPUAffinity format: {text}")
}
