//! What a runtime does with a bundle before it starts a container: it loads the specification, has the root's path made
//! canonical, takes away a capability, masks a path, makes the root read-only, and saves the specification.
ghost use Rattle.std.specs.Prelude.{◌≡◌, ◌++◌, [], ◌∷◌, true, codes, Some, IfOk, IfSome, OnErr, OnOk, is_some};
ghost use Rattle.oci_spec.specs.declared.runtime.Capability.TheVariants.{SysAdmin};
ghost use Rattle.oci_examples.specs.Policy.{HasCapability, HasOthers, HaveOthers, IsIn, Masks, MayUse, texts};

use crate::paths::cleaned;
use oci_json::to_string_pretty;
use oci_spec::Result;
use oci_spec::runtime::{Capabilities, Capability, Linux, LinuxCapabilities, Spec};
use std::alloc::Global;
use std::rt::Files;

/// A set without a capability, where there is a set.
#[tactic(auto, unfolding(crate::specs::Policy::HasOthers))]
fn without(set: &Option<Capabilities>, dropped: Capability) -> Result<Option<Capabilities>>
    ensures gone { IfOk result (λ kept. ¬ IsIn dropped kept) }
    ensures others { IfOk result (λ kept. HasOthers dropped set.now kept) }
    ensures there { IfOk result (λ kept. is_some kept ≡ is_some set.now) }
{
    let Some(set) = set else {
        return Ok(None);
    };
    let mut kept = set.clone()?;
    kept.remove(&dropped);
    Ok(Some(kept))
}

/// Takes a capability out of all five sets.
fn drop_capability(sets: &mut LinuxCapabilities, dropped: Capability) -> Result<()>
    ensures gone { OnOk result (¬ HasCapability sets.new dropped) }
    ensures others { OnOk result (HaveOthers dropped sets.old sets.new) }
{
    let bounding = without(sets.bounding(), dropped)?;
    let effective = without(sets.effective(), dropped)?;
    let inheritable = without(sets.inheritable(), dropped)?;
    let permitted = without(sets.permitted(), dropped)?;
    let ambient = without(sets.ambient(), dropped)?;
    sets.set_bounding(bounding)
        .set_effective(effective)
        .set_inheritable(inheritable)
        .set_permitted(permitted)
        .set_ambient(ambient);
    Ok(())
}

/// Adds a path to those that the container cannot read.
#[tactic(auto, using(std::proofs::lemmas::List::map_push))]
fn mask(linux: &mut Linux, alloc: Global, path: &str) -> Result<()>
    ensures masked { OnOk result (texts linux.new.masked_paths ≡ texts linux.old.masked_paths ++ path.now ∷ []) }
    ensures refused { OnErr result (texts linux.new.masked_paths ≡ texts linux.old.masked_paths) }
    ensures others { linux.new ≡ record linux.old { masked_paths = linux.new.masked_paths } }
{
    let path = String::from_str(alloc, path)?;
    let masked = linux.masked_paths_mut().get_or_insert(Vec::new(alloc));
    masked.push(path)?;
    Ok(())
}

/// Drops `CAP_SYS_ADMIN`, masks `/sys/firmware`, and makes the root read-only.
fn tighten(spec: &mut Spec, alloc: Global) -> Result<()>
    ensures dropped { OnOk result (¬ MayUse spec.new SysAdmin) }
    ensures masked { OnOk result (Masks spec.old (codes "/sys/firmware") spec.new) }
    ensures readonly { OnOk result (IfSome spec.new.root (λ root. root.readonly ≡ Some true)) }
    ensures others { spec.new ≡ record spec.old { process = spec.new.process; linux = spec.new.linux; root = spec.new.root } }
{
    if let Some(process) = spec.process_mut() {
        if let Some(sets) = process.capabilities() {
            let mut sets = sets.clone(alloc)?;
            drop_capability(&mut sets, Capability::SysAdmin)?;
            process.set_capabilities(Some(sets));
        }
    }
    if let Some(linux) = spec.linux_mut() {
        mask(linux, alloc, "/sys/firmware")?;
    }
    if let Some(root) = spec.root_mut() {
        root.set_readonly(Some(true));
    }
    Ok(())
}

/// Tightens the specification of a bundle's file, saves it in another and prints what was saved. The root's path is made canonical by its
/// text alone; a runtime would ask the file system, where names can be links.
pub fn print<R: Files + Print + AllocGlobal>(
    rt: &R,
    bundle: &str,
    loaded: &str,
    saved: &str,
) -> Result<()> {
    let alloc = rt.alloc();
    let mut spec = Spec::load(rt, alloc, loaded)?;
    let resolver = |path: &str| -> Result<String> { Ok(cleaned(alloc, path)?) };
    spec.canonicalize_rootfs(alloc, bundle, &resolver)?;
    tighten(&mut spec, alloc)?;
    spec.save(rt, alloc, saved)?;
    let spec = Spec::load(rt, alloc, saved)?;
    rt.println(&to_string_pretty(&spec, alloc)?)?;
    Ok(())
}
