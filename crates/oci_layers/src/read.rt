//! The entries of a layer, and what they break.
ghost use Rattle.std.specs.Prelude.{◌↔◌, ℕ, List, map, Err, IfOk, IfErr, IfSome, ◌≡◌};
ghost use Rattle.std.specs.List.{Contains};
ghost use Rattle.tar.specs.Archives.{Holds, Breaks};
ghost use Rattle.tar.specs.Entries.{Member, nothing_said};
ghost use Rattle.tar.specs.Places.{IsIndexOf};
ghost use Rattle.tar_folder.specs.Bounds.{IsWithin};
ghost use Rattle.tar_folder.specs.Errors.{OnFault};
ghost use Rattle.oci_layers.specs.Decided.{members};
ghost use Rattle.oci_layers.specs.Rules.{IsBroken};
ghost use Rattle.oci_layers.specs.declared.broken.LayerFinding.{LayerFinding};

use crate::broken::{LayerFinding, broken_rules};
use std::alloc::Global;
use tar::Skip;
use tar_folder::{Bounds, Index, IndexError, read_index};

/// The entries of a layer, and the rules that they break.
#[derive(Drop)]
pub struct LayerEntries {
    pub index: Index,
    /// The rules that entries break, entry by entry.
    pub findings: Vec<LayerFinding>,
}

/// Reads the entries of a layer that is not compressed, and finds the rules that they break. Contents are passed over and not
/// read. What the bounds let be held is held about twice.
///
/// # Errors
///
/// - `Fault`: the bytes are not an archive (image specification, "Distributable Format"): the first error from its front.
/// - `TooMany`: it has more entries, or longer names, than the bounds let be held.
/// - `Io`, `Memory`: a read failed, or memory ran out. Nothing is said of the bytes.
pub fn read_layer<R: Skip + Drop>(
    alloc: Global,
    reader: R,
    bounds: Bounds,
) -> Result<LayerEntries, IndexError>
    ensures ok { IfOk result (λ l. IfSome (R.remaining reader) (λ bytes. IsIndexOf bytes l.index.places.items)) }
    ensures listed { IfOk result (λ l. IfSome (R.remaining reader) (λ bytes. (es : List (Member × List ℕ)) × Holds nothing_said bytes es
        × ((x : LayerFinding) → Contains l.findings.items x ↔ IsBroken (map (λ e. e.0) es) x))) }
    ensures fault { IfErr result (λ e. OnFault e (λ f. IfSome (R.remaining reader) (λ bytes. Breaks nothing_said bytes f))) }
    ensures too_many { result ≡ Err IndexError.TooMany → IfSome (R.remaining reader) (λ bytes. (es : List (Member × List ℕ)) → Holds nothing_said bytes es → ¬ IsWithin bounds es) }
{
    match read_index(alloc, reader, bounds) {
        Ok(index) => entries_of(alloc, index),
        Err(error) => Err(error),
    }
}

/// The entries of an index, and the rules that they break.
fn entries_of(alloc: Global, index: Index) -> Result<LayerEntries, IndexError>
    ensures ok { IfOk result (λ l. l.index ≡ index) }
    ensures listed { IfOk result (λ l. (x : LayerFinding) → Contains l.findings.items x ↔ IsBroken (members index.places.items) x) }
    ensures err { IfErr result (λ e. e ≡ IndexError.Memory) }
{
    match broken_rules(alloc, index.places.as_slice()) {
        Ok(findings) => Ok(LayerEntries { index, findings }),
        Err(_) => Err(IndexError::Memory),
    }
}
