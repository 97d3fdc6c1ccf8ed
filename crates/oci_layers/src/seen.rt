//! The paths of the entries so far.
ghost use Rattle.std.specs.Prelude.{◌≡◌, ◌∷◌, ◌++◌, [], ℕ, List, option_map, string_bytes, OnOk};
ghost use Rattle.std.specs.BTreeSet.{contains_text};
ghost use Rattle.oci_rules.specs.Listed.{with_text};
ghost use Rattle.tar.specs.Entries.{Member};
ghost use Rattle.tar_folder.specs.Paths.{entry_path};

use crate::tail::Tail;
use std::alloc::{AllocError, Global};
use std::collections::BTreeSet;
use tar::Kind;
use tar_folder::is_directory;

/// The paths of the entries so far.
#[derive(Drop)]
pub struct Seen {
    /// Those of directories.
    pub directories: BTreeSet<String>,
    /// Those of other entries.
    pub others: BTreeSet<String>,
    /// Those that whiteouts delete.
    pub hidden: BTreeSet<String>,
    /// The folders of what is no whiteout.
    pub folders: BTreeSet<String>,
}

impl Seen {
    ghost use Rattle.oci_layers.specs.Decided.{HasSeen, is_among};
    ghost use Rattle.oci_layers.specs.Tails.{IsTailOf};

    /// No entries.
    pub fn new(alloc: Global) -> Seen
        ensures { HasSeen result [] }
    {
        Seen {
            directories: BTreeSet::new(alloc),
            others: BTreeSet::new(alloc),
            hidden: BTreeSet::new(alloc),
            folders: BTreeSet::new(alloc),
        }
    }

    /// One more entry, of this kind and at this path.
    pub fn add(&mut self, kind: Kind, path: Option<String>, tail: Tail) -> Result<(), AllocError>
        ensures { OnOk result ((before : List Member) (m : Member) → HasSeen self.old before → m.kind ≡ kind → option_map string_bytes path ≡ entry_path m → IsTailOf tail (entry_path m)
            → HasSeen self.new (before ++ m ∷ [])) }
    {
        let Tail { hidden, plain, .. } = tail;
        put(hidden, &mut self.hidden)?;
        put(plain, &mut self.folders)?;
        if is_directory(kind) {
            put(path, &mut self.directories)
        } else {
            put(path, &mut self.others)
        }
    }

    /// Whether an entry is at the path.
    pub fn has(&self, path: &str) -> bool
        ensures { (before : List Member) → HasSeen self.now before → result ≡ is_among entry_path before path.now }
    {
        self.directories.contains(path) || self.others.contains(path)
    }
}

/// Puts the text, if there is one, into the set.
fn put(text: Option<String>, set: &mut BTreeSet<String>) -> Result<(), AllocError>
    ensures { OnOk result ((q : List ℕ) → contains_text set.new q ≡ with_text (option_map string_bytes text) (contains_text set.old) q) }
{
    if let Some(text) = text {
        drop(set.insert(text)?);
    }
    Ok(())
}
