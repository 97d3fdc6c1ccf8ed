//! What the definitions of layouts in archives say, over them alone.
ghost use Rattle.std.specs.Prelude.{◌≡◌, ◌↔◌, ℕ, List, Option, Some};
ghost use Rattle.tar.specs.Archives.{Holds};
ghost use Rattle.tar.specs.Entries.{Member, nothing_said};
ghost use Rattle.tar.specs.Places.{IsIndexOf};
ghost use Rattle.tar.specs.declared.index.Place.{Place};
ghost use Rattle.tar_folder.specs.Marks.{extents};
ghost use Rattle.oci_layout.specs.Marker.{HasMarker};
ghost use Rattle.oci_layout.specs.Sound.{IsSoundBy};
ghost use Rattle.oci_archive.specs.Layouts.{contents_at, contents_in, tops_at, tops_in, names_in, IsUnpacked, blobs_of};

/// The layout that is read by an index of an archive is the one that the archive's entries denote.
pub fn as_denoted()
    ensures contents { (bytes : List ℕ) (es : List (Member × List ℕ)) (places : List Place)
        → Holds nothing_said bytes es → IsIndexOf bytes places → contents_at places (Some bytes) ≡ Some (contents_in es) }
    ensures tops { (bytes : List ℕ) (es : List (Member × List ℕ)) (places : List Place)
        → Holds nothing_said bytes es → IsIndexOf bytes places → tops_at places (Some bytes) ≡ Some (tops_in es) }
    ensures names { (bytes : List ℕ) (es : List (Member × List ℕ)) (places : List Place)
        → Holds nothing_said bytes es → IsIndexOf bytes places → (path : List ℕ) → names_in (extents places) path ↔ names_in es path }
{}

/// A layout whose files are those that an archive denotes is right exactly if the archive is.
pub fn as_unpacked()
    ensures marker { (limit : ℕ) (es : List (Member × List ℕ)) (files : List ℕ → Option (List ℕ))
        → IsUnpacked files es → HasMarker limit files ↔ HasMarker limit (tops_in es) }
    ensures sound { (limit : ℕ) (es : List (Member × List ℕ)) (files : List ℕ → Option (List ℕ))
        → IsUnpacked files es → IsSoundBy limit files (blobs_of files) ↔ IsSoundBy limit (tops_in es) (contents_in es) }
{}
