//! What the definitions of saved images in archives say, over them alone.
ghost use Rattle.std.specs.Prelude.{◌≡◌, ℕ, List, Some};
ghost use Rattle.tar.specs.Archives.{Holds};
ghost use Rattle.tar.specs.Entries.{Member, nothing_said};
ghost use Rattle.tar.specs.Places.{IsIndexOf};
ghost use Rattle.tar.specs.declared.index.Place.{Place};
ghost use Rattle.tar_folder.specs.Marks.{extents};
ghost use Rattle.oci_saved.specs.Entries.{refused_in};
ghost use Rattle.oci_saved.specs.Files.{files_at};
ghost use Rattle.oci_saved.specs.Links.{content_at};

/// The files that are read by an index of an archive are those that the archive's entries denote, and the same entries are refused.
pub fn as_denoted()
    ensures files { (bytes : List ℕ) (es : List (Member × List ℕ)) (places : List Place)
        → Holds nothing_said bytes es → IsIndexOf bytes places → files_at places (Some bytes) ≡ Some (content_at es) }
    ensures refused { (bytes : List ℕ) (es : List (Member × List ℕ)) (places : List Place)
        → Holds nothing_said bytes es → IsIndexOf bytes places → refused_in (extents places) ≡ refused_in es }
{}
