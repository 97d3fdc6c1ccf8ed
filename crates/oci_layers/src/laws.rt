//! What the definitions say, over them alone.
ghost use Rattle.std.specs.Prelude.{◌≡◌, ◌≢◌, ◌<◌, ◌∷◌, ◌++◌, [], ℕ, List, codes, length, false, Some, None};
ghost use Rattle.oci_layers.specs.Encodings.{IsUncompressed};
ghost use Rattle.oci_layers.specs.Names.{mark};
ghost use Rattle.oci_layers.specs.Tails.{has_slash, hidden_by, marked_folder};
ghost use Rattle.oci_layers.specs.declared.encoding.Encoding.{Encoding};

/// The bytes of a layer denote one archive at most, so a layer has one DiffID by each algorithm.
pub fn one_archive()
    ensures { (encoding : Encoding) (bytes t u : List ℕ) → IsUncompressed encoding bytes t → IsUncompressed encoding bytes u → t ≡ u }
{
    gzip::laws::one_meaning();
}

/// A whiteout deletes the path without its mark, and its folder is that of this path; an opaque one deletes no single path.
pub fn whiteout_paths()
    ensures deleted { (folder rest : List ℕ) → 0 < length folder → has_slash rest ≡ false → rest ≢ codes ".wh..opq" → hidden_by (folder ++ 47 ∷ (mark ++ rest)) ≡ Some (folder ++ 47 ∷ rest) }
    ensures deleted_at_root { (rest : List ℕ) → has_slash rest ≡ false → rest ≢ codes ".wh..opq" → hidden_by (mark ++ rest) ≡ Some rest }
    ensures opaque { (folder : List ℕ) → hidden_by (folder ++ 47 ∷ codes ".wh..wh..opq") ≡ None }
    ensures folder { (folder rest : List ℕ) → has_slash rest ≡ false → marked_folder (folder ++ 47 ∷ (mark ++ rest)) ≡ Some folder }
{}
