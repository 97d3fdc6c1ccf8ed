//! What the definition of gzip files says, over it alone.
ghost use Rattle.std.specs.Prelude.{◌≡◌, ◌⊎◌, ◌++◌, ◌∷◌, [], ℕ, List, replicate};
ghost use Rattle.gzip.specs.Gzip.{IsMember, IsGzip};

/// Bytes are a gzip file of one text at most.
pub fn one_meaning()
    ensures { (bytes t u : List ℕ) → IsGzip bytes t → IsGzip bytes u → t ≡ u }
{}

/// A file of one member that is cut is no gzip file, and one of several is only where it is cut between two of them.
pub fn a_cut_file()
    ensures member { (front back t u : List ℕ) → IsMember (front ++ back) t [] → IsGzip front u → back ≡ [] }
    ensures file { (front back t u : List ℕ) → IsGzip (front ++ back) t → IsGzip front u → (back ≡ []) ⊎ ((v : List ℕ) × IsGzip back v × (t ≡ u ++ v)) }
{}

/// Two files, one behind the other, are a file of both texts.
pub fn two_files()
    ensures { (a b t u : List ℕ) → IsGzip a t → IsGzip b u → IsGzip (a ++ b) (t ++ u) }
{}

/// What gzip makes of nothing denotes nothing: the definition is not empty.
pub fn an_empty_file()
    ensures { IsGzip (0x1f ∷ 0x8b ∷ 8 ∷ 0 ∷ 0 ∷ 0 ∷ 0 ∷ 0 ∷ 0 ∷ 3 ∷ 3 ∷ 0 ∷ 0 ∷ 0 ∷ 0 ∷ 0 ∷ 0 ∷ 0 ∷ 0 ∷ 0 ∷ []) [] }
{}

/// What gzip makes of ten times the letter a denotes it.
pub fn ten_times_a()
    ensures { IsGzip
        (0x1f ∷ 0x8b ∷ 8 ∷ 0 ∷ 0 ∷ 0 ∷ 0 ∷ 0 ∷ 0 ∷ 3 ∷ 0x4b ∷ 0x4c ∷ 0x84 ∷ 1 ∷ 0 ∷ 0xf0 ∷ 0xcd ∷ 0x11 ∷ 0x4c ∷ 10 ∷ 0 ∷ 0 ∷ 0 ∷ [])
        (replicate 10 97) }
{}
