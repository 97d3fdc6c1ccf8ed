//! What an escaped text is.
ghost use Rattle.std.specs.Prelude.{◌≡◌, ℕ, List, IsUtf8};
ghost use Rattle.oci_base.specs.Escaped.{escaped, IsOneLine};

/// An escaped text is on one line: no character of it is escaped.
pub fn is_one_line()
    ensures { (text : List ℕ) → IsUtf8 text → IsOneLine (escaped text) }
{}

/// A text on one line is shown as it is, so escaping twice is escaping once.
pub fn is_kept()
    ensures { (text : List ℕ) → IsUtf8 text → IsOneLine text → escaped text ≡ text }
{}
