//! How a text is looked up in the table of an extensible enum.
ghost use Rattle.std.specs.Prelude.{◌≡◌, Some, false, map, IfSome, IfNone};
ghost use Rattle.std.specs.List.{slice_get};
ghost use Rattle.oci_base.specs.Names.{is_listed};

/// The place of a text among these.
pub fn place(text: &str, texts: &[&str]) -> Option<usize>
    ensures some { IfSome result (λ i. slice_get (map (λ n. n.now) texts.now) i ≡ Some text.now) }
    ensures none { IfNone result (is_listed (map (λ n. n.now) texts.now) text.now ≡ false) }
{
    for i in 0..texts.len() {
        if text == texts[i] {
            return Some(i);
        }
    }
    None
}
