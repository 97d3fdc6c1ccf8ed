//! Where a text is cut.
ghost use Rattle.std.specs.Prelude.{◌≡◌, ◌==◌, position, take, drop};
ghost use Rattle.oci_base.specs.Classes.{until, after};

/// The bytes before the first such byte and the bytes after it, or the whole text and nothing.
pub(crate) fn cut(text: &[u8], mark: u8) -> (&[u8], &[u8])
    ensures front { result.0.now ≡ until mark text.now }
    ensures back { result.1.now ≡ after mark text.now }
{
    match place_of(text, mark) {
        Some(place) => (&text[..place], &text[place + 1..]),
        None => (text, &[]),
    }
}

fn place_of(text: &[u8], mark: u8) -> Option<usize>
    ensures { result ≡ position (λ b. b == mark) text.now }
{
    text.iter().position(|b| *b == mark)
}

/// This many bytes, or all.
pub(crate) fn front(text: &[u8], count: usize) -> &[u8]
    ensures { result.now ≡ take count text.now }
{
    if count <= text.len() {
        &text[..count]
    } else {
        text
    }
}

/// The bytes after this many, or nothing.
pub(crate) fn behind(text: &[u8], count: usize) -> &[u8]
    ensures { result.now ≡ drop count text.now }
{
    if count <= text.len() {
        &text[count..]
    } else {
        &[]
    }
}
