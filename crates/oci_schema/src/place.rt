//! Places in a value, as JSON pointers (RFC 6901).
ghost use Rattle.std.specs.Prelude.{◌≡◌, ◌<◌, IfOk, string_bytes};
ghost use Rattle.oci_schema.specs.Places as places;

use std::alloc::{AllocError, Global};

/// A place in a value: the steps that lead there, each borrowed by the next. A walk hands it on and makes a pointer of it only where
/// it has something to list.
#[derive(Clone, Copy)]
pub enum Place<'a> {
    /// The whole value.
    Root,
    /// The member of this name in the object at a place.
    Member(&'a Place<'a>, &'a str),
    /// The item at this index in the array at a place.
    Item(&'a Place<'a>, usize),
}

/// The JSON pointer of the place. Fails if out of memory.
pub fn pointer(place: &Place<'_>, alloc: Global) -> Result<String, AllocError>
    ensures { IfOk result (λ t. string_bytes t ≡ places.pointer place.now) }
{
    match place {
        Place::Root => Ok(String::new(alloc)),
        Place::Member(above, name) => {
            let at = pointer(above, alloc)?;
            under_name(alloc, at.as_str(), name)
        }
        Place::Item(above, index) => {
            let at = pointer(above, alloc)?;
            under_index(alloc, at.as_str(), *index)
        }
    }
}

/// The member of this name.
pub fn under_name(alloc: Global, at: &str, name: &str) -> Result<String, AllocError>
    ensures { IfOk result (λ t. string_bytes t ≡ places.under_name at.now name.now) }
{
    let tildes = replaced(alloc, name, '~', "~0")?;
    let escaped = replaced(alloc, tildes.as_str(), '/', "~1")?;
    format!(in alloc; "{at}/{escaped}")
}

/// The item at this index.
pub fn under_index(alloc: Global, at: &str, index: usize) -> Result<String, AllocError>
    ensures { IfOk result (λ t. string_bytes t ≡ places.under_index at.now index) }
{
    format!(in alloc; "{at}/{index}")
}

/// The string, with another in place of each such character.
fn replaced(alloc: Global, text: &str, mark: char, by: &str) -> Result<String, AllocError>
    requires { mark < 128 }
    ensures { IfOk result (λ t. string_bytes t ≡ places.replaced mark by.now text.now) }
{
    let mut made = String::new(alloc);
    let mut rest = text;
    while let Some((before, behind)) = rest.split_once(mark) {
        made.push_str(before)?;
        made.push_str(by)?;
        rest = behind;
    }
    made.push_str(rest)?;
    Ok(made)
}
