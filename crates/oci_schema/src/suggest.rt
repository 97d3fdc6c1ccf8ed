//! Which listed name may be meant by an unknown one.
ghost use Rattle.std.specs.Prelude.{◌≡◌, ◌≤◌, length, None, IfOk};

use crate::Member;
use std::alloc::{AllocError, Global};
use strsim::damerau_levenshtein;

/// The name of a member that is nearest to this name, if one is near: at most a third of the bytes of the name as characters have to be put
/// in, left out, changed or exchanged with the next. None is near to a name of more than 64 bytes. Fails if out of memory.
pub fn suggestion(
    members: &'static [Member],
    name: &str,
    alloc: Global,
) -> Result<Option<&'static str>, AllocError>
    ensures long { 65 ≤ length name.now → IfOk result (λ suggested. suggested ≡ None) }
{
    if name.len() > 64 {
        return Ok(None);
    }
    let mut best: Option<&'static str> = None;
    let mut least = name.len() / 3 + 1;
    for member in members {
        let distance = damerau_levenshtein(alloc, name, member.name)?;
        if distance < least {
            best = Some(member.name);
            least = distance;
        }
    }
    Ok(best)
}
