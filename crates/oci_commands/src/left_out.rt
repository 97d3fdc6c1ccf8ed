//! What `fmt` says of the members that its output lacks, or has under another name.
ghost use Rattle.std.specs.Prelude.{◌≡◌, IfOk, string_bytes};
ghost use Rattle.oci_commands.specs.LeftOut.{change_words, IsChangeLine};
ghost use Rattle.oci_commands.specs.Texts.{Joins};

use crate::texts::complain;
use oci_base::{Result, line_of};
use oci_findings::left_out::{Change, LeftOut};
use serde_json::Value;
use std::alloc::{AllocError, Global};
use std::io::Write;

/// Writes a line of each member on standard error, as far as that can be. Fails if out of memory.
pub fn say_left_out<E: Write>(found: &Vec<LeftOut>, alloc: Global, errors: &mut E) -> Result<()> {
    let lines = left_out_lines(found, alloc)?;
    complain(lines.as_str(), errors);
    Ok(())
}

/// The members but for those that were to be left out and are in the value that is written. Fails if out of memory.
pub fn not_in(
    written: &Value,
    found: Vec<LeftOut>,
    alloc: Global,
) -> std::result::Result<Vec<LeftOut>, AllocError> {
    let mut left = Vec::new(alloc);
    'each: for member in found {
        if !is_kept(written, &member) {
            left.push(member)?;
        }
    }
    Ok(left)
}

/// Whether a member that was to be left out is in the value.
fn is_kept(written: &Value, member: &LeftOut) -> bool {
    match member.change {
        Change::Dropped => written.pointer(member.pointer.as_str()).is_some(),
        Change::Renamed(_) | Change::Repeated => false,
    }
}

/// The line of each member, one behind the other.
fn left_out_lines(found: &Vec<LeftOut>, alloc: Global) -> std::result::Result<String, AllocError>
    ensures { IfOk result (λ t. Joins IsChangeLine found.now.items (string_bytes t)) }
{
    let mut lines = String::new(alloc);
    for member in found {
        let line = change_line(member, alloc)?;
        lines.push_str(line.as_str())?;
    }
    Ok(lines)
}

/// The line of a member, which is escaped.
fn change_line(member: &LeftOut, alloc: Global) -> std::result::Result<String, AllocError>
    ensures { IfOk result (λ t. IsChangeLine member.now (string_bytes t)) }
{
    let text = change_text(member.change, member.pointer.as_str(), alloc)?;
    line_of(text.as_str(), alloc)
}

/// What becomes of the member at this place.
fn change_text(
    change: Change,
    place: &str,
    alloc: Global,
) -> std::result::Result<String, AllocError>
    ensures { IfOk result (λ t. string_bytes t ≡ change_words change place.now) }
{
    match change {
        Change::Dropped => format!(in alloc; "dropped: {place}"),
        Change::Renamed(name) => format!(in alloc; "renamed: {place} to {name}"),
        Change::Repeated => format!(in alloc; "repeated: {place}"),
    }
}
