//! The whole of an inspection.
ghost use Rattle.std.specs.Prelude.{◌≡◌, ◌⊎◌};
ghost use Rattle.oci_inspect.specs.Found.{OverLayout};
ghost use Rattle.oci_inspect.specs.Shown.{IsRefused, IsShown, fault_status, find_status, status_of as status};

use crate::asked::Inspect;
use crate::fault::{Fault, FindError, InspectError};
use crate::messages::complain;
use crate::show::show;
use oci_layout::ImageLayout;
use std::alloc::Global;
use std::io::Write;

/// Writes what is asked of an image of a layout, and returns the exit status: 0 if that was done; 1 if the layout has no such image, or several,
/// or one of its documents is missing or wrong; and 3 if `index.json` is missing or a file cannot be read, if a write failed, or if out of memory.
/// A line on the standard error then says why, but where the reader of what is written has gone away. After a failed write a beginning of it was
/// written.
pub fn inspect<L: ImageLayout, W: Write, E: Write>(
    layout: &L,
    asked: &Inspect<'_>,
    alloc: Global,
    writer: &mut W,
    errors: &mut E,
) -> u8
    ensures status { (result ≡ 0) ⊎ ((result ≡ 1) ⊎ (result ≡ 3)) }
    ensures done { result ≡ 0 → OverLayout (L.tops layout.now) (L.contents layout.now)
        (λ tops contents. IsShown asked.now tops contents (W.contents writer.old) (W.contents writer.new)) }
    ensures wrong { result ≡ 1 → OverLayout (L.tops layout.now) (L.contents layout.now)
        (λ tops contents. IsRefused asked.now (L.steady layout.now) tops contents) }
{
    match show(layout, asked, alloc, writer) {
        Ok(()) => 0,
        Err(error) => refuse(error, asked, alloc, errors),
    }
}

/// Says why nothing is shown, and returns the exit status.
fn refuse<E: Write>(error: InspectError, asked: &Inspect<'_>, alloc: Global, errors: &mut E) -> u8
    ensures status { result ≡ status error }
    ensures some { (result ≡ 1) ⊎ (result ≡ 3) }
{
    complain(&error, asked, alloc, errors);
    status_of(&error)
}

/// The exit status of an error.
fn status_of(error: &InspectError) -> u8
    ensures status { result ≡ status error.now }
    ensures some { (result ≡ 1) ⊎ (result ≡ 3) }
{
    match error {
        InspectError::NotFound(error) => find_status(error),
        InspectError::Unwritten(_) => 3,
    }
}

fn find_status(error: &FindError) -> u8
    ensures status { result ≡ find_status error.now }
    ensures some { (result ≡ 1) ⊎ (result ≡ 3) }
{
    match error {
        FindError::NoIndex(Fault::Missing) => 3,
        FindError::NoIndex(fault) => fault_status(fault),
        FindError::Content(_, fault) => fault_status(fault),
        FindError::Memory => 3,
        FindError::NoName => 1,
        FindError::Several(_) => 1,
        FindError::NoPlatform => 1,
        FindError::TooDeep => 1,
    }
}

fn fault_status(fault: &Fault) -> u8
    ensures status { result ≡ fault_status fault.now }
    ensures some { (result ≡ 1) ⊎ (result ≡ 3) }
{
    match fault {
        Fault::Unreadable(_) => 3,
        Fault::Memory => 3,
        Fault::Missing | Fault::TooLarge | Fault::Other(_) | Fault::Invalid(_) => 1,
    }
}
