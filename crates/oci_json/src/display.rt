//! Documents under `{}`.
ghost use Rattle.std.specs.Prelude.{OnOk};
ghost use Rattle.oci_model.specs.Value.{value as json_of};
ghost use Rattle.oci_json.specs.Engines.{DisplaysPretty};

use crate::writing::to_string_pretty;
use oci_model::OciRecord;
use std::alloc::Global;
use std::fmt;

/// Writes a document to a formatter as pretty JSON, made in memory of `alloc`. Fails with a formatting error if out of memory, if
/// the formatter fails, or if the document is not serializable. Widths are ignored.
pub fn display_pretty<T: OciRecord, W: fmt::Write>(
    x: &T,
    alloc: Global,
    f: &mut fmt::Formatter<W>,
) -> fmt::Result
    ensures pretty { OnOk result (DisplaysPretty W.write_str_gives f.old (json_of T.shape (T.plain x.now)) f.new) }
{
    let Ok(text) = to_string_pretty(x, alloc) else {
        return Err(fmt::Error);
    };
    f.write_str(text.as_str())
}
