//! Golden defaults: compares the default of each record and enum, and what each builder makes of nothing, with the original crate's
//! source.
//!
//! `tables/defaults.rows` has what `tools/gen tables` takes from it: a row `NAME JSON` each, or `NAME ! FIELD` where a builder
//! wants a field. It prints how many rows of each group it compared, and each row that is another one here. The tool writes these lines
//! of the program's `stdout` too: the differences in them are those that `tables/defaults.differences` lists, each with its reason.

mod defaults;
mod documents;

use oci_test_support::rows::report;

/// Compares all defaults.
pub fn run(rt: &HostRuntime) {
    report(rt, "defaults", defaults::all(rt));
}
