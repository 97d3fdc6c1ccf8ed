//! Golden tables: compares each text, number and constant with the original crate's source and the kernel's headers.
//!
//! `tables/` has what `tools/gen tables` takes from these: `ENUM.rows`, a row `KIND VARIANT TEXT` each; `constants.rows`, a row
//! `NAME VALUE` each. What begins with `#` is a remark and no row. `tables/kernel.values` is written by hand, and the tool makes the rows
//! `header` and `kernel` from it. It prints how many rows of each kind it compared, and each row that is another one here. The tool
//! writes these lines of the program's `stdout` too: the differences in them are those that `tables/differences` lists, each with its
//! reason.
mod closed;
mod extensible;
mod names;
mod reads;
mod values;

use oci_test_support::rows::report;

/// Compares all tables.
pub fn run(rt: &HostRuntime) {
    names::linux(rt);
    names::seccomp(rt);
    names::process(rt);
    report(rt, "Capability", names::capabilities(rt));
    names::others(rt);
    report(rt, "extensible enums", names::extensible(rt));
    report(rt, "constants", values::constants(rt));
}
