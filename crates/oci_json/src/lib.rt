//! The documents of the specifications as JSON: reading and writing bytes, streams and files, `normalize`, and the laws of the model.
#![tactic(auto)]

pub mod display;
pub mod file;
pub mod laws;
pub mod normal;
pub mod reading;
pub mod writing;

pub use display::display_pretty;
pub use file::{from_file, to_file, to_file_pretty};
pub use normal::normalize;
pub use oci_model::{
    As, Defaulted, Detail, FreeValues, Keys, MemberName, MemberReader, Nullable, ObjectWriter,
    OciDefault, OciKind, OciMember, OciRecord, Optional, RecordReader, Required, UnlessEmpty,
    copy_optional, copy_optional_as, equal_optional_values, equal_trees, equal_values, fault,
    read_members, try_join2, try_join3, try_join4, try_join5, write_nullable, write_optional,
    write_optional_as, write_required, write_unless_empty,
};
pub use reading::{
    bytes_from_reader, from_reader, from_slice, value_from_reader, value_from_slice,
};
pub use writing::{to_string, to_string_pretty, to_writer, to_writer_pretty, write_text};
