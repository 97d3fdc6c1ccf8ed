//! The model of documents: shapes, content, what JSON denotes; the traits of records and members, and how members are read and written.
#![tactic(auto)]

pub mod alike;
pub mod all;
pub mod closed;
pub mod closed_name;
pub mod default_member;
pub mod details;
pub mod fault;
pub mod free_values;
pub mod json_name;
pub mod key_sets;
pub mod kind;
pub mod list;
pub mod map;
pub mod member;
pub mod member_name;
pub mod member_reader;
pub mod number;
pub mod object_writer;
pub mod other_numbers;
pub mod parts;
pub mod record;
pub mod record_reader;
pub mod text;
pub mod truth;

pub use alike::{equal_optional_values, equal_trees, equal_values};
pub use all::{try_join2, try_join3, try_join4, try_join5};
pub use closed::{read_name, write_name};
pub use closed_name::{ClosedName, named, parse_name};
pub use default_member::{OciDefault, write_nullable, write_unless_empty};
pub use details::Detail;
pub use free_values::FreeValues;
pub use json_name::JsonName;
pub use key_sets::Keys;
pub use kind::{OciKind, copy_optional_as, write_optional_as};
pub use member::copy_optional;
pub use member_name::MemberName;
pub use member_reader::{As, Defaulted, MemberReader, Nullable, Optional, Required, UnlessEmpty};
pub use object_writer::{ObjectWriter, write_optional, write_required};
pub use parts::take_member;
pub use record::{OciMember, OciRecord};
pub use record_reader::{RecordReader, read_members};
