//! A JSON text as a tape: looked into and walked over in the words of `serde_json`, made into its values, and written again as
//! compact or pretty JSON. What is found at an element is what `serde_json` finds in the value that it reads from the text.
#![tactic(auto)]

pub mod compact;
pub mod element;
pub mod numeral;
pub mod parse;
pub mod pretty;
pub mod read;
pub mod sink;
pub mod walk;
pub mod write;

pub use compact::CompactWriter;
pub use element::{boolean, find, is_null, number, text};
pub use numeral::Number;
pub use parse::{open, open_strict};
pub use pretty::PrettyWriter;
pub use read::value_of;
pub use sink::{Nothing, Sink};
pub use walk::{items, members, next_item, next_member};
pub use write::write_value;
