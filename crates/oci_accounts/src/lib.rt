//! Users and groups by name: what `Config.User` of an image is resolved by, and the texts of passwd(5) and group(5) that it is
//! looked up in.
#![tactic(auto)]

pub mod accounts;
pub mod files;
pub mod ids;
mod lines;

pub use accounts::{Accounts, NoAccounts, UserIds};
pub use files::AccountFiles;
pub use ids::{NO_ID, id, is_digits};
