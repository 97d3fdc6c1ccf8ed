//! The shapes of all records: which JSON each allows.
#![tactic(auto)]
