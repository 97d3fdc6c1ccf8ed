//! The time since the program began.
use oci_verify::Watch;
use std::time::Instant;

/// The seconds since the program began.
#[derive(Drop)]
pub struct Started<'a> {
    rt: &'a HostRuntime,
    at: Option<Instant>,
}

impl<'a> Started<'a> {
    /// The program begins now.
    pub fn now(rt: &'a HostRuntime) -> Started<'a> {
        Started {
            rt,
            at: Instant::now(rt).ok(),
        }
    }
}

impl<'a> Watch for Started<'a> {
    fn seconds(&self) -> u64 {
        match self.at {
            Some(at) => match at.elapsed(self.rt) {
                Ok(passed) => passed.as_secs(),
                Err(_) => 0,
            },
            None => 0,
        }
    }
}
