//! States in files.
ghost use Rattle.std.specs.Prelude.{IfErr};
ghost use Rattle.oci_base.specs.Refused.{IsMemoryOrIo, IsMemorySerDeOrIo};

use super::State;
use oci_base::Result;
use std::alloc::Global;
use std::rt::Files;

impl State {
    /// Reads the state of a file, which the runtime opens: `Io` where it can't be opened or read, `SerDe` where it holds no
    /// JSON or no state.
    pub fn load<R: Files>(rt: &R, alloc: Global, path: &str) -> Result<State>
        ensures kind { IfErr result IsMemorySerDeOrIo }
    {
        oci_json::from_file(rt, alloc, path)
    }

    /// Serializes the state to a file as compact JSON. The file is created or truncated once the text is made, so it is unchanged if the
    /// error is `Memory`. Fails with `Io` if it cannot be opened or written.
    pub fn save<R: Files>(&self, rt: &R, alloc: Global, path: &str) -> Result<()>
        ensures kind { IfErr result IsMemoryOrIo }
    {
        oci_json::to_file(rt, self, alloc, path)
    }
}
