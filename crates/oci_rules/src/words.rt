//! The words of levels and platforms, as policies, the command line and findings have them.
ghost use Rattle.std.specs.Prelude.{◌≡◌, Some, option_map};
ghost use Rattle.oci_rules.specs.Tables.{level_of, platform_of};
ghost use Rattle.oci_rules.specs.Words.{level_named, platform_named};

use crate::rule::{Level, RuntimePlatform};

impl Level {
    /// The level that a word names, if there is one.
    pub fn from_word(word: &str) -> Option<Level>
        ensures { option_map level_of result ≡ level_named word.now }
    {
        match word {
            "must" => Some(Level::Must),
            "stated" => Some(Level::Stated),
            "should" => Some(Level::Should),
            "host" => Some(Level::Host),
            _ => None,
        }
    }

    /// The word for the level.
    pub fn word(self) -> &'static str
        ensures { level_named result.now ≡ Some (level_of self) }
    {
        match self {
            Level::Must => "must",
            Level::Stated => "stated",
            Level::Should => "should",
            Level::Host => "host",
        }
    }
}

impl RuntimePlatform {
    /// The platform that a word names, if there is one.
    pub fn from_word(word: &str) -> Option<RuntimePlatform>
        ensures { option_map platform_of result ≡ platform_named word.now }
    {
        match word {
            "linux" => Some(RuntimePlatform::Linux),
            "windows" => Some(RuntimePlatform::Windows),
            "solaris" => Some(RuntimePlatform::Solaris),
            "vm" => Some(RuntimePlatform::Vm),
            "zos" => Some(RuntimePlatform::Zos),
            "freebsd" => Some(RuntimePlatform::FreeBsd),
            _ => None,
        }
    }

    /// The word for the platform.
    pub fn word(self) -> &'static str
        ensures { platform_named result.now ≡ Some (platform_of self) }
    {
        match self {
            RuntimePlatform::Linux => "linux",
            RuntimePlatform::Windows => "windows",
            RuntimePlatform::Solaris => "solaris",
            RuntimePlatform::Vm => "vm",
            RuntimePlatform::Zos => "zos",
            RuntimePlatform::FreeBsd => "freebsd",
        }
    }
}
