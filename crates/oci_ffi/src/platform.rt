//! The platforms, by their numbers.
ghost use Rattle.std.specs.Prelude.{◌≡◌, ◌<◌, option_map, IsNone};
ghost use Rattle.serde_json.specs.View.{view};
ghost use Rattle.oci_rules.specs.Tables.{platform_of as platform_for};
ghost use Rattle.oci_ffi.specs.Rules.{platform_numbered};

use oci_rules::{RuntimePlatform, platform_of_document};
use serde_json::Value;

/// The platform that the parts of the document say.
pub const OF_DOCUMENT: u32 = 0;
/// Linux.
pub const LINUX: u32 = 1;
/// Windows.
pub const WINDOWS: u32 = 2;
/// Solaris.
pub const SOLARIS: u32 = 3;
/// A virtual machine.
pub const VM: u32 = 4;
/// z/OS.
pub const ZOS: u32 = 5;
/// FreeBSD.
pub const FREEBSD: u32 = 6;

/// Returns the platform with a number, or `None` if the number is that of no platform.
pub(crate) fn platform_of(platform: u32, document: &Value) -> Option<RuntimePlatform>
    ensures platform { option_map platform_for result ≡ platform_numbered platform (view document.now) }
    ensures known { IsNone result → FREEBSD < platform }
{
    match platform {
        OF_DOCUMENT => Some(platform_of_document(document)),
        LINUX => Some(RuntimePlatform::Linux),
        WINDOWS => Some(RuntimePlatform::Windows),
        SOLARIS => Some(RuntimePlatform::Solaris),
        VM => Some(RuntimePlatform::Vm),
        ZOS => Some(RuntimePlatform::Zos),
        FREEBSD => Some(RuntimePlatform::FreeBsd),
        _ => None,
    }
}
