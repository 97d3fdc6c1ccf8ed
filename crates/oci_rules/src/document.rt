//! Rules of whole documents.
ghost use Rattle.std.specs.Prelude.{◌≡◌, ◌↔◌, [], map, IfOk, IfErr};
ghost use Rattle.std.specs.List.{Contains};
ghost use Rattle.serde_json.specs.View.{view};
ghost use Rattle.oci_base.specs.Refused.{IsMemoryOrSchema};
ghost use Rattle.oci_model.specs.Value.{value as json_of};
ghost use Rattle.oci_rules.specs.Breaks.{Told, Breaks, KeepsAll};
ghost use Rattle.oci_rules.specs.Documents.{platform_in};
ghost use Rattle.oci_rules.specs.Listed.{all_broken};
ghost use Rattle.oci_rules.specs.Tables.{told, rule_of, platform_of};

use crate::find::broken;
use crate::parts::has;
use crate::rule::{Broken, Rule, RuntimePlatform};
use oci_base::Result;
use oci_model::OciRecord;
use serde_json::Value;
use std::alloc::Global;

/// The platform that the configuration of a container is for, as its parts say: that of `zos`, `solaris` or `freebsd` where one is there,
/// that of `windows` or `vm` where `linux` is not beside it, else Linux. A Linux container on Windows has both `linux` and `windows`.
pub fn platform_of_document(document: &Value) -> RuntimePlatform
    ensures { platform_of result ≡ platform_in (view document.now) }
{
    let linux = has(document, "linux");
    if has(document, "windows") && !linux {
        RuntimePlatform::Windows
    } else if has(document, "zos") {
        RuntimePlatform::Zos
    } else if has(document, "solaris") {
        RuntimePlatform::Solaris
    } else if has(document, "freebsd") {
        RuntimePlatform::FreeBsd
    } else if has(document, "vm") && !linux {
        RuntimePlatform::Vm
    } else {
        RuntimePlatform::Linux
    }
}

/// What breaks the rules for the platform in the JSON of the record. The rules are asked of what the record is written as: a member that was
/// null or absent is there with its default or not at all, and an unknown one is gone. `broken` asks them of a value as it was read. Fails
/// with `SerDe(Schema)` if the record is not serializable, else only with `Memory`.
pub fn broken_in<'a, T: OciRecord>(
    rules: &'a [Rule<'a>],
    platform: RuntimePlatform,
    document: &T,
    alloc: Global,
) -> Result<Vec<Broken<'a>>>
    ensures all { IfOk result (λ v. map told v.items ≡ all_broken (map rule_of rules.now) (platform_of platform) (json_of T.shape (T.plain document.now))) }
    ensures listed { IfOk result (λ v. (x : Told) → Contains (map told v.items) x ↔ Breaks (map rule_of rules.now) (platform_of platform) (json_of T.shape (T.plain document.now)) x) }
    ensures none { IfOk result (λ v. (v.items ≡ []) ↔ KeepsAll (map rule_of rules.now) (platform_of platform) (json_of T.shape (T.plain document.now))) }
    ensures kind { IfErr result IsMemoryOrSchema }
{
    let value = document.to_value(alloc)?;
    let found = broken(rules, platform, &value, alloc)?;
    Ok(found)
}
