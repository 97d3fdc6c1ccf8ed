//! The texts that `fmt` writes: of the canonical form of a document, and of that with the members that no schema lists.
ghost use Rattle.std.specs.Prelude.{◌≡◌, ◌↔◌, ◌++◌, [], true, false, Some, IfOk, IfErr, IsTrue, OnOk};
ghost use Rattle.serde_json.specs.View.{view};
ghost use Rattle.oci_json.specs.Engines.{MeansBytes, ReadsAs, WritesDocument};
ghost use Rattle.oci_model.specs.Plain.{Plain};
ghost use Rattle.oci_model.specs.Value.{value as json_of};
ghost use Rattle.oci_schema.specs.Normalizes.{WritesPretty};
ghost use Rattle.oci_schemas.specs.Kinds.{shape_of};
ghost use Rattle.oci_commands.specs.Formats.{FormatsAs, HasNoForm, HasNoUnknown, IsKeptText, IsKeptValue, IsSerDe};
ghost use Rattle.oci_commands.specs.Kept.{IsTextOf};
ghost use Rattle.oci_findings.specs.Checks.{AllListed};

use crate::kept::with_unknown;
use oci_base::Result;
use oci_json::value_from_slice;
use oci_schema::by_value::normal_value_from_reader;
use oci_schema::bytes::{Workspace, normalize_bytes, normalize_pretty_bytes};
use oci_schema::unknown_members;
use oci_schemas::{Kind, OciRecords};
use serde_json::Value;
use std::alloc::{AllocError, Global};

/// The text of the canonical form of the document in these bytes, compact or indented. Fails as `normalize` does.
pub fn canonical_text(
    kind: Kind,
    pretty: bool,
    bytes: &[u8],
    workspace: &mut Workspace,
    alloc: Global,
) -> Result<Vec<u8>>
    ensures ok { IfOk result (λ v. FormatsAs kind pretty (Some bytes.now) (λ t. t ≡ v.items)) }
    ensures none { IfErr result (λ e. IsSerDe e → HasNoForm kind bytes.now) }
{
    if pretty {
        pretty_text(kind, bytes, workspace, alloc)
    } else {
        compact_text(kind, bytes, workspace, alloc)
    }
}

fn compact_text(
    kind: Kind,
    bytes: &[u8],
    workspace: &mut Workspace,
    alloc: Global,
) -> Result<Vec<u8>>
    ensures ok { IfOk result (λ v. WritesDocument (shape_of kind) (Some bytes.now) (λ t. t ≡ v.items)) }
    ensures none { IfErr result (λ e. IsSerDe e → HasNoForm kind bytes.now) }
{
    let mut text = Vec::new(alloc);
    write_compact(kind, bytes, workspace, alloc, &mut text)?;
    Ok(text)
}

/// Appends the compact text. Fails as `normalize_bytes` does.
fn write_compact(
    kind: Kind,
    bytes: &[u8],
    workspace: &mut Workspace,
    alloc: Global,
    out: &mut Vec<u8>,
) -> Result<()>
    ensures ok { OnOk result (WritesDocument (shape_of kind) (Some bytes.now) (λ t. out.new.items ≡ out.old.items ++ t)) }
    ensures none { IfErr result (λ e. IsSerDe e → HasNoForm kind bytes.now) }
{
    normalize_bytes(&OciRecords, kind.schema(), alloc, bytes, workspace, out)
}

fn pretty_text(
    kind: Kind,
    bytes: &[u8],
    workspace: &mut Workspace,
    alloc: Global,
) -> Result<Vec<u8>>
    ensures ok { IfOk result (λ v. WritesPretty (shape_of kind) (Some bytes.now) (λ t. t ≡ v.items)) }
    ensures none { IfErr result (λ e. IsSerDe e → HasNoForm kind bytes.now) }
{
    let mut text = Vec::new(alloc);
    write_pretty(kind, bytes, workspace, alloc, &mut text)?;
    Ok(text)
}

/// Appends the indented text. Fails as `normalize_bytes` does.
fn write_pretty(
    kind: Kind,
    bytes: &[u8],
    workspace: &mut Workspace,
    alloc: Global,
    out: &mut Vec<u8>,
) -> Result<()>
    ensures ok { OnOk result (WritesPretty (shape_of kind) (Some bytes.now) (λ t. out.new.items ≡ out.old.items ++ t)) }
    ensures none { IfErr result (λ e. IsSerDe e → HasNoForm kind bytes.now) }
{
    normalize_pretty_bytes(&OciRecords, kind.schema(), alloc, bytes, workspace, out)
}

/// Whether the schema does not list a member of the value in these bytes. Fails as `canonical_text` does.
pub fn has_unknown(kind: Kind, bytes: &[u8], alloc: Global) -> Result<bool>
    ensures some { IfOk result (λ b. b ≡ true → ¬ HasNoUnknown kind bytes.now) }
    ensures all { IfOk result (λ b. b ≡ false → HasNoUnknown kind bytes.now) }
    ensures none { IfErr result (λ e. IsSerDe e → HasNoForm kind bytes.now) }
{
    let read = read_value(kind, bytes, alloc)?;
    let all = lists_all(kind, &read, alloc)?;
    Ok(!all)
}

/// Whether the schema lists all members of a value.
fn lists_all(kind: Kind, value: &Value, alloc: Global) -> std::result::Result<bool, AllocError>
    ensures { IfOk result (λ b. IsTrue b ↔ AllListed kind (view value.now)) }
{
    let unknown = unknown_members(&OciRecords, kind.schema(), value, alloc)?;
    Ok(unknown.is_empty())
}

/// The text of the canonical form with the members that the schema does not list, compact or indented. Fails as `canonical_text` does.
pub fn kept_text(kind: Kind, pretty: bool, bytes: &[u8], alloc: Global) -> Result<Vec<u8>>
    ensures ok { IfOk result (λ v. IsKeptText kind pretty bytes.now v.items) }
    ensures none { IfErr result (λ e. IsSerDe e → HasNoForm kind bytes.now) }
{
    let value = kept_value(kind, bytes, alloc)?;
    let text = text_of(&value, pretty, alloc)?;
    Ok(text)
}

/// The value of that text.
fn kept_value(kind: Kind, bytes: &[u8], alloc: Global) -> Result<Value>
    ensures ok { IfOk result (λ v. IsKeptValue kind bytes.now (view v)) }
    ensures none { IfErr result (λ e. IsSerDe e → HasNoForm kind bytes.now) }
{
    let canonical = canonical_value(kind, bytes, alloc)?;
    let read = read_value(kind, bytes, alloc)?;
    let whole = with_unknown(&OciRecords, kind.schema(), &read, &canonical, alloc)?;
    Ok(whole)
}

/// The canonical form of the document in these bytes as a value.
fn canonical_value(kind: Kind, bytes: &[u8], alloc: Global) -> Result<Value>
    ensures ok { IfOk result (λ v. (p : Plain) × MeansBytes (shape_of kind) bytes.now p × (view v ≡ json_of (shape_of kind) p)) }
    ensures none { IfErr result (λ e. IsSerDe e → HasNoForm kind bytes.now) }
{
    normal_value_from_reader(&OciRecords, kind.schema(), alloc, bytes)
}

/// The value in these bytes.
fn read_value(kind: Kind, bytes: &[u8], alloc: Global) -> Result<Value>
    ensures ok { IfOk result (λ v. ReadsAs bytes.now (view v)) }
    ensures none { IfErr result (λ e. IsSerDe e → HasNoForm kind bytes.now) }
{
    value_from_slice(alloc, bytes)
}

/// The text of a value, compact or indented.
fn text_of(value: &Value, pretty: bool, alloc: Global) -> std::result::Result<Vec<u8>, AllocError>
    ensures { IfOk result (λ v. IsTextOf pretty (view value.now) v.items) }
{
    if pretty {
        value.to_vec_pretty(alloc)
    } else {
        value.to_vec(alloc)
    }
}
