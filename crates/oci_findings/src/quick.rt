//! What is found out about a document straight from a tape of its text, which is read once.
ghost use Rattle.std.specs.Prelude.{◌≡◌, List, [], true, false, Some, IfSome, IsTrue};
ghost use Rattle.serde_json.specs.Data.{Data};
ghost use Rattle.oci_json.specs.Engines.{ReadsAs};
ghost use Rattle.oci_json_tape.specs.Elements.{BeginsWithData};
ghost use Rattle.oci_schemas.specs.declared.kind.Kind.{Kind as kind_type};
ghost use Rattle.oci_rules.specs.Rules.{Rule as rule_data};
ghost use Rattle.oci_findings.specs.Checks.{HasNamesOnce, IsKindIn, IsOfKind, IsRight};
ghost use Rattle.oci_findings.specs.Forms.{IsForm};
ghost use Rattle.oci_findings.specs.declared.asked.Unknown.TheVariants.{Allow};

use crate::asked::{Check, Unknown};
use crate::inspect::kind_of;
use crate::left_out::{LeftOut, left_out};
use json::Tape;
use oci_json_tape::open_strict;
use oci_schema::bytes::{Workspace, is_accepted_tape, normal_text_of, pretty_text_of};
use oci_schemas::{Kind, OciRecords};
use simdutf8::compat::from_utf8;
use std::alloc::Global;

/// Whether the bytes are a document of the kind that is asked for, or of the one that is found out by its file name and members, where
/// nothing but its schema is checked, and no name stands twice in an object; `false` if that was not found out.
pub fn is_right(
    asked: &Check<'_>,
    name: &str,
    bytes: &[u8],
    workspace: &mut Workspace,
    alloc: Global,
) -> bool
    ensures { IsTrue result → (rules : kind_type → List rule_data) → IsRight rules asked.now name.now bytes.now }
{
    if !is_schema_alone(asked) {
        return false;
    }
    let Some(tape) = opened(bytes, workspace, alloc) else {
        return false;
    };
    match kind_of(asked.kind, name, &tape.root()) {
        Some(kind) => is_document(kind, bytes, &tape, alloc),
        None => false,
    }
}

/// What is asked of a document beside its kind.
#[derive(Clone, Copy)]
pub struct Wanted {
    /// Which members its canonical form lacks.
    pub left_out: bool,
    /// Whether that form is indented.
    pub pretty: bool,
}

/// What is found out about a document from a tape of its text.
#[derive(Drop)]
pub struct Found {
    /// What it is.
    pub kind: Kind,
    /// The members that its canonical form lacks, if that was found out.
    pub left_out: Option<Vec<LeftOut>>,
    /// Its canonical form, if that was found out.
    pub text: Option<Vec<u8>>,
}

/// The kind that is asked for, or that a document is found out to be by its file name and members, the members that are left out of
/// its canonical form, if that is wanted, and that text. `None` if a name stands twice in an object, or if the kind was not found out.
pub fn look_at(
    asked: Option<Kind>,
    name: &str,
    bytes: &[u8],
    wanted: Wanted,
    workspace: &mut Workspace,
    alloc: Global,
) -> Option<Found>
    ensures kind { IfSome result (λ f. IsKindIn asked name.now (Some bytes.now) f.kind) }
    ensures text { IfSome result (λ f. IfSome f.text (λ t. IsForm wanted.pretty f.kind bytes.now t.items)) }
{
    let tape = opened(bytes, workspace, alloc)?;
    let root = tape.root();
    let kind = kind_of(asked, name, &root)?;
    let left_out = if wanted.left_out {
        left_out(kind, &root, alloc).ok()
    } else {
        None
    };
    let text = form(kind, bytes, &tape, wanted.pretty, alloc);
    Some(Found {
        kind,
        left_out,
        text,
    })
}

/// The canonical form of the document that the tape of the bytes holds; `None` if that was not found out.
fn form(kind: Kind, bytes: &[u8], tape: &Tape<'_>, pretty: bool, alloc: Global) -> Option<Vec<u8>>
    ensures { IfSome result (λ t. (d : Data) → ReadsAs bytes.now d → BeginsWithData tape.now d → IsForm pretty kind bytes.now t.items) }
{
    if pretty {
        pretty_form(kind, bytes, tape, alloc)
    } else {
        compact_form(kind, bytes, tape, alloc)
    }
}

/// The text as a tape, if it is JSON in which no object has a name twice.
fn opened<'a>(bytes: &'a [u8], workspace: &'a mut Workspace, alloc: Global) -> Option<Tape<'a>>
    ensures { IfSome result (λ tape. (d : Data) × ReadsAs bytes.now d × BeginsWithData tape d × HasNamesOnce bytes.now) }
{
    match from_utf8(bytes) {
        Ok(text) => match open_strict(alloc, text, workspace.scratch()) {
            Ok(found) => found,
            Err(_) => None,
        },
        Err(_) => None,
    }
}

/// Whether nothing but the schema is checked.
fn is_schema_alone(asked: &Check<'_>) -> bool
    ensures rules { IsTrue result → asked.now.rules ≡ false }
    ensures policy { IsTrue result → asked.now.policy.now ≡ [] }
    ensures unknown { IsTrue result → asked.now.unknown ≡ Allow }
{
    match asked.unknown {
        Unknown::Allow => !asked.rules && asked.policy.is_empty(),
        Unknown::Warn | Unknown::Deny => false,
    }
}

/// Whether the tape of the bytes holds a document of the kind; `false` if that was not found out.
fn is_document(kind: Kind, bytes: &[u8], tape: &Tape<'_>, alloc: Global) -> bool
    ensures { IsTrue result → (d : Data) → ReadsAs bytes.now d → BeginsWithData tape.now d → IsOfKind kind bytes.now }
{
    let Ok(accepted) = is_accepted_tape(&OciRecords, kind.schema(), alloc, tape) else {
        return false;
    };
    accepted
}

/// The compact text of the canonical form of the document that the tape of the bytes holds; `None` if that was not found out.
fn compact_form(kind: Kind, bytes: &[u8], tape: &Tape<'_>, alloc: Global) -> Option<Vec<u8>>
    ensures { IfSome result (λ t. (d : Data) → ReadsAs bytes.now d → BeginsWithData tape.now d → IsForm false kind bytes.now t.items) }
{
    let Ok(text) = normal_text_of(&OciRecords, kind.schema(), alloc, tape, bytes.len()) else {
        return None;
    };
    text
}

/// The same as pretty text.
fn pretty_form(kind: Kind, bytes: &[u8], tape: &Tape<'_>, alloc: Global) -> Option<Vec<u8>>
    ensures { IfSome result (λ t. (d : Data) → ReadsAs bytes.now d → BeginsWithData tape.now d → IsForm true kind bytes.now t.items) }
{
    let Ok(text) = pretty_text_of(&OciRecords, kind.schema(), alloc, tape) else {
        return None;
    };
    text
}
