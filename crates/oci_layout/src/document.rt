//! What is found in the bytes of documents.
ghost use Rattle.std.specs.Prelude.{◌≡◌, ◌↔◌, IfOk, IsTrue};
ghost use Rattle.serde_json.specs.View.{view};
ghost use Rattle.oci_schema.specs.Shapes.{schema_shape, shape_at};
ghost use Rattle.oci_schemas.specs.Table.{shapes};
ghost use Rattle.oci_layout.specs.Holds.{HoldContents};
ghost use Rattle.oci_layout.specs.Documents.{IsRead, IsJudged, IsAgainst, IsTypedAgainst, type_fault};

use crate::claim::{Detail, Fault, Seen};
use crate::descriptor::claims_of_document;
use crate::kind::{Kind, is_same_type};
use crate::member::other_member;
use oci_schema::{Schema, violations};
use oci_schemas::OciRecords;
use serde_json::Value;
use std::alloc::{AllocError, Global};
use std::io;

impl Seen {
    ghost use Rattle.std.specs.Prelude.{None, [], true};
    ghost use Rattle.oci_layout.specs.Details.{goes_alone};
    ghost use Rattle.oci_layout.specs.Documents.{IsFault};

    /// Nothing stands against it, and it claims nothing.
    #[tactic(auto, using(crate::proofs::Details::nothing_goes))]
    pub fn nothing(alloc: Global) -> Seen
        ensures fault { result.fault ≡ None }
        ensures claims { result.claims.items ≡ [] }
    {
        Seen {
            fault: None,
            claims: Vec::new(alloc),
            detail: Detail::nothing(alloc),
        }
    }

    /// One that cannot be read, and why.
    #[tactic(auto, using(crate::proofs::Details::alone_goes))]
    pub fn unreadable(alloc: Global, why: io::Error) -> Seen
        ensures { IsFault Fault.Unreadable result.fault result.claims.items }
    {
        Seen {
            fault: Some(Fault::Unreadable),
            claims: Vec::new(alloc),
            detail: Detail {
                why: Some(why),
                ..Detail::nothing(alloc)
            },
        }
    }

    /// One that something stands against beside which nothing was seen, and that claims nothing.
    #[tactic(auto, using(crate::proofs::Details::alone_goes))]
    pub fn of_fault(alloc: Global, fault: Fault) -> Seen
        requires { goes_alone fault ≡ true }
        ensures { IsFault fault result.fault result.claims.items }
    {
        Seen {
            fault: Some(fault),
            claims: Vec::new(alloc),
            detail: Detail::nothing(alloc),
        }
    }
}

/// What is found in bytes that are as they are claimed to be, read as a kind says. Fails if out of memory.
#[tactic(auto, using(crate::proofs::Details::kept_goes))]
pub fn read_document(alloc: Global, kind: Kind, bytes: &[u8]) -> Result<Seen, AllocError>
    ensures { IfOk result (λ s. IsRead kind bytes.now s.fault s.claims.items) }
{
    let seen = read(alloc, kind, bytes)?;
    let is_faulty = seen.fault.is_some();
    let detail = seen.detail.with_text(is_faulty, alloc, bytes)?;
    Ok(Seen {
        fault: seen.fault,
        claims: seen.claims,
        detail,
    })
}

/// The same without the bytes.
fn read(alloc: Global, kind: Kind, bytes: &[u8]) -> Result<Seen, AllocError>
    ensures { IfOk result (λ s. IsRead kind bytes.now s.fault s.claims.items) }
{
    let Some(schema) = kind.schema() else {
        return Ok(Seen::nothing(alloc));
    };
    match Value::from_slice(alloc, bytes) {
        Ok(value) => read_value(alloc, kind, schema, &value),
        Err(fault) => {
            if fault.is_memory() {
                Err(AllocError)
            } else {
                Ok(Seen::of_fault(alloc, Fault::NoJson))
            }
        }
    }
}

/// What is found in the value of a document.
fn read_value(alloc: Global, kind: Kind, schema: &Schema, value: &Value) -> Result<Seen, AllocError>
    ensures { IfOk result (λ s. IsJudged (schema_shape (shape_at shapes) schema.now) kind (view value.now) s.fault s.claims.items) }
{
    let violations = violations(&OciRecords, schema, value, alloc)?;
    if !violations.is_empty() {
        return Ok(Seen {
            fault: Some(Fault::NoDocument),
            claims: Vec::new(alloc),
            detail: Detail {
                held: Vec::new(alloc),
                violations,
                text: None,
                why: None,
            },
        });
    }
    let claimed = claims_of_document(alloc, kind, value)?;
    Ok(Seen {
        fault: fault_against(kind, value, claimed.is_held()),
        claims: claimed.claims,
        detail: Detail {
            held: claimed.held,
            violations,
            text: None,
            why: None,
        },
    })
}

/// What stands against a document that its schema allows, by whether its descriptors hold nothing but their contents.
fn fault_against(kind: Kind, value: &Value, is_held: bool) -> Option<Fault>
    requires { IsTrue is_held ↔ HoldContents kind (view value.now) }
    ensures { IsAgainst kind (view value.now) result }
{
    match other_member(kind, value) {
        Some(member) => Some(Fault::Ambiguous(member)),
        None => unambiguous_fault(kind, value, is_held),
    }
}

/// The same of one that clients cannot take for one of another kind.
fn unambiguous_fault(kind: Kind, value: &Value, is_held: bool) -> Option<Fault>
    requires { IsTrue is_held ↔ HoldContents kind (view value.now) }
    ensures { IsTypedAgainst (type_fault kind (view value.now)) kind (view value.now) result }
{
    match own_type_fault(kind, value) {
        Some(fault) => Some(fault),
        None => { if is_held { None } else { Some(Fault::Embedded) } }
    }
}

/// Whether the document says another media type itself.
fn own_type_fault(kind: Kind, value: &Value) -> Option<Fault>
    ensures { result ≡ type_fault kind (view value.now) }
{
    let said = kind.own_type()?;
    let own = value.get("mediaType").and_then(Value::as_str)?;
    if is_same_type(own, said) {
        None
    } else {
        Some(Fault::OtherType)
    }
}
