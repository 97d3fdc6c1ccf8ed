//! What descriptors claim.
ghost use Rattle.std.specs.Prelude.{◌≡◌, ◌↔◌, ◌++◌, ◌∷◌, [], true, IsTrue, IfOk, OnOk, map, codes, option_and_then, option_map};
ghost use Rattle.serde_json.specs.Find.{as_array, as_str, get};
ghost use Rattle.serde_json.specs.View.{view, items_view};
ghost use Rattle.oci_content.specs.Embedded.{TellsData};
ghost use Rattle.oci_model.specs.Means.{unless_null};
ghost use Rattle.std.specs.List.{All};
ghost use Rattle.oci_layout.specs.Claims.{claim_of, claim_at, claims_at, claims_of, index_claims, manifest_claims, artifact_claims, string_at, number_at, items_at, has_some};
ghost use Rattle.oci_layout.specs.Claims.{item_at, descriptors_of, index_descriptors, manifest_descriptors, artifact_descriptors};
ghost use Rattle.oci_layout.specs.Holds.{is_held, HoldsContent, HoldContents, StaysEmpty};

use crate::claim::{Claim, Held, Role};
use crate::kind::{Kind, is_nondistributable_type};
use oci_content::{Embedded, Verdict, verify_base64};
use oci_text::Digest;
use serde_json::Value;
use std::alloc::{AllocError, Global};

/// The string under a name, the empty one where there is none.
pub fn string_under<'a>(value: &'a Value, name: &str) -> &'a str
    ensures { result.now ≡ string_at name.now (view value.now) }
{
    value.get(name).and_then(Value::as_str).unwrap_or("")
}

/// The number under a name, 0 where there is none.
pub fn number_under(value: &Value, name: &str) -> u64
    ensures { result ≡ number_at name.now (view value.now) }
{
    value.get(name).and_then(Value::as_u64).unwrap_or(0)
}

/// The claim of a descriptor, a value that its schema allows. Fails if out of memory.
pub fn claim_of_value(alloc: Global, role: Role, value: &Value) -> Result<Claim, AllocError>
    ensures { IfOk result (λ c. c ≡ claim_of role (view value.now)) }
{
    let media_type = string_under(value, "mediaType");
    // what the schema allows is a digest
    let Ok(digest) = Digest::from_str(alloc, string_under(value, "digest")) else {
        return Err(AllocError);
    };
    Ok(Claim {
        role,
        kind: Kind::of_media_type(media_type),
        elsewhere: is_nondistributable_type(media_type) && has_urls(value),
        digest,
        size: number_under(value, "size"),
    })
}

/// The items of the array under a name.
pub fn items_under<'a>(value: &'a Value, name: &str) -> Option<&'a Vec<Value>>
    ensures { option_map (λ v. items_view v.now.items) result ≡ option_and_then as_array (get name.now (view value.now)) }
{
    value.get(name).and_then(Value::as_array)
}

/// The value under a name, if there is one and it is not null.
pub fn descriptor_under<'a>(value: &'a Value, name: &str) -> Option<&'a Value>
    ensures { option_map (λ v. view v.now) result ≡ option_and_then unless_null (get name.now (view value.now)) }
{
    match value.get(name) {
        Some(Value::Null) | None => None,
        Some(descriptor) => Some(descriptor),
    }
}

fn has_urls(value: &Value) -> bool
    ensures { result ≡ has_some (items_at (codes "urls") (view value.now)) }
{
    match items_under(value, "urls") {
        Some(urls) => !urls.is_empty(),
        None => false,
    }
}

/// What is found of the content that a descriptor holds itself. Fails if out of memory.
fn embedded_in(alloc: Global, claim: &Claim, value: &Value) -> Result<Embedded, AllocError>
    ensures { IfOk result (TellsData claim.now.digest claim.now.size (option_and_then as_str (get (codes "data") (view value.now)))) }
{
    match value.get("data").and_then(Value::as_str) {
        Some(text) => verify_base64(alloc, claim.digest.as_ref(), claim.size, text),
        None => Ok(Embedded::Absent),
    }
}

/// Whether a descriptor holds nothing itself, or its content.
fn is_held(embedded: Embedded) -> bool
    ensures { result ≡ is_held embedded }
{
    match embedded {
        Embedded::Absent => true,
        Embedded::NotBase64 => false,
        Embedded::Content(verdict) => match verdict {
            Verdict::Same => true,
            _ => false,
        },
    }
}

/// What the descriptors of a document claim, and what is found of each that holds itself what is not its content.
#[derive(Debug, Drop)]
pub struct Claimed {
    pub claims: Vec<Claim>,
    pub held: Vec<Held>,
}

impl Claimed {
    /// Whether no descriptor holds what is not its content.
    pub fn is_held(&self) -> bool
        ensures { IsTrue result ↔ (self.now.held.items ≡ []) }
    {
        self.held.is_empty()
    }

    fn add(&mut self, alloc: Global, role: Role, value: &Value) -> Result<(), AllocError>
        ensures claims { OnOk result (self.new.claims.items ≡ self.old.claims.items ++ claim_of role (view value.now) ∷ []) }
        ensures held { OnOk result (StaysEmpty self.old.held.items self.new.held.items (HoldsContent (view value.now))) }
    {
        let claim = claim_of_value(alloc, role, value)?;
        let embedded = embedded_in(alloc, &claim, value)?;
        self.add_held(role, embedded)?;
        self.claims.push(claim)?;
        Ok(())
    }

    /// Adds what is found of the content that the next descriptor holds itself, if that is another.
    fn add_held(&mut self, role: Role, embedded: Embedded) -> Result<(), AllocError>
        ensures claims { self.new.claims ≡ self.old.claims }
        ensures held { OnOk result (StaysEmpty self.old.held.items self.new.held.items (is_held embedded ≡ true)) }
    {
        if is_held(embedded) {
            return Ok(());
        }
        let at = self.claims.len();
        self.held.push(Held { role, at, embedded })?;
        Ok(())
    }

    /// Adds the descriptor under a name, if there is one.
    fn add_under(
        &mut self,
        alloc: Global,
        role: Role,
        value: &Value,
        name: &str,
    ) -> Result<(), AllocError>
        ensures claims { OnOk result (self.new.claims.items ≡ self.old.claims.items ++ claim_at name.now role (view value.now)) }
        ensures held { OnOk result (StaysEmpty self.old.held.items self.new.held.items (All HoldsContent (item_at name.now (view value.now)))) }
    {
        match descriptor_under(value, name) {
            Some(descriptor) => {
                self.add(alloc, role, descriptor)?;
                Ok(())
            }
            None => Ok(()),
        }
    }

    /// Adds the descriptors of the array under a name.
    fn add_listed(
        &mut self,
        alloc: Global,
        role: Role,
        value: &Value,
        name: &str,
    ) -> Result<(), AllocError>
        ensures claims { OnOk result (self.new.claims.items ≡ self.old.claims.items ++ claims_at name.now role (view value.now)) }
        ensures held { OnOk result (StaysEmpty self.old.held.items self.new.held.items (All HoldsContent (items_at name.now (view value.now)))) }
    {
        match items_under(value, name) {
            Some(items) => {
                self.add_each(alloc, role, items)?;
                Ok(())
            }
            None => Ok(()),
        }
    }

    fn add_each(&mut self, alloc: Global, role: Role, items: &Vec<Value>) -> Result<(), AllocError>
        ensures claims { OnOk result (self.new.claims.items ≡ self.old.claims.items ++ map (λ v. claim_of role (view v)) items.now.items) }
        ensures held { OnOk result (StaysEmpty self.old.held.items self.new.held.items (All (λ v. HoldsContent (view v)) items.now.items)) }
    {
        'each: for item in items {
            self.add(alloc, role, item)?;
        }
        Ok(())
    }

    /// Adds the descriptors of an index.
    fn add_index(&mut self, alloc: Global, value: &Value) -> Result<(), AllocError>
        ensures claims { OnOk result (self.new.claims.items ≡ self.old.claims.items ++ index_claims (view value.now)) }
        ensures held { OnOk result (StaysEmpty self.old.held.items self.new.held.items (All HoldsContent (index_descriptors (view value.now)))) }
    {
        self.add_listed(alloc, Role::Manifest, value, "manifests")?;
        self.add_under(alloc, Role::Subject, value, "subject")?;
        Ok(())
    }

    /// Adds the descriptors of a manifest.
    fn add_manifest(&mut self, alloc: Global, value: &Value) -> Result<(), AllocError>
        ensures claims { OnOk result (self.new.claims.items ≡ self.old.claims.items ++ manifest_claims (view value.now)) }
        ensures held { OnOk result (StaysEmpty self.old.held.items self.new.held.items (All HoldsContent (manifest_descriptors (view value.now)))) }
    {
        self.add_under(alloc, Role::Config, value, "config")?;
        self.add_listed(alloc, Role::Layer, value, "layers")?;
        self.add_under(alloc, Role::Subject, value, "subject")?;
        Ok(())
    }

    /// Adds the descriptors of an artifact manifest.
    fn add_artifact(&mut self, alloc: Global, value: &Value) -> Result<(), AllocError>
        ensures claims { OnOk result (self.new.claims.items ≡ self.old.claims.items ++ artifact_claims (view value.now)) }
        ensures held { OnOk result (StaysEmpty self.old.held.items self.new.held.items (All HoldsContent (artifact_descriptors (view value.now)))) }
    {
        self.add_listed(alloc, Role::Blob, value, "blobs")?;
        self.add_under(alloc, Role::Subject, value, "subject")?;
        Ok(())
    }

    /// Adds the descriptors of a document of a kind.
    fn add_document(&mut self, alloc: Global, kind: Kind, value: &Value) -> Result<(), AllocError>
        ensures claims { OnOk result (self.new.claims.items ≡ self.old.claims.items ++ claims_of kind (view value.now)) }
        ensures held { OnOk result (StaysEmpty self.old.held.items self.new.held.items (All HoldsContent (descriptors_of kind (view value.now)))) }
    {
        match kind {
            Kind::Index => self.add_index(alloc, value),
            Kind::DockerList => self.add_index(alloc, value),
            Kind::Manifest => self.add_manifest(alloc, value),
            Kind::DockerManifest => self.add_manifest(alloc, value),
            Kind::Artifact => self.add_artifact(alloc, value),
            Kind::Config | Kind::DockerConfig | Kind::Empty | Kind::Opaque => Ok(()),
        }
    }
}

/// What a document of a kind claims: a value that the schema of the kind allows. Fails if out of memory.
pub fn claims_of_document(alloc: Global, kind: Kind, value: &Value) -> Result<Claimed, AllocError>
    ensures claims { IfOk result (λ c. c.claims.items ≡ claims_of kind (view value.now)) }
    ensures held { IfOk result (λ c. (c.held.items ≡ []) ↔ HoldContents kind (view value.now)) }
{
    let mut claimed = Claimed {
        claims: Vec::new(alloc),
        held: Vec::new(alloc),
    };
    claimed.add_document(alloc, kind, value)?;
    Ok(claimed)
}
