//! Members by which clients may take a document for one of another kind.
ghost use Rattle.std.specs.Prelude.{◌≡◌, ◌↔◌, None, IsTrue, IfSome};
ghost use Rattle.std.specs.List.{All};
ghost use Rattle.serde_json.specs.View.{view};
ghost use Rattle.oci_layout.specs.Documents.{HasMember, IsAmbiguous, IsFirstOf, IsUnambiguous};
ghost use Rattle.oci_layout.specs.Kinds.{member_name};

use crate::kind::Kind;
use serde_json::Value;

/// A member of manifests or of indexes, by which clients tell one from the other.
#[derive(Clone, Copy, Debug, PartialEq, Eq)]
pub enum OtherMember {
    /// The manifests of an index.
    Manifests,
    /// The configuration of a manifest.
    Config,
    /// The layers of a manifest.
    Layers,
    /// The layers of Docker's manifest of version 2, schema 1.
    FsLayers,
}

impl OtherMember {
    /// The name of the member.
    pub fn name(self) -> &'static str
        ensures { result.now ≡ member_name self }
    {
        match self {
            OtherMember::Manifests => "manifests",
            OtherMember::Config => "config",
            OtherMember::Layers => "layers",
            OtherMember::FsLayers => "fsLayers",
        }
    }

    /// Whether a document has the member, and it is not null.
    pub fn is_in(self, value: &Value) -> bool
        ensures { IsTrue result ↔ HasMember self (view value.now) }
    {
        match value.get(self.name()) {
            Some(Value::Null) | None => false,
            Some(_) => true,
        }
    }
}

/// The first member by which clients may take the document for one of another kind; none if there is none.
pub fn other_member(kind: Kind, value: &Value) -> Option<OtherMember>
    ensures some { IfSome result (IsAmbiguous kind (view value.now)) }
    ensures none { result ≡ None → IsUnambiguous kind (view value.now) }
{
    first_of(kind.other_members(), value)
}

/// The first of these members that a document has.
fn first_of(members: &[OtherMember], value: &Value) -> Option<OtherMember>
    ensures some { IfSome result (IsFirstOf members.now (view value.now)) }
    ensures none { result ≡ None → All (λ m. ¬ HasMember m (view value.now)) members.now }
{
    'each: for place in 0..members.len() {
        if members[place].is_in(value) {
            return Some(members[place]);
        }
    }
    None
}
