//! How a member is named in an object: by one name, or by a name and an alias.
ghost use Rattle.std.specs.Prelude.{◌≡◌, ◌∷◌, ℕ, List, [], Option, Some, None, true, false, is_some, option_map, IfOk, IfErr, IsTrue};
ghost use Rattle.serde_json.specs.Data.{object as object_of};
ghost use Rattle.serde_json.specs.Find.{get_member};
ghost use Rattle.serde_json.specs.View.{view, members_view};
ghost use Rattle.oci_base.specs.Names.{is_listed, no_text_twice};
ghost use Rattle.oci_base.specs.Refused.{IsMemoryOrSchema};
ghost use Rattle.oci_model.specs.Means.{get_second};
ghost use Rattle.oci_model.specs.Reading.{OneOf};
ghost use Rattle.oci_model.specs.Shape.{with_second};

use crate::fault::refused;
use crate::parts::take_member;
use oci_base::Result;
use serde_json::{Map, Value};

/// The name of a member, or its name and an alias under which it is read too.
pub trait MemberName: Copy + Drop {
    /// The name.
    ghost text: { Self → List ℕ };

    /// The alias, if there is one.
    ghost alias: { Self → Option (List ℕ) };

    /// Returns the name.
    fn as_str(&self) -> &'static str
        ensures { result.now ≡ text self.now };

    /// Takes what is under the name, or else under the alias, out of the object. Fails with `SerDe(Schema)` exactly if something
    /// is under both.
    fn take(&self, object: &mut Map<String, Value>, owner: &'static str) -> Result<Option<Value>>
        requires distinct { IsTrue (no_text_twice (text self.now ∷ with_second (alias self.now) [])) }
        ensures ok { IfOk result (λ one. OneOf (option_map view one) (get_member (text self.now) (members_view object.old.entries)) (get_second (alias self.now) (object_of (members_view object.old.entries)))) }
        ensures err { IfErr result (λ e. (is_some (get_member (text self.now) (members_view object.old.entries)) ≡ true) × (is_some (get_second (alias self.now) (object_of (members_view object.old.entries))) ≡ true)) }
        ensures kind { IfErr result IsMemoryOrSchema }
        ensures others { (q : _) → is_listed (text self.now ∷ with_second (alias self.now) []) q ≡ false → get_member q (members_view object.new.entries) ≡ get_member q (members_view object.old.entries) };
}

impl MemberName for &'static str {
    ghost text = { λ n. n.now };

    ghost alias = { λ n. None };

    #[inline(always)]
    fn as_str(&self) -> &'static str {
        *self
    }

    #[tactic(auto, using(crate::proofs::MemberNames::alone))]
    #[inline(always)]
    fn take(&self, object: &mut Map<String, Value>, _owner: &'static str) -> Result<Option<Value>> {
        Ok(take_member(object, *self))
    }
}

impl MemberName for (&'static str, &'static str) {
    ghost text = { λ n. n.0.now };

    ghost alias = { λ n. Some n.1.now };

    #[inline(always)]
    fn as_str(&self) -> &'static str {
        self.0
    }

    fn take(&self, object: &mut Map<String, Value>, owner: &'static str) -> Result<Option<Value>> {
        let (name, alias) = *self;
        let found = take_member(object, name);
        let other = take_member(object, alias);
        match other {
            None => Ok(found),
            Some(value) => match found {
                None => Ok(Some(value)),
                Some(_) => Err(refused(owner, name)),
            },
        }
    }
}
