//! The value of a member as it is found, and as it is written.
ghost use Rattle.std.specs.Prelude.{◌≡◌, option_map, option_and_then, IfErr, OnOk};
ghost use Rattle.serde_json.specs.View.{view, members_view};
ghost use Rattle.oci_base.specs.Refused.{IsSchema, IsMemoryOrSchema};
ghost use Rattle.oci_model.specs.Means.{unless_null as without_null};
ghost use Rattle.oci_model.specs.Plain.{empty};
ghost use Rattle.oci_model.specs.Value.{with_member, member_value};
ghost use Rattle.oci_schema.specs.Shapes.{presence_of};
ghost use Rattle.oci_schema.specs.Given.{may_be_null, given as what_is_given, written as what_is_written};

use crate::Presence;
use crate::normal::unless_no_items;
use oci_base::Result;
use serde_json::{Map, Value};
use std::alloc::Global;

/// The found value; none if it is null and null counts as absent.
pub fn given(presence: &Presence, found: Option<Value>) -> Option<Value>
    ensures { option_map view result ≡ what_is_given (presence_of presence.now) (option_map view found) }
{
    if is_null_absent(presence) {
        unless_null(found)
    } else {
        found
    }
}

/// Whether null counts as absent.
pub fn is_null_absent(presence: &Presence) -> bool
    ensures { result ≡ may_be_null (presence_of presence.now) }
{
    match presence {
        Presence::Required | Presence::Defaulted(_) | Presence::DefaultedRecord(_) => false,
        Presence::Optional | Presence::Nullable | Presence::UnlessEmpty => true,
    }
}

/// The found value, unless it is null.
fn unless_null(found: Option<Value>) -> Option<Value>
    ensures { option_map view result ≡ option_and_then without_null (option_map view found) }
{
    match found {
        Some(value) => { if value.is_null() { None } else { Some(value) } }
        None => None,
    }
}

/// What is written for a member with this value; none if it is omitted.
pub fn written(presence: &Presence, member: Value) -> Option<Value>
    ensures { option_map view result ≡ what_is_written (presence_of presence.now) (view member) }
{
    match presence {
        Presence::UnlessEmpty => unless_no_items(member),
        _ => Some(member),
    }
}

/// What is written for a member with no value.
pub fn written_for_none(presence: &Presence) -> Option<Value>
    ensures { (v : _) → option_map view result ≡ member_value (presence_of presence.now) v empty }
{
    match presence {
        Presence::Nullable => Some(Value::Null),
        _ => None,
    }
}

/// Puts a member of this name into the object, if it has a value.
#[tactic(auto, using(oci_model::proofs::Writers::inserted))]
pub fn put_member(
    members: &mut Map<String, Value>,
    name: &str,
    member: Option<Value>,
    alloc: Global,
) -> Result<()>
    ensures ok { OnOk result (members_view members.new.entries ≡ with_member name.now (option_map view member) (members_view members.old.entries)) }
    ensures err { IfErr result (λ e. ¬ IsSchema e) }
    ensures kind { IfErr result IsMemoryOrSchema }
{
    let Some(member) = member else {
        return Ok(());
    };
    let key = String::from_str(alloc, name)?;
    drop(members.insert(key, member)?);
    Ok(())
}
