//! Whether a scalar allows a value.
ghost use Rattle.std.specs.Prelude.{◌≡◌};
ghost use Rattle.serde_json.specs.View.{view, items_view, members_view};
ghost use Rattle.oci_base.specs.Names.{is_listed};
ghost use Rattle.oci_text.specs.Capability.{capability_table};
ghost use Rattle.oci_model.specs.Means.{as_whole, is_object};
ghost use Rattle.oci_text.specs.CpuScan.{is_cpu_text};
ghost use Rattle.oci_schema.specs.Allows.{allows, is_capability as is_of_table, is_digest_text, names_capability, each_allowed, each_member_allowed};
ghost use Rattle.oci_schema.specs.Shapes.{scalar_shape, names_of};

use crate::Scalar;
use oci_model::JsonName;
use oci_model::other_numbers::{has_other_numbers, members_have_other_numbers};
use oci_text::{Capability, is_cpu_list, is_digest};
use serde_json::{Map, Value};

/// Whether the scalar allows the value.
pub fn scalar_allows(scalar: &Scalar, value: &Value) -> bool
    ensures { result ≡ allows (scalar_shape scalar.now) (view value.now) }
{
    match scalar {
        Scalar::String | Scalar::MediaType | Scalar::Os | Scalar::Arch => value.is_string(),
        Scalar::Boolean => value.is_boolean(),
        Scalar::Integer(low, high) => match whole(value) {
            Some(number) => *low <= number && number <= *high,
            None => false,
        },
        Scalar::Enum(table) => match value.as_str() {
            Some(text) => is_among(table, text),
            None => false,
        },
        Scalar::Digest => match value.as_str() {
            Some(text) => is_digest_value(text),
            None => false,
        },
        Scalar::CpuList => match value.as_str() {
            Some(text) => is_cpu_list_value(text),
            None => false,
        },
        Scalar::Capabilities => match value.as_array() {
            Some(items) => are_capabilities(items),
            None => false,
        },
        Scalar::Keys => match value.as_object() {
            Some(members) => are_objects(members),
            None => false,
        },
        Scalar::Detail => !value.is_null() && !has_other_numbers(value),
        Scalar::FreeValues => match value.as_object() {
            Some(members) => !members_have_other_numbers(members),
            None => false,
        },
    }
}

fn whole(value: &Value) -> Option<i128>
    ensures { result ≡ as_whole (view value.now) }
{
    match value.as_number() {
        Some(number) => number.as_i128(),
        None => None,
    }
}

fn is_among(table: &[&'static str], text: &str) -> bool
    ensures { result ≡ is_listed (names_of table.now) text.now }
{
    for name in table {
        if text == *name {
            return true;
        }
    }
    false
}

fn is_digest_value(text: &str) -> bool
    ensures { result ≡ is_digest_text text.now }
{
    is_digest(text)
}

fn is_cpu_list_value(text: &str) -> bool
    ensures { result ≡ is_cpu_text text.now }
{
    is_cpu_list(text)
}

fn is_capability_value(value: &Value) -> bool
    ensures { result ≡ names_capability capability_table (view value.now) }
{
    match value.as_str() {
        Some(text) => is_capability(text),
        None => false,
    }
}

fn is_capability(text: &str) -> bool
    ensures { result ≡ is_of_table capability_table text.now }
{
    Capability::from_json_name(text).is_some()
}

fn are_capabilities(items: &Vec<Value>) -> bool
    ensures { result ≡ each_allowed (names_capability capability_table) (items_view items.now.items) }
{
    for item in items {
        if !is_capability_value(item) {
            return false;
        }
    }
    true
}

fn are_objects(members: &Map<String, Value>) -> bool
    ensures { result ≡ each_member_allowed is_object (members_view members.now.entries) }
{
    for (_, member) in members.iter() {
        if !member.is_object() {
            return false;
        }
    }
    true
}
