//! Errors of values that the schema rejects.
ghost use Rattle.oci_base.specs.Refused.{IsSchema, IsMemoryOrSchema};

use oci_base::{OciSpecError, SchemaFault, SerDeError};

/// The error for a member of a record, or with an empty name for the whole record; with no owner, for any value.
pub fn refused(owner: &'static str, member: &'static str) -> OciSpecError
    ensures schema { IsSchema result }
    ensures kind { IsMemoryOrSchema result }
{
    OciSpecError::SerDe(SerDeError::Schema(SchemaFault { owner, member }))
}

/// Places an error at a member, unless it has a place within the member's value already.
pub fn placed(fault: OciSpecError, owner: &'static str, member: &'static str) -> OciSpecError
    ensures schema { IsSchema result → IsSchema fault }
    ensures kind { IsMemoryOrSchema fault → IsMemoryOrSchema result }
{
    match fault {
        OciSpecError::SerDe(SerDeError::Schema(inner)) => {
            if inner.member.is_empty() {
                refused(owner, member)
            } else {
                OciSpecError::SerDe(SerDeError::Schema(inner))
            }
        }
        other => other,
    }
}
