//! The names of the kinds of documents.
ghost use Rattle.std.specs.Prelude.{◌≡◌};
ghost use Rattle.oci_findings.specs.Kinds.{kind_named};

use oci_schemas::Kind;

/// The kind of a name, if it is one: a word of `ocidoc`, or `image-config` for `config`, or `runtime-config` for `spec`.
pub fn kind_named(name: &str) -> Option<Kind>
    ensures { result ≡ kind_named name.now }
{
    match name {
        "image-config" => Some(Kind::Config),
        "runtime-config" => Some(Kind::Spec),
        _ => Kind::from_word(name),
    }
}
