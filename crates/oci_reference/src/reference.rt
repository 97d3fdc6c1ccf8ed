ghost use Rattle.std.specs.Prelude.{◌≡◌, ◌&&◌, ◌||◌, is_some, codes, Some, None, IfOk, IfErr, option_map, string_bytes};
ghost use Rattle.oci_reference.specs.Accepted.{Accepted, Tells, or_latest};
ghost use Rattle.oci_reference.specs.Parts.{resolved, namespace};
ghost use Rattle.oci_reference.specs.Whole.{whole};
ghost use Rattle.oci_reference.specs.Named.{names_of};
ghost use Rattle.oci_reference.specs.Written.{some_text, named, mark_if};

use crate::limits::limit;
use crate::names::{Named, default_name, repository_text};
use crate::texts::{copied, lent, mark_if, owned, some_text, tag_or_latest, text_or_empty};
use crate::{ParseError, parts};
use oci_base::OciSpecError;
use oci_model::{
    ObjectWriter, OciRecord, Optional, Required, nested, read_members, write_optional,
    write_required,
};
use serde_json::Value;
use std::alloc::{AllocError, Global};
use std::fmt;
use std::hash::{Hash, Hasher};
use std::marker::Model;

const NAME: &str = "Reference";

/// A reference to an image in a registry (distribution specification, "Pulling manifests"). Contracts see it as its parts:
/// registry, repository, tag and digest, and the mirror that is asked in the registry's place.
#[derive(Debug, Drop)]
pub struct Reference {
    registry: String,
    mirror_registry: Option<String>,
    repository: String,
    tag: Option<String>,
    digest: Option<String>,
}

impl Model for Reference {
    ghost use Rattle.std.specs.Prelude.{string_bytes, option_map};
    ghost use Rattle.oci_reference.specs.Parts.{Parts};

    ghost Value = { Parts };

    ghost view = { λ r. record {
      registry = string_bytes r.registry;
      repository = string_bytes r.repository;
      tag = option_map string_bytes r.tag;
      digest = option_map string_bytes r.digest;
      mirror = option_map string_bytes r.mirror_registry;
    } };
}

impl PartialEq for Reference {
    ghost use Rattle.std.specs.Cmp.{partial_equiv_from_equiv};
    ghost use Rattle.oci_reference.specs.Equal.{parts_eq};
    ghost use Rattle.oci_reference.specs.Equal.{parts_equiv};

    ghost eq = { parts_eq };

    ghost laws = { partial_equiv_from_equiv parts_equiv };

    fn eq(&self, other: &Reference) -> bool {
        self.registry == other.registry
            && self.mirror_registry == other.mirror_registry
            && self.repository == other.repository
            && self.tag == other.tag
            && self.digest == other.digest
    }
}

impl Eq for Reference {
    ghost use Rattle.oci_reference.specs.Equal.{parts_equiv};

    ghost laws = { parts_equiv };
}

impl Hash for Reference {
    ghost use Rattle.oci_reference.specs.Equal.{parts_fed};
    ghost use Rattle.oci_reference.specs.Equal.{alike};

    ghost hash_input = { parts_fed };

    ghost respects_eq = { alike };

    fn hash<H: Hasher>(&self, state: &mut H) {
        self.registry.as_str().hash(state);
        self.mirror_registry.hash(state);
        self.repository.as_str().hash(state);
        self.tag.hash(state);
        self.digest.hash(state);
    }
}

impl Reference {
    /// Reads a reference. A name without a registry is one of `docker.io`, in `library/` where it has one component, and
    /// the tag is `latest` where neither tag nor digest is given. A text that is not accepted is refused without taking
    /// memory, for the first of the reasons that `ParseError` names, so `Memory` is answered for accepted texts alone.
    pub fn from_str(alloc: Global, text: &str) -> Result<Reference, ParseError>
        ensures ok { IfOk result (Accepted text.now) }
        ensures err { IfErr result (Tells text.now) }
    {
        let pieces = parts(text)?;
        let names = default_name(pieces.name);
        if let Some(error) = limit(&names, pieces.digest) {
            return Err(error);
        }
        let reference = Reference::made(alloc, &names, pieces.tag, pieces.digest)?;
        Ok(reference)
    }

    /// Reads a reference from an owned text, with the answers of `from_str`.
    pub fn try_from(text: String) -> Result<Reference, ParseError>
        ensures ok { IfOk result (Accepted (string_bytes text)) }
        ensures err { IfErr result (Tells (string_bytes text)) }
    {
        Reference::from_str(*text.allocator(), text.as_str())
    }

    fn made(
        alloc: Global,
        names: &Named<'_>,
        tag: Option<&str>,
        digest: Option<&str>,
    ) -> Result<Reference, AllocError>
        ensures { IfOk result (λ r. r ≡ record {
          registry = (names_of names.now).0;
          repository = (names_of names.now).1;
          tag = or_latest (option_map (λ x. x.now) tag.entry) (option_map (λ x. x.now) digest.entry);
          digest = option_map (λ x. x.now) digest.entry;
          mirror = None;
        }) }
    {
        Ok(Reference {
            registry: String::from_str(alloc, names.registry)?,
            mirror_registry: None,
            repository: repository_text(alloc, names)?,
            tag: owned(alloc, tag_or_latest(tag, digest))?,
            digest: owned(alloc, digest)?,
        })
    }

    fn untested(
        registry: String,
        repository: String,
        tag: Option<String>,
        digest: Option<String>,
    ) -> Reference
        ensures { result ≡ record {
          registry = string_bytes registry;
          repository = string_bytes repository;
          tag = option_map string_bytes tag;
          digest = option_map string_bytes digest;
          mirror = None;
        } }
    {
        Reference {
            registry,
            mirror_registry: None,
            repository,
            tag,
            digest,
        }
    }

    /// A reference of these texts, with a tag. No text is tested.
    pub fn with_tag(registry: String, repository: String, tag: String) -> Reference
        ensures { result ≡ record {
          registry = string_bytes registry;
          repository = string_bytes repository;
          tag = Some (string_bytes tag);
          digest = None;
          mirror = None;
        } }
    {
        Reference::untested(registry, repository, Some(tag), None)
    }

    /// A reference of these texts, with a digest. No text is tested.
    pub fn with_digest(registry: String, repository: String, digest: String) -> Reference
        ensures { result ≡ record {
          registry = string_bytes registry;
          repository = string_bytes repository;
          tag = None;
          digest = Some (string_bytes digest);
          mirror = None;
        } }
    {
        Reference::untested(registry, repository, None, Some(digest))
    }

    /// A reference of these texts, with tag and digest. No text is tested.
    pub fn with_tag_and_digest(
        registry: String,
        repository: String,
        tag: String,
        digest: String,
    ) -> Reference
        ensures { result ≡ record {
          registry = string_bytes registry;
          repository = string_bytes repository;
          tag = Some (string_bytes tag);
          digest = Some (string_bytes digest);
          mirror = None;
        } }
    {
        Reference::untested(registry, repository, Some(tag), Some(digest))
    }

    /// The same registry, repository and mirror with this digest, which is not tested, and without the tag. The error is
    /// `Memory`.
    pub fn clone_with_digest(&self, digest: String) -> oci_base::Result<Reference>
        ensures ok { IfOk result (λ r. r ≡ record self.now { tag = None; digest = Some (string_bytes digest) }) }
        ensures err { IfErr result (λ e. e ≡ OciSpecError.Memory) }
    {
        let mut other = Reference::with_digest(
            self.registry.clone()?,
            self.repository.clone()?,
            digest,
        );
        other.mirror_registry = copied(&self.mirror_registry)?;
        Ok(other)
    }

    /// Sets the mirror: the registry that is asked in the place of the reference's own.
    pub fn set_mirror_registry(&mut self, registry: String)
        ensures { self.new ≡ record self.old { mirror = Some (string_bytes registry) } }
    {
        self.mirror_registry = Some(registry);
    }

    /// The registry that the reference names.
    pub fn registry(&self) -> &str
        ensures { result.now ≡ self.now.registry }
    {
        self.registry.as_str()
    }

    /// The repository within the registry.
    pub fn repository(&self) -> &str
        ensures { result.now ≡ self.now.repository }
    {
        self.repository.as_str()
    }

    /// The tag, if there is one.
    pub fn tag(&self) -> Option<&str>
        ensures { option_map (λ x. x.now) result ≡ self.now.tag }
    {
        lent(&self.tag)
    }

    /// The digest, if there is one.
    pub fn digest(&self) -> Option<&str>
        ensures { option_map (λ x. x.now) result ≡ self.now.digest }
    {
        lent(&self.digest)
    }

    /// The registry that is asked: the mirror if one is set, else `index.docker.io` for `docker.io`, else the registry.
    pub fn resolve_registry(&self) -> &str
        ensures { result.now ≡ resolved self.now }
    {
        match &self.mirror_registry {
            Some(mirror) => mirror.as_str(),
            None if self.registry.as_str() == "docker.io" => "index.docker.io",
            None => self.registry.as_str(),
        }
    }

    /// The registry, if a mirror is set.
    pub fn namespace(&self) -> Option<&str>
        ensures { option_map (λ x. x.now) result ≡ namespace self.now }
    {
        match &self.mirror_registry {
            Some(_) => Some(self.registry.as_str()),
            None => None,
        }
    }

    /// The whole text: registry, `/` repository, `:` tag and `@` digest, each mark only behind a part. The mirror is not
    /// shown. The error is `Memory`.
    pub fn whole(&self) -> oci_base::Result<String>
        ensures ok { IfOk result (λ t. string_bytes t ≡ whole self.now) }
        ensures err { IfErr result (λ e. e ≡ OciSpecError.Memory) }
    {
        Ok(self.to_string(*self.registry.allocator())?)
    }

    /// The whole text. The error is `Memory`.
    pub fn into_string(self) -> oci_base::Result<String>
        ensures ok { IfOk result (λ t. string_bytes t ≡ whole self) }
        ensures err { IfErr result (λ e. e ≡ OciSpecError.Memory) }
    {
        self.whole()
    }

    fn is_named(&self) -> bool
        ensures { result ≡ named self.now }
    {
        some_text(self.registry.as_str()) || some_text(self.repository.as_str())
    }

    fn slash(&self) -> &str
        ensures { result.now ≡ mark_if (some_text self.now.registry && some_text self.now.repository) (codes "/") }
    {
        let wanted = some_text(self.registry.as_str()) && some_text(self.repository.as_str());
        mark_if(wanted, "/")
    }

    fn colon(&self) -> &str
        ensures { result.now ≡ mark_if (named self.now && is_some self.now.tag) (codes ":") }
    {
        let wanted = self.is_named() && self.tag.is_some();
        mark_if(wanted, ":")
    }

    fn at(&self) -> &str
        ensures { result.now ≡ mark_if ((named self.now || is_some self.now.tag) && is_some self.now.digest) (codes "@") }
    {
        let wanted = (self.is_named() || self.tag.is_some()) && self.digest.is_some();
        mark_if(wanted, "@")
    }

    /// An equal reference. The error is `Memory`.
    pub fn clone(&self) -> oci_base::Result<Reference>
        ensures ok { IfOk result (λ r. r ≡ self.now) }
        ensures err { IfErr result (λ e. e ≡ OciSpecError.Memory) }
    {
        Ok(Reference {
            registry: self.registry.clone()?,
            mirror_registry: copied(&self.mirror_registry)?,
            repository: self.repository.clone()?,
            tag: copied(&self.tag)?,
            digest: copied(&self.digest)?,
        })
    }
}

impl OciRecord for Reference {
    ghost use Rattle.oci_model.specs.Same.{same_document, same_more, same_last, same_given, same_perhaps, same_bytes};
    ghost use Rattle.oci_shapes.specs.Reference.{reference};
    ghost use Rattle.oci_reference.specs.Record.{reference_plain};

    ghost shape = { reference };

    ghost plain = { reference_plain };

    fn from_value(alloc: Global, value: &Value) -> oci_base::Result<Reference> {
        let value = value.clone()?;
        Self::from_value_owned(alloc, value)
    }

    fn from_value_owned(alloc: Global, value: Value) -> oci_base::Result<Reference> {
        let nested!(registry, mirror_registry, repository, tag, digest) = read_members::<
            nested!(Required, Optional, Required, Optional, Optional),
            _,
            _,
        >(
            alloc,
            value,
            NAME,
            nested!("registry", "mirror_registry", "repository", "tag", "digest"),
        )?;
        Ok(Reference {
            registry,
            mirror_registry,
            repository,
            tag,
            digest,
        })
    }

    fn to_value(&self, alloc: Global) -> oci_base::Result<Value> {
        let mut members = ObjectWriter::new(alloc);
        write_required(&mut members, "registry", &self.registry);
        write_optional(&mut members, "mirror_registry", &self.mirror_registry);
        write_required(&mut members, "repository", &self.repository);
        write_optional(&mut members, "tag", &self.tag);
        write_optional(&mut members, "digest", &self.digest);
        members.object()
    }

    fn duplicate(&self, _alloc: Global) -> oci_base::Result<Reference> {
        self.clone()
    }

    ghost well_formed = { Prim.search };

    ghost same = { λ x y. same_document (
        same_more (same_given same_bytes x.registry y.registry) (
        same_more (same_perhaps same_bytes x.mirror y.mirror) (
        same_more (same_given same_bytes x.repository y.repository) (
        same_more (same_perhaps same_bytes x.tag y.tag) (
        same_last (same_perhaps same_bytes x.digest y.digest)))))) };
}

impl fmt::Display for Reference {
    ghost use Rattle.std.specs.Prelude.{Some};
    ghost use Rattle.oci_reference.specs.Whole.{whole};

    ghost output = { λ r. Some (whole r) };

    fn fmt<W: fmt::Write>(&self, f: &mut fmt::Formatter<W>) -> fmt::Result {
        let registry = self.registry.as_str();
        let slash = self.slash();
        let repository = self.repository.as_str();
        let colon = self.colon();
        let tag = text_or_empty(&self.tag);
        let at = self.at();
        let digest = text_or_empty(&self.digest);
        write!(f, "{registry}{slash}{repository}{colon}{tag}{at}{digest}")
    }
}
