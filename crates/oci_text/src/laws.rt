//! Laws of the grammars of digests and of CPU lists, and of the tables of names, over their definitions alone.
ghost use Rattle.std.specs.Prelude.{◌≡◌, ◌↔◌, ℕ, List, [], None, false, codes};
ghost use Rattle.oci_base.specs.CpuList.{IsCpuList};
ghost use Rattle.oci_base.specs.Digest.{IsDigest, IsDigestText, digest_refusal};
ghost use Rattle.oci_base.specs.Names.{is_other, name_text, opened};
ghost use Rattle.oci_text.specs.Arch.{arch_name, arches};
ghost use Rattle.oci_text.specs.declared.arch.Arch.{Arch};
ghost use Rattle.oci_text.specs.declared.media_type.MediaType.{MediaType};
ghost use Rattle.oci_text.specs.declared.os.Os.{Os};
ghost use Rattle.oci_text.specs.MediaType.{media_type_name, media_types};
ghost use Rattle.oci_text.specs.Os.{os_name, oses};

/// A text is a digest in one way at most.
pub fn digest_one_reading()
    ensures { (t a e a' e' : List ℕ) → IsDigest t a e → IsDigest t a' e' → (a ≡ a') × (e ≡ e') }
{}

/// A digest has no refusal, and a text that has none is a digest.
pub fn digest_refused()
    ensures { (t : List ℕ) → (digest_refusal t ≡ None) ↔ IsDigestText t }
{}

/// A CPU list has numbers and ranges, which may also count down; a range without its end is not one, nor is the empty text.
pub fn cpu_lists()
    ensures ranges { IsCpuList (codes "0-3,7") }
    ensures downward { IsCpuList (codes "3-1") }
    ensures unended { ¬ IsCpuList (codes "0-") }
    ensures empty { ¬ IsCpuList [] }
{}

/// A named media type is read from its own text.
#[tactic(auto, using(crate::proofs::NamedMediaType::media_type_back))]
pub fn media_type_back()
    ensures { (m : MediaType) → is_other (media_type_name m) ≡ false → opened media_types (name_text (media_type_name m)) ≡ media_type_name m }
{}

/// A named operating system is read from its own text.
#[tactic(auto, using(crate::proofs::NamedOs::os_back))]
pub fn os_back()
    ensures { (m : Os) → is_other (os_name m) ≡ false → opened oses (name_text (os_name m)) ≡ os_name m }
{}

/// A named architecture is read from its own text.
#[tactic(auto, using(crate::proofs::NamedArch::arch_back))]
pub fn arch_back()
    ensures { (m : Arch) → is_other (arch_name m) ≡ false → opened arches (name_text (arch_name m)) ≡ arch_name m }
{}
