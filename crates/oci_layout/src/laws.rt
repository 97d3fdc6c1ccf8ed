//! What a walk without a finding says, and where a digest's content lies.
ghost use Rattle.std.specs.Prelude.{◌≡◌, ℕ, List, Option, Some, None, Bool, true, false};
ghost use Rattle.serde_json.specs.Data.{Data};
ghost use Rattle.oci_json.specs.Engines.{ReadsAs};
ghost use Rattle.oci_base.specs.Digest.{IsDigest};
ghost use Rattle.oci_layout.specs.Documents.{IsRead, IsUnambiguous};
ghost use Rattle.oci_layout.specs.Looks.{Shows, IsShown, IsShownIn};
ghost use Rattle.oci_layout.specs.Paths.{IsPlainName};
ghost use Rattle.oci_layout.specs.Sound.{AreFine, AreSoundFrom};
ghost use Rattle.oci_layout.specs.Walk.{IsWalk};
ghost use Rattle.oci_layout.specs.declared.claim.Claim.{Claim};
ghost use Rattle.oci_layout.specs.declared.claim.Fault.{Fault};
ghost use Rattle.oci_layout.specs.declared.claim.Fault.TheVariants.{Unreadable};
ghost use Rattle.oci_layout.specs.declared.kind.Kind.{Kind};

/// Where a walk over known contents found nothing that stands against a claim, all that is reached is there, as large and with the
/// digest that is claimed, and is the document of its kind; or it is missing, and may be.
pub fn sound_where_reached()
    ensures { (limit : ℕ) (steady : Bool) (contents : List ℕ → Option (List ℕ)) (start all : List Claim) (faults : List (Option Fault))
        → IsWalk (Shows false steady limit (Some contents)) start all faults → AreFine all faults → AreSoundFrom limit contents start }
{}

/// Where no read fails and all that is reached is so, a walk finds nothing.
pub fn fine_where_sound()
    ensures { (limit : ℕ) (contents : List ℕ → Option (List ℕ)) (start all : List Claim) (faults : List (Option Fault))
        → IsWalk (Shows false true limit (Some contents)) start all faults → AreSoundFrom limit contents start → AreFine all faults }
{}

/// What is found at a claim is one thing, by what is there: what stands against it, if anything does, and the claims of one document.
/// Where no read fails, a store shows this.
pub fn one_thing_shown()
    ensures once { (limit : ℕ) (there : Option (List ℕ)) (claim : Claim) (f g : Option Fault) (xs ys : List Claim)
        → IsShown limit there claim f xs → IsShown limit there claim g ys → (f ≡ g) × (xs ≡ ys) }
    ensures steady { (limit : ℕ) (contents : List ℕ → Option (List ℕ)) (claim : Claim) (f : Option Fault) (xs : List Claim)
        → Shows false true limit (Some contents) claim f xs → IsShownIn limit contents claim f xs }
    ensures readable { (limit : ℕ) (there : Option (List ℕ)) (claim : Claim) (f : Option Fault) (xs : List Claim)
        → IsShown limit there claim f xs → ¬ (f ≡ Some Unreadable) }
{}

/// A document against which nothing stands is not ambiguous: it has no member by which clients may take it for one of another kind.
/// So is each that is reached by a walk that found nothing, and `index.json`.
pub fn unambiguous()
    ensures { (kind : Kind) (bytes : List ℕ) (claims : List Claim) (value : Data)
        → IsRead kind bytes None claims → ReadsAs bytes value → IsUnambiguous kind value }
{}

/// Both parts of a digest are plain names of files: neither is empty, `.` or `..`, and neither has a slash.
pub fn plain_parts()
    ensures { (text algorithm encoded : List ℕ) → IsDigest text algorithm encoded → IsPlainName algorithm × IsPlainName encoded }
{}
