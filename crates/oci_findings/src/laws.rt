//! What holds of the kinds that are found, and of reports.
ghost use Rattle.std.specs.Prelude.{◌≡◌, ◌↔◌, ℕ, List, [], Option, Some, true, false};
ghost use Rattle.oci_layout.specs.Details.{goes_with};
ghost use Rattle.oci_layout.specs.Sound.{IsFine};
ghost use Rattle.oci_layout.specs.declared.claim.Claim.{Claim};
ghost use Rattle.oci_layout.specs.declared.claim.Detail.{Detail};
ghost use Rattle.oci_layout.specs.declared.claim.Fault.{Fault};
ghost use Rattle.oci_model.specs.Fits.{Fits};
ghost use Rattle.oci_model.specs.Plain.{Plain};
ghost use Rattle.oci_model.specs.Value.{value};
ghost use Rattle.oci_schemas.specs.Kinds.{shape_of};
ghost use Rattle.oci_schemas.specs.declared.kind.Kind.{Kind};
ghost use Rattle.oci_findings.specs.FoundKind.{found_kind, is_known};
ghost use Rattle.oci_findings.specs.OwnKind.{SaysKind, has_media_type};
ghost use Rattle.oci_findings.specs.Reports.{IsReportOn};
ghost use Rattle.oci_findings.specs.declared.report.Report.{Report};

/// A document in its canonical form is known by its members as one of its own kind, and as one of no other. Whatever its file is
/// called, it is found to be of that kind exactly if the media type that it says, if it says one, is of that kind; manifests,
/// indexes and artifact manifests alone say one, so a document of any other kind is always found.
pub fn own_kind_is_found()
    ensures known { (kind other : Kind) (p : Plain) → Fits (shape_of kind) p → (is_known (value (shape_of kind) p) other ≡ true) ↔ (other ≡ kind) }
    ensures found { (kind : Kind) (p : Plain) (name : List ℕ) → Fits (shape_of kind) p
        → (found_kind name (value (shape_of kind) p) ≡ Some kind) ↔ SaysKind kind (value (shape_of kind) p) }
    ensures always { (kind : Kind) (p : Plain) (name : List ℕ) → Fits (shape_of kind) p → has_media_type kind ≡ false
        → found_kind name (value (shape_of kind) p) ≡ Some kind }
{}

/// The report on what was seen at a claim has no error exactly if nothing stands against the claim, or its content is missing and
/// may be.
pub fn no_error_is_fine()
    ensures { (claim : Claim) (found : Option Fault) (detail : Detail) (report : Report) → goes_with found detail ≡ true → IsReportOn claim found detail report
        → (report.errors.items ≡ []) ↔ IsFine claim found }
{}
