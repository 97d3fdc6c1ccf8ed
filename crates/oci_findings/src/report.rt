//! What was found out about a document or a file of an image layout.
ghost use Rattle.std.specs.Prelude.{◌≡◌, ◌++◌, ◌∷◌, [], IfOk, OnOk};
ghost use Rattle.std.specs.List.{filter};
ghost use Rattle.oci_findings.specs.Lines.{is_error, is_no_error};

use crate::claimed::Claims;
use crate::finding::{Cause, Finding};
use crate::place::{Place, Places, START};
use std::alloc::{AllocError, Global};

/// What was found out about a document or a file of an image layout.
#[derive(Drop)]
pub struct Report<'a> {
    /// What is wrong with it.
    pub errors: Vec<Finding<'a>>,
    /// What may be meant otherwise, or is worth a note.
    pub warnings: Vec<Finding<'a>>,
    /// By which descriptors of an image layout it was reached.
    pub claims: Claims,
    // where the findings are in the text, if there is one
    places: Option<Places>,
}

impl<'a> Report<'a> {
    /// A report on the document in these bytes. Fails if out of memory.
    pub fn new(
        errors: Vec<Finding<'a>>,
        warnings: Vec<Finding<'a>>,
        bytes: &[u8],
        alloc: Global,
    ) -> Result<Report<'a>, AllocError>
        ensures errors { IfOk result (λ r. r.errors ≡ errors.entry) }
        ensures warnings { IfOk result (λ r. r.warnings ≡ warnings.entry) }
    {
        let places = places_of(&errors, &warnings, bytes, alloc)?;
        Ok(Report {
            errors,
            warnings,
            claims: Claims::none(alloc),
            places: Some(places),
        })
    }

    /// A report on a file of an image layout, which was reached by these descriptors; its bytes, where they were kept. Fails if out of
    /// memory.
    pub fn of_file(
        found: Vec<Finding<'a>>,
        text: &Option<Vec<u8>>,
        claims: Claims,
        alloc: Global,
    ) -> Result<Report<'a>, AllocError>
        ensures errors { IfOk result (λ r. r.errors.items ≡ filter is_error found.entry.items) }
        ensures warnings { IfOk result (λ r. r.warnings.items ≡ filter is_no_error found.entry.items) }
    {
        let (mut errors, mut warnings) = (Vec::new(alloc), Vec::new(alloc));
        'sorted: for finding in found {
            sort_in(finding, &mut errors, &mut warnings)?;
        }
        let places = match text {
            Some(bytes) => Some(places_of(&errors, &warnings, bytes.as_slice(), alloc)?),
            None => None,
        };
        Ok(Report {
            errors,
            warnings,
            claims,
            places,
        })
    }

    /// Where a finding is in the text; nowhere where there is none.
    pub fn place_of(&self, finding: &Finding<'_>) -> Option<Place> {
        match &finding.cause {
            Cause::Json(_, place) => Some(*place),
            Cause::Kind(_) => Some(START),
            _ => {
                let places = self.places.as_ref()?;
                Some(places.place_of(finding.pointer.as_str()))
            }
        }
    }
}

/// Adds a finding to the errors, or to the others.
#[tactic(auto, using(crate::proofs::Facts::one_kept, crate::proofs::Facts::one_passed, crate::proofs::Facts::others_passed, crate::proofs::Facts::others_kept))]
fn sort_in<'a>(
    finding: Finding<'a>,
    errors: &mut Vec<Finding<'a>>,
    warnings: &mut Vec<Finding<'a>>,
) -> Result<(), AllocError>
    ensures errors { OnOk result (errors.new.items ≡ errors.old.items ++ filter is_error (finding.entry ∷ [])) }
    ensures warnings { OnOk result (warnings.new.items ≡ warnings.old.items ++ filter is_no_error (finding.entry ∷ [])) }
{
    if finding.is_error() {
        errors.push(finding)?;
    } else {
        warnings.push(finding)?;
    }
    Ok(())
}

/// Where findings are in the text; nowhere if there is none.
fn places_of(
    errors: &Vec<Finding<'_>>,
    warnings: &Vec<Finding<'_>>,
    bytes: &[u8],
    alloc: Global,
) -> Result<Places, AllocError> {
    let mut places = Places::new(alloc);
    ask_for(errors, &mut places, alloc)?;
    ask_for(warnings, &mut places, alloc)?;
    if !places.is_empty() {
        if let Ok(text) = std::str::from_utf8(bytes) {
            places.find(text, alloc)?;
        }
    }
    Ok(places)
}

fn ask_for(found: &Vec<Finding<'_>>, places: &mut Places, alloc: Global) -> Result<(), AllocError> {
    for finding in found {
        if !finding.pointer.is_empty() {
            places.ask(finding.pointer.as_str(), alloc)?;
        }
    }
    Ok(())
}
