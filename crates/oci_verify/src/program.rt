//! The whole of a verification.
ghost use Rattle.std.specs.Prelude.{◌≡◌, ◌↔◌, ◌<◌, true, false, codes, length, None, IsTrue, IfOk, IfSome, string_bytes};
ghost use Rattle.std.specs.BTreeSet.{contains_text};
ghost use Rattle.oci_base.specs.Escaped.{IsLine};
ghost use Rattle.oci_verify.specs.Images.{OverContents};
ghost use Rattle.oci_verify.specs.Layouts.{AreKnown, ArePathsOf, IsFoundRight, IsJudged, IsJudgedIndex, IsQuiet, IsRightIndex, IsRightLayout, OverSteady};
ghost use Rattle.oci_verify.specs.Passing.{FoundPassing};
ghost use Rattle.oci_layout.specs.Marker.{HasMarker, IsMarked};
ghost use Rattle.oci_layout.specs.Sound.{IsLarger, IsSoundIndex, IsSoundLayout};
ghost use Rattle.oci_layout.specs.Walk.{IsWalk};

use crate::documents::Documents;
use crate::examination::Examination;
use crate::images::images_agree;
use crate::marker::{Marked, marker_report};
use crate::options::Options;
use crate::output::Output;
use crate::progress::{Progress, Watch};
use crate::unreferenced::{are_reached, are_whole, listed_finding, paths_of};
use oci_base::{OciSpecError, Result, line_of};
use oci_findings::{
    Claims, FileFault, Report, Reporter, RuleBooks, Totals, content_report, document_findings,
};
use oci_json::write_text;
use oci_layout::{
    Claim, Detail, Fault, ImageLayout, Kind, Layout, Listed, Seen, Shown, Top, Walk, are_found,
    are_read, blob_path, is_sound_walk, read_document, read_top, walk_all,
};
use std::alloc::{AllocError, Global};
use std::collections::BTreeSet;
use std::io::{ErrorKind, Write};

/// How many bytes are read at once.
const PIECE: usize = 65536;

/// Says why a verification ended before its end. Nothing is said of a reader that has gone away, as `head` does.
pub(crate) fn complain<E: Write>(refusal: &OciSpecError, alloc: Global, errors: &mut E) {
    if let OciSpecError::Io(fault) = refusal {
        if fault.kind() == ErrorKind::BrokenPipe {
            return;
        }
    }
    let _ = match complaint(refusal, alloc) {
        Ok(line) => write_text(line.as_bytes(), errors),
        Err(_) => write_text(b"ciderglen: out of memory\n", errors),
    };
}

/// The line that says why.
fn complaint(refusal: &OciSpecError, alloc: Global) -> std::result::Result<String, AllocError>
    ensures { IfOk result (λ line. IsLine (string_bytes line)) }
{
    let text = match refusal {
        OciSpecError::Io(fault) => format!(in alloc; "ciderglen: cannot write: {fault}")?,
        OciSpecError::Other(text) => format!(in alloc; "ciderglen: {text}")?,
        _ => return Err(AllocError),
    };
    line_of(text.as_str(), alloc)
}

/// Why no index was read, or that memory ran out.
fn no_index(text: &str, alloc: Global) -> OciSpecError {
    match String::from_str(alloc, text) {
        Ok(text) => OciSpecError::Other(text),
        Err(_) => OciSpecError::Memory,
    }
}

/// A layout that is verified.
pub(crate) struct Verification<'a, L, B, C> {
    pub(crate) layout: &'a L,
    pub(crate) options: &'a Options<'a>,
    pub(crate) books: &'a B,
    pub(crate) watch: &'a C,
    pub(crate) alloc: Global,
}

impl<'a, L, B, C> Drop for Verification<'a, L, B, C> {
    fn drop(self) {
        let Verification {
            layout,
            options,
            books,
            watch,
            alloc,
        } = self;
    }
}

impl<'a, L: ImageLayout, B: RuleBooks, C: Watch> Verification<'a, L, B, C> {
    /// Whether nothing stands against the layout; what does is reported.
    pub(crate) fn verify<W: Write, E: Write>(&self, writer: &mut W, errors: &mut E) -> Result<bool>
        ensures sound { IfOk result (λ right. IsTrue right → self.now.options.now.quick ≡ false
            → IsSoundLayout self.now.options.now.limit (L.tops self.now.layout.now) (L.contents self.now.layout.now)) }
        ensures right { IfOk result (λ right. self.now.options.now.quick ≡ false
            → OverSteady (L.steady self.now.layout.now) (L.tops self.now.layout.now) (L.contents self.now.layout.now)
            (λ tops contents. IsTrue right ↔ IsRightLayout (B.rules self.now.books.now) self.now.options.now (L.names self.now.layout.now) tops contents)) }
        ensures index { IfOk result (λ right. IfSome (L.tops self.now.layout.now) (λ tops. ¬ (tops (codes "index.json") ≡ None))) }
        ensures large { IfOk result (λ right. IfSome (L.tops self.now.layout.now) (λ tops. IsLarger self.now.options.now.limit (tops (codes "index.json")) → right ≡ false)) }
    {
        let mut buffer = vec![in self.alloc; 0u8; PIECE]?;
        let buffer = buffer.as_mut_slice();
        let mut output = Output {
            alloc: self.alloc,
            reporter: Reporter::new(self.options.check.style, self.alloc)?,
            progress: None,
            verbose: self.options.verbose,
            writer,
            errors,
        };
        let is_marked = self.report_marker(buffer, &mut output)?;
        let is_right = self.verify_contents(buffer, &mut output)?;
        Ok(are_both(is_marked, is_right))
    }

    /// The same of all that the index reaches.
    fn verify_contents<W: Write, E: Write>(
        &self,
        buffer: &mut [u8],
        output: &mut Output<'_, W, E>,
    ) -> Result<bool>
        requires { 0 < length buffer.old }
        ensures sound { IfOk result (λ right. IsTrue right → self.now.options.now.quick ≡ false
            → IsSoundIndex self.now.options.now.limit (L.tops self.now.layout.now) (L.contents self.now.layout.now)) }
        ensures right { IfOk result (λ right. self.now.options.now.quick ≡ false
            → OverSteady (L.steady self.now.layout.now) (L.tops self.now.layout.now) (L.contents self.now.layout.now)
            (λ tops contents. IsTrue right ↔ IsRightIndex (B.rules self.now.books.now) self.now.options.now (L.names self.now.layout.now) tops contents)) }
        ensures index { IfOk result (λ right. IfSome (L.tops self.now.layout.now) (λ tops. ¬ (tops (codes "index.json") ≡ None))) }
        ensures large { IfOk result (λ right. IfSome (L.tops self.now.layout.now) (λ tops. IsLarger self.now.options.now.limit (tops (codes "index.json")) → right ≡ false)) }
    {
        match read_top(
            self.layout,
            self.alloc,
            "index.json",
            self.options.limit,
            buffer,
        )? {
            Top::Bytes(index) => {
                let index = index.as_slice();
                self.verify_index(index, buffer, output)
            }
            Top::TooLarge => {
                output.add_fault("index.json", FileFault::TooLarge)?;
                output.finish(&Totals::none())?;
                Ok(false)
            }
            Top::Missing => Err(self.end_early("index.json: missing", output)),
            Top::Unreadable(why) => {
                let text = format!(in self.alloc; "index.json: cannot be read: {why}")?;
                Err(self.end_early(text.as_str(), output))
            }
        }
    }

    /// Ends with what was found so far, since no index was read, and returns why.
    fn end_early<W: Write, E: Write>(
        &self,
        text: &str,
        output: &mut Output<'_, W, E>,
    ) -> OciSpecError {
        match output.finish(&Totals::none()) {
            Ok(()) => no_index(text, self.alloc),
            Err(fault) => fault,
        }
    }

    /// Reports what is wrong with `oci-layout`, and whether it is a marker of version 1.0.0.
    fn report_marker<W: Write, E: Write>(
        &self,
        buffer: &mut [u8],
        output: &mut Output<'_, W, E>,
    ) -> Result<bool>
        requires { 0 < length buffer.old }
        ensures marked { IfOk result (λ right. IsTrue right → IsMarked self.now.options.now.limit (L.tops self.now.layout.now)) }
        ensures right { IfOk result (λ right. OverSteady (L.steady self.now.layout.now) (L.tops self.now.layout.now) (L.contents self.now.layout.now)
            (λ tops contents. IsTrue right ↔ HasMarker self.now.options.now.limit tops)) }
    {
        let marker = read_top(
            self.layout,
            self.alloc,
            "oci-layout",
            self.options.limit,
            buffer,
        )?;
        let Marked { report, is_right } = marker_report(marker, self.alloc)?;
        output.add("oci-layout", &report)?;
        Ok(is_right)
    }

    /// The same, from the bytes of `index.json` on.
    fn verify_index<W: Write, E: Write>(
        &self,
        index: &[u8],
        buffer: &mut [u8],
        output: &mut Output<'_, W, E>,
    ) -> Result<bool>
        requires { 0 < length buffer.old }
        ensures { IfOk result (IsJudgedIndex (B.rules self.now.books.now) self.now.options.now (L.steady self.now.layout.now) (L.names self.now.layout.now) (L.contents self.now.layout.now) index.now) }
    {
        output.progress = self.totals(index, buffer)?;
        let Seen {
            fault,
            claims,
            detail,
        } = read_document(self.alloc, Kind::Index, index)?;
        self.report_index(fault, &detail, output)?;
        self.verify_claims(index, fault, claims, buffer, output)
    }

    /// Reports what stands against `index.json` itself.
    fn report_index<W: Write, E: Write>(
        &self,
        fault: Option<Fault>,
        detail: &Detail,
        output: &mut Output<'_, W, E>,
    ) -> Result<()> {
        let found = document_findings(Kind::Index, fault, detail, self.alloc)?;
        let report = Report::of_file(found, &detail.text, Claims::none(self.alloc), self.alloc)?;
        output.add("index.json", &report)
    }

    /// The same, from what was found in `index.json` and the first claims on.
    fn verify_claims<W: Write, E: Write>(
        &self,
        index: &[u8],
        fault: Option<Fault>,
        first: Vec<Claim>,
        buffer: &mut [u8],
        output: &mut Output<'_, W, E>,
    ) -> Result<bool>
        requires { 0 < length buffer.old }
        ensures { IfOk result (IsJudged (B.rules self.now.books.now) self.now.options.now (L.steady self.now.layout.now) (L.names self.now.layout.now) (L.contents self.now.layout.now) index.now fault first.items) }
    {
        let shown = Layout {
            store: self.layout,
            limit: self.options.limit,
            quick: self.options.quick,
        };
        let walk = self.look_at_all(&shown, first, buffer, output)?;
        output.report_progress()?;
        let pass = self.documents_pass(index, fault, &walk, buffer, output)?;
        let agree = images_agree(self.layout, self.options, index, &walk, buffer, output)?;
        let listed = self.layout.list(self.alloc)?;
        let reached = paths_of(&walk, self.alloc)?;
        self.report_unreferenced(listed.as_slice(), &reached, output)?;
        output.finish(&totals_of(&walk, self.options.quick))?;
        let is_right = self.is_right(fault, &walk, listed.as_slice(), &reached);
        Ok(are_both(is_right, are_both(agree, pass)))
    }

    /// Reports what `check` finds in the documents against which nothing stands, and returns whether they pass.
    fn documents_pass<W: Write, E: Write>(
        &self,
        index: &[u8],
        fault: Option<Fault>,
        walk: &Walk,
        buffer: &mut [u8],
        output: &mut Output<'_, W, E>,
    ) -> Result<bool>
        requires { 0 < length buffer.old }
        ensures { IfOk result (λ pass. OverContents (L.steady self.now.layout.now) (L.contents self.now.layout.now)
            (λ contents. IsTrue pass ↔ FoundPassing (B.rules self.now.books.now) self.now.options.now.check self.now.options.now.limit contents index.now fault walk.now.claims.items walk.now.faults.items)) }
    {
        let examination = Examination {
            books: self.books,
            asked: &self.options.check,
            documents: Documents {
                store: self.layout,
                limit: self.options.limit,
                alloc: self.alloc,
            },
            walk,
        };
        examination.all_pass(index, fault, buffer, output)
    }

    /// Whether nothing that was found stands against the layout; where notes count, whether nothing is worth one.
    fn is_right(
        &self,
        fault: Option<Fault>,
        walk: &Walk,
        listed: &[Listed],
        reached: &BTreeSet<String>,
    ) -> bool
        requires { ArePathsOf walk.now.claims.items (contains_text reached.now) }
        ensures { IsTrue result ↔ IsFoundRight self.now.options.now.check.strict fault walk.now.claims.items walk.now.faults.items listed.now }
    {
        if !is_sound_walk(fault, walk) {
            return false;
        }
        if !are_whole(listed) {
            return false;
        }
        self.is_quiet(walk, listed, reached)
    }

    /// Whether nothing is worth a note, where notes count.
    fn is_quiet(&self, walk: &Walk, listed: &[Listed], reached: &BTreeSet<String>) -> bool
        requires { ArePathsOf walk.now.claims.items (contains_text reached.now) }
        ensures { IsTrue result ↔ (self.now.options.now.check.strict ≡ true → IsQuiet walk.now.claims.items walk.now.faults.items listed.now) }
    {
        let is_strict = self.options.check.strict;
        if !is_strict {
            return true;
        }
        are_both(
            are_found(walk.faults.as_slice()),
            are_known(walk, listed, reached),
        )
    }

    /// Looks at all claims that are reached from the first ones, and reports what is found at each as it is found.
    fn look_at_all<S: Shown, W: Write, E: Write>(
        &self,
        shown: &S,
        first: Vec<Claim>,
        buffer: &mut [u8],
        output: &mut Output<'_, W, E>,
    ) -> Result<Walk>
        requires { 0 < length buffer.old }
        ensures { IfOk result (λ w. IsWalk (S.shows shown.now) first.items w.claims.items w.faults.items) }
    {
        let mut walk = Walk::begin(self.alloc, first)?;
        'looks: while walk.step(shown, self.alloc, buffer)? {
            let place = walk.faults.len() - 1;
            self.report_place(&walk, place, output)?;
            walk.drop_text();
        }
        Ok(walk)
    }

    /// Reports what was found at a claim.
    fn report_place<W: Write, E: Write>(
        &self,
        walk: &Walk,
        place: usize,
        output: &mut Output<'_, W, E>,
    ) -> Result<()> {
        let Some(claim) = walk.claims.get(place) else {
            return Ok(());
        };
        let report = content_report(walk, place, self.alloc)?;
        let path = blob_path(self.alloc, &claim.digest)?;
        output.add(path.as_str(), &report)?;
        output.count(claim.size, self.watch.seconds())
    }

    /// Reports what lies in the layout, and nothing that is reached refers to it.
    fn report_unreferenced<W: Write, E: Write>(
        &self,
        listed: &[Listed],
        reached: &BTreeSet<String>,
        output: &mut Output<'_, W, E>,
    ) -> Result<()> {
        for one in listed {
            if let Some(finding) = listed_finding(one, reached, self.alloc)? {
                output.add_finding(one.path.as_str(), finding)?;
            }
        }
        Ok(())
    }

    /// How many contents will be looked at, and their bytes: by a quick walk, where progress is asked for.
    fn totals(&self, index: &[u8], buffer: &mut [u8]) -> Result<Option<Progress>>
        requires { 0 < length buffer.old }
    {
        if !self.options.progress {
            return Ok(None);
        }
        let seen = read_document(self.alloc, Kind::Index, index)?;
        let shown = Layout {
            store: self.layout,
            limit: self.options.limit,
            quick: true,
        };
        let walk = walk_all(&shown, self.alloc, seen.claims, buffer)?;
        let totals = totals_of(&walk, true);
        Ok(Some(Progress::of(totals.claims, totals.bytes)))
    }
}

/// Whether each name is one of these paths, and the content of each claim is looked into.
fn are_known(walk: &Walk, listed: &[Listed], reached: &BTreeSet<String>) -> bool
    ensures { IsTrue result ↔ AreKnown walk.now.claims.items listed.now (contains_text reached.now) }
{
    let claims = walk.claims.as_slice();
    are_both(are_reached(listed, reached), are_read(claims))
}

/// Whether both are so.
pub(crate) fn are_both(first: bool, second: bool) -> bool
    ensures { IsTrue result ↔ (IsTrue first × IsTrue second) }
{
    first && second
}

/// How much is claimed, and how much of that was verified. A quick look verifies documents alone.
fn totals_of(walk: &Walk, is_quick: bool) -> Totals {
    let mut totals = Totals::none();
    for (claim, fault) in walk.claims.iter().zip(walk.faults.iter()) {
        totals.count(claim.size);
        let is_document = claim.kind.schema().is_some();
        if fault.is_none() && (is_document || !is_quick) {
            totals.count_verified(claim.size, is_document);
        }
    }
    totals
}
