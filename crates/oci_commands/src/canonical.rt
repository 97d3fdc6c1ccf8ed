//! The command `fmt`.
ghost use Rattle.std.specs.Prelude.{◌≡◌, ◌≢◌, ◌⊎◌, true, false, Some, None, IsSome, IfOk, IfErr, IfSome};
ghost use Rattle.std.specs.Io.KnownBytes.{Appends, Keeps};
ghost use Rattle.oci_findings.specs.Checks.{IsKindIn};
ghost use Rattle.oci_findings.specs.Forms.{IsForm};
ghost use Rattle.oci_commands.specs.Formats.{Formats, FormatsAs, FormatsBy, FormatsTo, HasNoForm, HoldsPut, IsSerDe, IsUnformatted, IsUnformattedAs, KeepsAll, LosesNothing, WouldChangeKind, WouldLose};
ghost use Rattle.oci_commands.specs.Done.{IsStatus};

use crate::asked::Format;
use crate::contents::digest_line;
use crate::document_texts::{canonical_text, has_unknown, kept_text};
use crate::files::Files;
use crate::left_out::{not_in, say_left_out};
use crate::lost::{lost, why_not};
use crate::same_kind::{is_kind, kind_in, say_other_kind};
use crate::texts::{complain, complain_of, is_wrong, report_findings};
use oci_base::{OciSpecError, Result};
use oci_content::Algorithm;
use oci_findings::inspect::kind_of;
use oci_findings::left_out::{LeftOut, left_out_by_value};
use oci_findings::quick::{Found, Wanted, look_at};
use oci_json::write_text;
use oci_schema::bytes::Workspace;
use oci_schemas::Kind;
use serde_json::Value;
use std::alloc::Global;
use std::io::Write;

/// What is said of a file that is not its canonical form.
const NOT_CANONICAL: &str = "not canonical";

/// Writes the canonical form of a file, or compares the file with it. Returns 0 if that was done, 1 if the file holds no valid document
/// or is to be compared and is not canonical, and 3 if it could not be read or written.
#[tactic(auto, using(crate::proofs::Held::formats_held, crate::proofs::Held::held))]
pub fn format<S: Files, W: Write, E: Write>(
    asked: &Format<'_>,
    alloc: Global,
    store: &mut S,
    writer: &mut W,
    errors: &mut E,
) -> Result<u8>
    ensures status { IfOk result IsStatus }
    ensures untouched { asked.now.check ≡ true → Keeps (W.contents writer.old) (W.contents writer.new) × (S.holds store.new ≡ S.holds store.old) }
    ensures canonical { IfOk result (λ s. s ≡ 0 → asked.now.check ≡ true → IfSome (S.holds store.old asked.now.file.now) (λ bytes. Formats asked.now (Some bytes) (λ t. t ≡ bytes))) }
    ensures written { IfOk result (λ s. s ≡ 0 → asked.now.check ≡ false → asked.now.output ≡ None → Formats asked.now (S.holds store.old asked.now.file.now) (Appends (W.contents writer.old) (W.contents writer.new))) }
    ensures put { IfOk result (λ s. s ≡ 0 → asked.now.check ≡ false → HoldsPut (S.holds store.new) asked.now.output (FormatsTo asked.now (S.holds store.old asked.now.file.now))) }
    ensures kept { IfOk result (λ s. s ≡ 0 → asked.now.check ≡ false → IsSome asked.now.output → asked.now.drop_unknown ≡ false → IfSome (S.holds store.old asked.now.file.now) (LosesNothing asked.now)) }
    ensures refused { IfOk result (λ s. s ≡ 1 → IfSome (S.holds store.old asked.now.file.now) (IsUnformatted asked.now)) }
{
    match store.read(alloc, asked.file) {
        Ok(bytes) => {
            let formatting = Formatting {
                asked,
                bytes: bytes.as_slice(),
                alloc,
            };
            formatting.format(store, writer, errors)
        }
        Err(fault) => {
            complain_of(asked.file, &fault, alloc, errors);
            Ok(3)
        }
    }
}

/// What is formatted, and how.
struct Formatting<'a> {
    asked: &'a Format<'a>,
    /// The bytes of the file.
    bytes: &'a [u8],
    alloc: Global,
}

impl<'a> Drop for Formatting<'a> {
    fn drop(self) {
        let Formatting {
            asked,
            bytes,
            alloc,
        } = self;
    }
}

impl<'a> Formatting<'a> {
    /// Puts the canonical form where it belongs, or compares it with the file.
    fn format<S: Files, W: Write, E: Write>(
        &self,
        store: &mut S,
        writer: &mut W,
        errors: &mut E,
    ) -> Result<u8>
        requires held { IfSome (S.holds store.old self.now.asked.now.file.now) (λ b. b ≡ self.now.bytes.now) }
        ensures status { IfOk result IsStatus }
        ensures untouched { self.now.asked.now.check ≡ true → Keeps (W.contents writer.old) (W.contents writer.new) × (S.holds store.new ≡ S.holds store.old) }
        ensures canonical { IfOk result (λ s. s ≡ 0 → self.now.asked.now.check ≡ true → Formats self.now.asked.now (Some self.now.bytes.now) (λ t. t ≡ self.now.bytes.now)) }
        ensures written { IfOk result (λ s. s ≡ 0 → self.now.asked.now.check ≡ false → self.now.asked.now.output ≡ None → Formats self.now.asked.now (Some self.now.bytes.now) (Appends (W.contents writer.old) (W.contents writer.new))) }
        ensures put { IfOk result (λ s. s ≡ 0 → self.now.asked.now.check ≡ false → HoldsPut (S.holds store.new) self.now.asked.now.output (FormatsTo self.now.asked.now (Some self.now.bytes.now))) }
        ensures kept { IfOk result (λ s. s ≡ 0 → self.now.asked.now.check ≡ false → IsSome self.now.asked.now.output → self.now.asked.now.drop_unknown ≡ false → LosesNothing self.now.asked.now self.now.bytes.now) }
        ensures refused { IfOk result (λ s. s ≡ 1 → IsUnformatted self.now.asked.now self.now.bytes.now) }
    {
        let mut workspace = Workspace::new(self.alloc);
        match self.found_kind(&mut workspace, errors)? {
            Some(found) => self.format_as(found, &mut workspace, store, writer, errors),
            None => Ok(1),
        }
    }

    /// The kind of the document, the members that its canonical form lacks and that form, if they were found out; `None` if it holds no
    /// valid document, which is said on standard error.
    fn found_kind<E: Write>(
        &self,
        workspace: &mut Workspace,
        errors: &mut E,
    ) -> Result<Option<Found>>
        ensures found { IfOk result (λ o. IfSome o (λ f. IsKindIn self.now.asked.now.kind self.now.asked.now.file.now (Some self.now.bytes.now) f.kind)) }
        ensures text { IfOk result (λ o. IfSome o (λ f. IfSome f.text (λ t. IsForm self.now.asked.now.pretty f.kind self.now.bytes.now t.items))) }
        ensures none { IfOk result (λ o. o ≡ None → IsUnformatted self.now.asked.now self.now.bytes.now) }
    {
        let asked = self.asked;
        let wanted = Wanted {
            left_out: !asked.quiet,
            pretty: asked.pretty,
        };
        let found = look_at(
            asked.kind, asked.file, self.bytes, wanted, workspace, self.alloc,
        );
        if let Some(found) = found {
            return Ok(Some(found));
        }
        self.kind_by_value(errors)
    }

    /// The same by way of a value.
    fn kind_by_value<E: Write>(&self, errors: &mut E) -> Result<Option<Found>>
        ensures found { IfOk result (λ o. IfSome o (λ f. IsKindIn self.now.asked.now.kind self.now.asked.now.file.now (Some self.now.bytes.now) f.kind)) }
        ensures text { IfOk result (λ o. IfSome o (λ f. f.text ≡ None)) }
        ensures none { IfOk result (λ o. o ≡ None → IsUnformatted self.now.asked.now self.now.bytes.now) }
    {
        let asked = self.asked;
        let wrong = is_wrong(asked.kind, asked.file, self.bytes, self.alloc, errors)?;
        if wrong {
            return Ok(None);
        }
        let value = Value::from_slice(self.alloc, self.bytes)?;
        match kind_of(asked.kind, asked.file, &value) {
            Some(kind) => Ok(Some(Found {
                kind,
                left_out: None,
                text: None,
            })),
            None => Ok(None),
        }
    }

    /// Formats a document of this kind.
    fn format_as<S: Files, W: Write, E: Write>(
        &self,
        found: Found,
        workspace: &mut Workspace,
        store: &mut S,
        writer: &mut W,
        errors: &mut E,
    ) -> Result<u8>
        requires form { IfSome found.text (λ t. IsForm self.now.asked.now.pretty found.kind self.now.bytes.now t.items) }
        requires held { IfSome (S.holds store.old self.now.asked.now.file.now) (λ b. b ≡ self.now.bytes.now) }
        ensures status { IfOk result IsStatus }
        ensures untouched { self.now.asked.now.check ≡ true → Keeps (W.contents writer.old) (W.contents writer.new) × (S.holds store.new ≡ S.holds store.old) }
        ensures canonical { IfOk result (λ s. s ≡ 0 → self.now.asked.now.check ≡ true → FormatsBy self.now.asked.now.keep_unknown found.kind self.now.asked.now.pretty (Some self.now.bytes.now) (λ t. t ≡ self.now.bytes.now)) }
        ensures written { IfOk result (λ s. s ≡ 0 → self.now.asked.now.check ≡ false → self.now.asked.now.output ≡ None → FormatsBy self.now.asked.now.keep_unknown found.kind self.now.asked.now.pretty (Some self.now.bytes.now) (Appends (W.contents writer.old) (W.contents writer.new))) }
        ensures put { IfOk result (λ s. s ≡ 0 → self.now.asked.now.check ≡ false → HoldsPut (S.holds store.new) self.now.asked.now.output (λ b. IsKindIn self.now.asked.now.kind self.now.asked.now.file.now (Some b) found.kind × FormatsBy self.now.asked.now.keep_unknown found.kind self.now.asked.now.pretty (Some self.now.bytes.now) (λ t. t ≡ b))) }
        ensures kept { IfOk result (λ s. s ≡ 0 → self.now.asked.now.check ≡ false → IsSome self.now.asked.now.output → self.now.asked.now.drop_unknown ≡ false → KeepsAll self.now.asked.now.keep_unknown found.kind self.now.bytes.now) }
        ensures refused { IfOk result (λ s. s ≡ 1 → IsUnformattedAs found.kind self.now.asked.now self.now.bytes.now) }
    {
        let Found {
            kind,
            left_out,
            text,
        } = found;
        match self.text_to_write(kind, text, workspace) {
            Ok(text) => self.finish(kind, left_out, text.as_slice(), store, writer, errors),
            Err(OciSpecError::SerDe(_)) => {
                self.say_no_form(kind, errors)?;
                Ok(1)
            }
            Err(error) => Err(error),
        }
    }

    /// The text that is to be written: with unknown members, where they are kept and there are some, or else the canonical form.
    fn text_to_write(
        &self,
        kind: Kind,
        found: Option<Vec<u8>>,
        workspace: &mut Workspace,
    ) -> Result<Vec<u8>>
        requires { IfSome found (λ t. IsForm self.now.asked.now.pretty kind self.now.bytes.now t.items) }
        ensures ok { IfOk result (λ v. FormatsBy self.now.asked.now.keep_unknown kind self.now.asked.now.pretty (Some self.now.bytes.now) (λ t. t ≡ v.items)) }
        ensures none { IfErr result (λ e. IsSerDe e → HasNoForm kind self.now.bytes.now) }
    {
        if !self.asked.keep_unknown {
            return self.canonical_form(kind, found, workspace);
        }
        let unknown = has_unknown(kind, self.bytes, self.alloc)?;
        if unknown {
            kept_text(kind, self.asked.pretty, self.bytes, self.alloc)
        } else {
            self.canonical_form(kind, found, workspace)
        }
    }

    /// The canonical form that was found out, or else by its own call.
    fn canonical_form(
        &self,
        kind: Kind,
        found: Option<Vec<u8>>,
        workspace: &mut Workspace,
    ) -> Result<Vec<u8>>
        requires { IfSome found (λ t. IsForm self.now.asked.now.pretty kind self.now.bytes.now t.items) }
        ensures ok { IfOk result (λ v. FormatsAs kind self.now.asked.now.pretty (Some self.now.bytes.now) (λ t. t ≡ v.items)) }
        ensures none { IfErr result (λ e. IsSerDe e → HasNoForm kind self.now.bytes.now) }
    {
        match found {
            Some(text) => Ok(text),
            None => canonical_text(kind, self.asked.pretty, self.bytes, workspace, self.alloc),
        }
    }

    /// Says why there is no canonical form.
    fn say_no_form<E: Write>(&self, kind: Kind, errors: &mut E) -> Result<()> {
        if !is_wrong(Some(kind), self.asked.file, self.bytes, self.alloc, errors)? {
            complain(
                "ciderglen: there is no canonical form: a detail nests too deep\n",
                errors,
            );
        }
        Ok(())
    }

    /// Puts the text where it belongs, if no member is lost unasked.
    fn finish<S: Files, W: Write, E: Write>(
        &self,
        kind: Kind,
        left_out: Option<Vec<LeftOut>>,
        text: &[u8],
        store: &mut S,
        writer: &mut W,
        errors: &mut E,
    ) -> Result<u8>
        requires held { IfSome (S.holds store.old self.now.asked.now.file.now) (λ b. b ≡ self.now.bytes.now) }
        ensures status { IfOk result IsStatus }
        ensures untouched { self.now.asked.now.check ≡ true → Keeps (W.contents writer.old) (W.contents writer.new) × (S.holds store.new ≡ S.holds store.old) }
        ensures same { IfOk result (λ s. s ≡ 0 → self.now.asked.now.check ≡ true → text.now ≡ self.now.bytes.now) }
        ensures written { IfOk result (λ s. s ≡ 0 → self.now.asked.now.check ≡ false → self.now.asked.now.output ≡ None → Appends (W.contents writer.old) (W.contents writer.new) text.now) }
        ensures put { IfOk result (λ s. s ≡ 0 → self.now.asked.now.check ≡ false → HoldsPut (S.holds store.new) self.now.asked.now.output (λ b. IsKindIn self.now.asked.now.kind self.now.asked.now.file.now (Some b) kind × (b ≡ text.now))) }
        ensures kept { IfOk result (λ s. s ≡ 0 → self.now.asked.now.check ≡ false → IsSome self.now.asked.now.output → self.now.asked.now.drop_unknown ≡ false → KeepsAll self.now.asked.now.keep_unknown kind self.now.bytes.now) }
        ensures refused { IfOk result (λ s. s ≡ 1 → WouldLose kind self.now.asked.now self.now.bytes.now ⊎ (WouldChangeKind kind self.now.asked.now text.now ⊎ ((self.now.asked.now.check ≡ true) × (text.now ≢ self.now.bytes.now)))) }
    {
        let loses = self.would_lose(kind, errors)?;
        if loses {
            return Ok(1);
        }
        let changes = self.would_change_kind(kind, text, errors)?;
        if changes {
            return Ok(1);
        }
        self.say_what_changes(kind, left_out, text, errors)?;
        self.put(text, store, writer, errors)
    }

    /// Whether a file would be written that is found to be of another kind, or of none; that is said on standard error, also of what is
    /// written elsewhere.
    fn would_change_kind<E: Write>(&self, kind: Kind, text: &[u8], errors: &mut E) -> Result<bool>
        ensures changed { IfOk result (λ b. b ≡ true → WouldChangeKind kind self.now.asked.now text.now) }
        ensures same { IfOk result (λ b. b ≡ false → self.now.asked.now.check ≡ false → IsSome self.now.asked.now.output → IsKindIn self.now.asked.now.kind self.now.asked.now.file.now (Some text.now) kind) }
    {
        let asked = self.asked;
        if asked.check {
            return Ok(false);
        }
        let other = kind_in(asked.kind, asked.file, text, self.alloc)?;
        if is_kind(other, kind) {
            return Ok(false);
        }
        say_other_kind(asked, kind, other, self.alloc, errors)?;
        Ok(asked.output.is_some())
    }

    /// Whether members would be left out of a file unasked, which is said on standard error.
    fn would_lose<E: Write>(&self, kind: Kind, errors: &mut E) -> Result<bool>
        ensures lost { IfOk result (λ b. b ≡ true → WouldLose kind self.now.asked.now self.now.bytes.now) }
        ensures kept { IfOk result (λ b. b ≡ false → self.now.asked.now.check ≡ false → IsSome self.now.asked.now.output → self.now.asked.now.drop_unknown ≡ false → KeepsAll self.now.asked.now.keep_unknown kind self.now.bytes.now) }
    {
        let Some(output) = self.asked.output else {
            return Ok(false);
        };
        if self.asked.check || self.asked.drop_unknown {
            return Ok(false);
        }
        let value = Value::from_slice(self.alloc, self.bytes)?;
        let keep = self.asked.keep_unknown;
        let found = lost(keep, kind, &value, self.bytes, self.alloc)?;
        if found.errors.is_empty() {
            return Ok(false);
        }
        report_findings(self.asked.file, &found, self.alloc, errors)?;
        complain_of(output, &why_not(keep), self.alloc, errors);
        Ok(true)
    }

    /// Says which members are left out, renamed or repeated, and the digests before and after, where that is asked for.
    fn say_what_changes<E: Write>(
        &self,
        kind: Kind,
        left_out: Option<Vec<LeftOut>>,
        text: &[u8],
        errors: &mut E,
    ) -> Result<()> {
        if !self.asked.quiet {
            self.say_members(kind, left_out, text, errors)?;
        }
        if self.asked.verbose {
            self.say_digest("before: ", self.bytes, errors)?;
            self.say_digest("after:  ", text, errors)?;
        }
        Ok(())
    }

    /// Says which members are left out, renamed or repeated: those that were found out, or else by way of a value. Of those that are kept
    /// nothing is said.
    fn say_members<E: Write>(
        &self,
        kind: Kind,
        left_out: Option<Vec<LeftOut>>,
        text: &[u8],
        errors: &mut E,
    ) -> Result<()> {
        let found = match left_out {
            Some(found) => found,
            None => left_out_by_value(kind, self.bytes, self.alloc)?,
        };
        if self.asked.keep_unknown {
            let written = Value::from_slice(self.alloc, text)?;
            return say_left_out(&not_in(&written, found, self.alloc)?, self.alloc, errors);
        }
        say_left_out(&found, self.alloc, errors)
    }

    /// Says the digest of the file before or after.
    fn say_digest<E: Write>(&self, when: &str, bytes: &[u8], errors: &mut E) -> Result<()> {
        complain(when, errors);
        let line = digest_line(Algorithm::Sha256, self.asked.file, bytes, self.alloc)?;
        complain(line.as_str(), errors);
        Ok(())
    }

    /// Compares the file with the text, and says on standard error that it is another one. Returns the status.
    fn compare<E: Write>(&self, text: &[u8], errors: &mut E) -> u8
        ensures status { IsStatus result }
        ensures same { result ≡ 0 → text.now ≡ self.now.bytes.now }
        ensures differs { result ≡ 1 → text.now ≢ self.now.bytes.now }
    {
        if text == self.bytes {
            return 0;
        }
        if !self.asked.quiet {
            complain_of(self.asked.file, &NOT_CANONICAL, self.alloc, errors);
        }
        1
    }

    /// Writes the text where it belongs, or compares it.
    fn put<S: Files, W: Write, E: Write>(
        &self,
        text: &[u8],
        store: &mut S,
        writer: &mut W,
        errors: &mut E,
    ) -> Result<u8>
        requires held { IfSome (S.holds store.old self.now.asked.now.file.now) (λ b. b ≡ self.now.bytes.now) }
        ensures status { IfOk result IsStatus }
        ensures untouched { self.now.asked.now.check ≡ true → Keeps (W.contents writer.old) (W.contents writer.new) × (S.holds store.new ≡ S.holds store.old) }
        ensures same { IfOk result (λ s. s ≡ 0 → self.now.asked.now.check ≡ true → text.now ≡ self.now.bytes.now) }
        ensures written { IfOk result (λ s. s ≡ 0 → self.now.asked.now.check ≡ false → self.now.asked.now.output ≡ None → Appends (W.contents writer.old) (W.contents writer.new) (text.now)) }
        ensures put { IfOk result (λ s. s ≡ 0 → self.now.asked.now.check ≡ false → HoldsPut (S.holds store.new) self.now.asked.now.output (λ b. b ≡ text.now)) }
        ensures differs { IfOk result (λ s. s ≡ 1 → (self.now.asked.now.check ≡ true) × (text.now ≢ self.now.bytes.now)) }
    {
        if self.asked.check {
            return Ok(self.compare(text, errors));
        }
        let Some(output) = self.asked.output else {
            write_text(text, writer)?;
            return Ok(0);
        };
        if output == self.asked.file && text == self.bytes {
            return Ok(0);
        }
        match store.replace(self.alloc, output, text) {
            Ok(()) => Ok(0),
            Err(fault) => {
                complain_of(output, &fault, self.alloc, errors);
                Ok(3)
            }
        }
    }
}
