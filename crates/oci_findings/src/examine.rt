//! What is wrong with the bytes of a document, beside its schema too: rules, and members that the schema does not list.
ghost use Rattle.std.specs.Prelude.{◌≡◌, ◌↔◌, ◌++◌, ◌+◌, ◌∷◌, [], Some, map, length, true, false, IfOk, IsUtf8, OnOk};
ghost use Rattle.std.specs.List.{filter, flat_map};
ghost use Rattle.serde_json.specs.View.{view};
ghost use Rattle.oci_schemas.specs.Kinds.{shape_of};
ghost use Rattle.oci_schema.specs.Unknown.{unknown as all_unknown};
ghost use Rattle.oci_rules.specs.Listed.{all_broken};
ghost use Rattle.oci_rules.specs.Tables.{platform_of, rule_of, told as broken_told};
ghost use Rattle.oci_findings.specs.Asked.{is_for};
ghost use Rattle.oci_findings.specs.Findings.{breach};
ghost use Rattle.oci_findings.specs.Checks.{AllKept, HasKeysOnce, HasShape, IsPassedOver, IsRight, IsRightValue, IsWrong, asked_rules, platform_asked, is_error as makes_wrong, counted, denied, rules_for, rules_if};

use crate::asked::{Book, Check, Unknown};
use crate::inspect::{Reading, faulty, kind_of, read_value, schema_errors};
use crate::levels::{binds, is_error, is_heard};
use crate::quick::is_right;
use crate::repeated::{key_errors, repeated_findings, repeated_if_any, warn_of_repeated};
use crate::rulebooks::RuleBooks;
use crate::shown::{name_at, shown_at};
use crate::{Cause, Finding, Report, Severity};
use json::Error;
use oci_rules::{Broken, Rule, RuntimePlatform, Step, broken, platform_of_document};
use oci_schema::bytes::Workspace;
use oci_schema::{UnknownMember, suggestion, unknown_members};
use oci_schemas::{Kind, OciRecords};
use serde_json::Value;
use std::alloc::{AllocError, Global};

/// What is wrong with the bytes of a document, by all that is asked. Fails if out of memory.
pub fn examine<'a, B: RuleBooks>(
    books: &B,
    asked: &Check<'a>,
    name: &str,
    bytes: &[u8],
    workspace: &mut Workspace,
    alloc: Global,
) -> Result<Report<'a>, AllocError>
    ensures right { IfOk result (λ r. r.errors.items ≡ [] → IsRight (B.rules books.now) asked.now name.now bytes.now) }
    ensures wrong { IfOk result (λ r. ¬ (r.errors.items ≡ []) → IsWrong (B.rules books.now) asked.now name.now bytes.now) }
{
    if is_right(asked, name, bytes, workspace, alloc) {
        return Report::new(Vec::new(alloc), Vec::new(alloc), bytes, alloc);
    }
    examine_read(books, asked, name, bytes, alloc)
}

/// The same by way of a value.
#[tactic(auto, using(crate::proofs::Allowed::passed_over, crate::proofs::Allowed::right_of, crate::proofs::Allowed::wrong_of, crate::proofs::Allowed::wrong_of_no_kind))]
fn examine_read<'a, B: RuleBooks>(
    books: &B,
    asked: &Check<'a>,
    name: &str,
    bytes: &[u8],
    alloc: Global,
) -> Result<Report<'a>, AllocError>
    ensures right { IfOk result (λ r. r.errors.items ≡ [] → IsRight (B.rules books.now) asked.now name.now bytes.now) }
    ensures wrong { IfOk result (λ r. ¬ (r.errors.items ≡ []) → IsWrong (B.rules books.now) asked.now name.now bytes.now) }
{
    match read_value(asked.kind, name, bytes, alloc)? {
        Reading::Value(kind, value) => {
            let examination = Examination {
                books,
                asked,
                kind,
                alloc,
            };
            examination.report(name, &value, bytes)
        }
        Reading::Fault(fault) => {
            if is_passed_over(asked, name, bytes, alloc)? {
                return Report::new(Vec::new(alloc), Vec::new(alloc), bytes, alloc);
            }
            faulty(fault, alloc)
        }
    }
}

/// Whether nothing is said of bytes since no kind of documents is found of them.
#[tactic(auto, using(crate::proofs::Allowed::open_read, crate::proofs::Allowed::not_open_of_kind, crate::proofs::Allowed::not_open_of_no_json, crate::proofs::Allowed::not_asked_to))]
fn is_passed_over(
    asked: &Check<'_>,
    name: &str,
    bytes: &[u8],
    alloc: Global,
) -> Result<bool, AllocError>
    ensures yes { IfOk result (λ b. b ≡ true → IsPassedOver asked.now name.now bytes.now) }
    ensures no { IfOk result (λ b. b ≡ false → ¬ IsPassedOver asked.now name.now bytes.now) }
{
    if !asked.skip_unknown {
        return Ok(false);
    }
    match Value::from_slice(alloc, bytes) {
        Ok(value) => match kind_of(asked.kind, name, &value) {
            Some(_) => Ok(false),
            None => Ok(true),
        },
        Err(fault) if fault.is_memory() => Err(AllocError),
        Err(_) => Ok(false),
    }
}

/// What values of a kind are examined for.
struct Examination<'e, 'a, B> {
    books: &'e B,
    asked: &'e Check<'a>,
    kind: Kind,
    alloc: Global,
}

impl<'e, 'a, B> Drop for Examination<'e, 'a, B> {
    fn drop(self) {
        let Examination {
            books,
            asked,
            kind,
            alloc,
        } = self;
    }
}

impl<'e, 'a, B: RuleBooks> Examination<'e, 'a, B> {
    /// The report on a value that was read from these bytes.
    fn report(&self, name: &str, value: &Value, bytes: &[u8]) -> Result<Report<'a>, AllocError>
        ensures { IfOk result (λ r. IsUtf8 bytes.now → (r.errors.items ≡ []) ↔ (IsRightValue (B.rules self.now.books.now) self.now.asked.now self.now.kind (view value.now) × HasKeysOnce self.now.asked.now self.now.kind bytes.now)) }
    {
        let mut warnings = warnings_of(self.asked, self.kind, value, self.alloc)?;
        let of_value = self.errors(name, value, &mut warnings)?;
        let repeated = repeated_if_any(bytes, self.alloc)?;
        let of_keys = key_errors(self.asked, self.kind, &repeated, self.alloc)?;
        warn_of_repeated(self.asked, self.kind, &repeated, &mut warnings, self.alloc)?;
        let errors = joined(of_value, of_keys)?;
        Report::new(errors, warnings, bytes, self.alloc)
    }

    /// What is wrong with a value. Broken rules that do not bind are warned of.
    fn errors(
        &self,
        name: &str,
        value: &Value,
        warnings: &mut Vec<Finding<'a>>,
    ) -> Result<Vec<Finding<'a>>, AllocError>
        ensures { IfOk result (λ v. (v.items ≡ []) ↔ IsRightValue (B.rules self.now.books.now) self.now.asked.now self.now.kind (view value.now)) }
    {
        let of_schema = self.errors_by_schema(name, value)?;
        let of_asked = self.errors_asked(value, warnings)?;
        joined(of_schema, of_asked)
    }

    /// What the schema does not allow, unless that is ignored.
    #[tactic(auto, using(crate::proofs::Allowed::shape_ignored, crate::proofs::Allowed::shape_asked))]
    fn errors_by_schema(&self, name: &str, value: &Value) -> Result<Vec<Finding<'a>>, AllocError>
        ensures { IfOk result (λ v. (v.items ≡ []) ↔ HasShape self.now.asked.now self.now.kind (view value.now)) }
    {
        if self.asked.ignores("schema") {
            return Ok(Vec::new(self.alloc));
        }
        let found = schema_errors(self.kind, name, value, self.alloc)?;
        Ok(found)
    }

    /// What is wrong with a value beside its schema.
    fn errors_asked(
        &self,
        value: &Value,
        warnings: &mut Vec<Finding<'a>>,
    ) -> Result<Vec<Finding<'a>>, AllocError>
        ensures { IfOk result (λ v. (v.items ≡ []) ↔ ((counted (B.rules self.now.books.now) self.now.asked.now self.now.kind (view value.now) ≡ []) × (denied self.now.asked.now self.now.kind (view value.now) ≡ []))) }
    {
        let of_rules = self.rule_findings(value, warnings)?;
        let of_members = denied_findings(self.asked, self.kind, value, self.alloc)?;
        joined(of_rules, of_members)
    }

    /// What is wrong with a value by the rules that are asked for.
    fn rule_findings(
        &self,
        value: &Value,
        warnings: &mut Vec<Finding<'a>>,
    ) -> Result<Vec<Finding<'a>>, AllocError>
        ensures { IfOk result (λ v. map breach v.items ≡ map Some (counted (B.rules self.now.books.now) self.now.asked.now self.now.kind (view value.now))) }
    {
        let listed = self.asked_books()?;
        let platform = platform_for(self.asked.platform, value);
        findings_by(&listed, self.asked, platform, value, warnings, self.alloc)
    }

    /// The books that are asked for: those of the kind, and the policy's.
    fn asked_books(&self) -> Result<Vec<&'a [Rule<'a>]>, AllocError>
        ensures { IfOk result (λ v. flat_map (λ b. map rule_of b.now) v.items ≡ asked_rules (B.rules self.now.books.now) self.now.asked.now self.now.kind) }
    {
        let mut found = books_if(self.books, self.asked.rules, self.kind, self.alloc)?;
        add_books(self.asked.policy, self.kind, &mut found)?;
        Ok(found)
    }
}

/// Adds the rules of the books for the kind.
#[tactic(auto, using(crate::proofs::Books::none_left))]
fn add_books<'a>(
    books: &'a [Book<'a>],
    kind: Kind,
    found: &mut Vec<&'a [Rule<'a>]>,
) -> Result<(), AllocError>
    ensures { OnOk result (flat_map (λ b. map rule_of b.now) found.new.items ≡ flat_map (λ b. map rule_of b.now) found.old.items ++ rules_for kind books.now) }
{
    for book in books {
        add_book(book, kind, found)?;
    }
    Ok(())
}

/// Adds the rules of the book, if it is for the kind.
#[tactic(auto, using(crate::proofs::Books::one_for, crate::proofs::Books::one_not_for))]
fn add_book<'a>(
    book: &Book<'a>,
    kind: Kind,
    found: &mut Vec<&'a [Rule<'a>]>,
) -> Result<(), AllocError>
    ensures { OnOk result (flat_map (λ b. map rule_of b.now) found.new.items ≡ flat_map (λ b. map rule_of b.now) found.old.items ++ rules_if (is_for book.now kind) (map rule_of book.now.rules.now)) }
{
    if book.is_for(kind) {
        found.push(book.rules)?;
    }
    Ok(())
}

/// Two lists, one behind the other.
fn joined<'a>(
    mut first: Vec<Finding<'a>>,
    mut second: Vec<Finding<'a>>,
) -> Result<Vec<Finding<'a>>, AllocError>
    ensures { IfOk result (λ v. v.items ≡ first.entry.items ++ second.entry.items) }
{
    first.append(&mut second)?;
    Ok(first)
}

/// What is wrong with a value by the rules of books.
fn findings_by<'a>(
    books: &Vec<&'a [Rule<'a>]>,
    asked: &Check<'_>,
    platform: RuntimePlatform,
    value: &Value,
    warnings: &mut Vec<Finding<'a>>,
    alloc: Global,
) -> Result<Vec<Finding<'a>>, AllocError>
    ensures { IfOk result (λ v. map breach v.items ≡ map Some (filter (λ x. makes_wrong asked.now x.0) (all_broken (flat_map (λ b. map rule_of b.now) books.now.items) (platform_of platform) (view value.now)))) }
{
    let mut found = Vec::new(alloc);
    for book in books {
        let listed = broken(book, platform, value, alloc)?;
        add_counted(&listed, asked, value, &mut found, warnings, alloc)?;
    }
    Ok(found)
}

/// The books of the kind, if they are asked for.
fn books_if<B: RuleBooks>(
    books: &B,
    asked: bool,
    kind: Kind,
    alloc: Global,
) -> Result<Vec<&'static [Rule<'static>]>, AllocError>
    ensures { IfOk result (λ v. flat_map (λ b. map rule_of b.now) v.items ≡ rules_if asked (B.rules books.now kind)) }
{
    if asked {
        books.books_of(kind, alloc)
    } else {
        Ok(Vec::new(alloc))
    }
}

/// The platform that is asked for, or the one that the document says.
fn platform_for(asked: Option<RuntimePlatform>, value: &Value) -> RuntimePlatform
    ensures { platform_of result ≡ platform_asked asked (view value.now) }
{
    match asked {
        Some(platform) => platform,
        None => platform_of_document(value),
    }
}

/// Adds those that make a document wrong to what was found, and those that are worth a warning to the warnings.
fn add_counted<'a>(
    listed: &Vec<Broken<'a>>,
    asked: &Check<'_>,
    value: &Value,
    found: &mut Vec<Finding<'a>>,
    warnings: &mut Vec<Finding<'a>>,
    alloc: Global,
) -> Result<(), AllocError>
    ensures { OnOk result (map breach found.new.items ≡ map breach found.old.items ++ map Some (filter (λ x. makes_wrong asked.now x.0) (map broken_told listed.now.items))) }
{
    for item in listed {
        if is_error(asked, item.rule) {
            add_rule_finding(item, value, found, alloc)?;
        } else {
            warn_if_heard(item, asked, value, warnings, alloc)?;
        }
    }
    Ok(())
}

/// Adds a warning, if something is said of the broken rule.
fn warn_if_heard<'a>(
    item: &Broken<'a>,
    asked: &Check<'_>,
    value: &Value,
    warnings: &mut Vec<Finding<'a>>,
    alloc: Global,
) -> Result<(), AllocError> {
    if is_heard(asked, item.rule) {
        add_rule_finding(item, value, warnings, alloc)?;
    }
    Ok(())
}

fn add_rule_finding<'a>(
    item: &Broken<'a>,
    value: &Value,
    found: &mut Vec<Finding<'a>>,
    alloc: Global,
) -> Result<(), AllocError>
    ensures { OnOk result (map breach found.new.items ≡ map breach found.old.items ++ Some (broken_told item.now) ∷ []) }
{
    let finding = rule_finding(item, value, alloc)?;
    found.push(finding)?;
    Ok(())
}

fn rule_finding<'a>(
    item: &Broken<'a>,
    value: &Value,
    alloc: Global,
) -> Result<Finding<'a>, AllocError>
    ensures { IfOk result (λ f. breach f ≡ Some (broken_told item.now)) }
{
    let pointer = item.pointer.as_str();
    let shown = shown_of(item.rule, value, pointer, alloc)?;
    Ok(Finding {
        pointer: String::from_str(alloc, pointer)?,
        cause: Cause::Rule(item.rule, shown),
        severity: Severity::warning_if(!binds(item.rule.level)),
    })
}

/// What is shown of the part that breaks a rule: the name of a member, where the rule is on names, and else the value at the pointer.
fn shown_of(
    rule: &Rule<'_>,
    value: &Value,
    pointer: &str,
    alloc: Global,
) -> Result<Option<String>, AllocError> {
    if is_on_names(rule) {
        name_at(pointer, alloc)
    } else {
        shown_at(value, pointer, alloc)
    }
}

/// Whether a rule asks something of the names of members.
fn is_on_names(rule: &Rule<'_>) -> bool {
    for step in rule.place {
        if matches!(step, Step::EachName) {
            return true;
        }
    }
    false
}

/// The members that the schema does not list, where they make a document wrong.
#[tactic(auto, using(crate::proofs::Allowed::all_denied, crate::proofs::Allowed::none_denied))]
fn denied_findings<'a>(
    asked: &Check<'_>,
    kind: Kind,
    value: &Value,
    alloc: Global,
) -> Result<Vec<Finding<'a>>, AllocError>
    ensures { IfOk result (λ v. length v.items ≡ length (denied asked.now kind (view value.now))) }
{
    if asked.denies() {
        let is_warning = matches!(asked.unknown, Unknown::Warn);
        let found = unknown_findings(kind, value, is_warning, alloc)?;
        return Ok(found);
    }
    Ok(Vec::new(alloc))
}

/// The members of a document, whose value was read from these bytes, that are not in its canonical form, as errors: those that the
/// schema of its kind does not list, and each whose name an earlier one of its object has, since the last one alone is kept. Fails if
/// out of memory, with `Invalid` if the bytes are not JSON, and with `TooLong` if they are 4 GiB or more.
pub fn lost_members(
    kind: Kind,
    value: &Value,
    bytes: &[u8],
    alloc: Global,
) -> Result<Report<'static>, Error>
    ensures { IfOk result (λ r. (r.errors.items ≡ []) ↔ AllKept kind (view value.now) bytes.now) }
{
    let errors = lost_findings(kind, value, bytes, alloc)?;
    let report = Report::new(errors, Vec::new(alloc), bytes, alloc)?;
    Ok(report)
}

fn lost_findings<'a>(
    kind: Kind,
    value: &Value,
    bytes: &[u8],
    alloc: Global,
) -> Result<Vec<Finding<'a>>, Error>
    ensures { IfOk result (λ v. (v.items ≡ []) ↔ AllKept kind (view value.now) bytes.now) }
{
    let unknown = unknown_findings(kind, value, false, alloc)?;
    let repeated = repeated_findings(bytes, false, alloc)?;
    let found = joined(unknown, repeated)?;
    Ok(found)
}

/// The members that the schema does not list, where they are worth a warning alone.
fn warnings_of<'a>(
    asked: &Check<'_>,
    kind: Kind,
    value: &Value,
    alloc: Global,
) -> Result<Vec<Finding<'a>>, AllocError> {
    let is_warned = matches!(asked.unknown, Unknown::Warn) && !asked.ignores("unknown");
    if is_warned && !asked.strict {
        unknown_findings(kind, value, true, alloc)
    } else {
        Ok(Vec::new(alloc))
    }
}

fn unknown_findings<'a>(
    kind: Kind,
    value: &Value,
    is_warning: bool,
    alloc: Global,
) -> Result<Vec<Finding<'a>>, AllocError>
    ensures { IfOk result (λ v. length v.items ≡ length (all_unknown (shape_of kind) [] (view value.now))) }
{
    let listed = unknown_members(&OciRecords, kind.schema(), value, alloc)?;
    findings_of(&listed, is_warning, alloc)
}

fn findings_of<'a>(
    listed: &Vec<UnknownMember>,
    is_warning: bool,
    alloc: Global,
) -> Result<Vec<Finding<'a>>, AllocError>
    ensures { IfOk result (λ v. length v.items ≡ length listed.now.items) }
{
    let mut found = Vec::new(alloc);
    for member in listed {
        add_unknown(member, is_warning, &mut found, alloc)?;
    }
    Ok(found)
}

fn add_unknown<'a>(
    member: &UnknownMember,
    is_warning: bool,
    found: &mut Vec<Finding<'a>>,
    alloc: Global,
) -> Result<(), AllocError>
    ensures { OnOk result (length found.new.items ≡ length found.old.items + 1) }
{
    let finding = unknown_finding(member, is_warning, alloc)?;
    found.push(finding)?;
    Ok(())
}

fn unknown_finding<'a>(
    member: &UnknownMember,
    is_warning: bool,
    alloc: Global,
) -> Result<Finding<'a>, AllocError> {
    let meant = suggestion(member.owner.members, member.name.as_str(), alloc)?;
    Ok(Finding {
        pointer: String::from_str(alloc, member.pointer.as_str())?,
        cause: Cause::Unknown(meant),
        severity: Severity::warning_if(is_warning),
    })
}
