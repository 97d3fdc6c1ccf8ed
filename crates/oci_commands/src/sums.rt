//! The command `digest --check`: whether files have the digests of a list.
ghost use Rattle.std.specs.Prelude.{◌≡◌, ◌≢◌, ◌<◌, ℕ, List, None, true, false, map, length, IfOk, IfSome, string_bytes};
ghost use Rattle.std.specs.List.{All, HoldsAt};
ghost use Rattle.std.specs.Str.Lines.{lines};
ghost use Rattle.oci_content.specs.Content.{digest_text};
ghost use Rattle.oci_content.specs.declared.algorithm.Algorithm.{Algorithm as algorithm_type};
ghost use Rattle.oci_commands.specs.Done.{IsStatus};
ghost use Rattle.oci_commands.specs.Sums.{IsEntry, IsSaid, Lacks, Matches, Differs, AllMatch, OneDiffers};
ghost use Rattle.oci_commands.specs.declared.outcome.Outcome.TheVariants.{Right, Wrong};

use crate::files::Files;
use crate::outcome::Outcome;
use crate::texts::complain_of;
use oci_base::{Result, line_of};
use oci_content::Algorithm;
use oci_json::write_text;
use std::alloc::{AllocError, Global};
use std::io::Write;

/// What is said of a line that is none of a list.
const NO_ENTRY: &str = "no digest with two spaces and a file behind it";

/// How lists are checked.
#[derive(Clone, Copy)]
struct Lists {
    /// The algorithm of digests that name none.
    asked: Algorithm,
    alloc: Global,
}

/// Where it is said what was found out.
struct Outputs<'o, W, E> {
    writer: &'o mut W,
    errors: &'o mut E,
}

impl<'o, W, E> Drop for Outputs<'o, W, E> {
    fn drop(self) {
        let Outputs { writer, errors } = self;
    }
}

/// Writes a line for each file that the lists name, whether it has the digest that stands before it; digests without an algorithm are by
/// the one that is asked for. Returns 0 if each has, 1 if one has not, or if a list has a line that is none or names an algorithm that is
/// not known, or no line at all, and 3 if
/// a list or a file could not be read, which a line on standard error says. Fails if the lines cannot be written, or if out of memory.
pub fn check_digests<S: Files, W: Write, E: Write>(
    asked: Algorithm,
    files: &[&str],
    alloc: Global,
    store: &mut S,
    writer: &mut W,
    errors: &mut E,
) -> Result<u8>
    ensures status { IfOk result IsStatus }
    ensures done { IfOk result (λ s. s ≡ 0 → All (λ f. IfSome (S.holds store.old f.now) (AllMatch (S.holds store.old) asked)) files.now) }
    ensures wrong { IfOk result (λ s. s ≡ 1 → (i : ℕ) × (i < length files.now) × HoldsAt (λ f. IfSome (S.holds store.old f.now) (OneDiffers (S.holds store.old) asked)) files.now i) }
{
    let lists = Lists { asked, alloc };
    let mut outputs = Outputs { writer, errors };
    let found = lists.check_lists(files, store, &mut outputs)?;
    Ok(found.status())
}

impl Lists {
    fn check_lists<S: Files, W: Write, E: Write>(
        self,
        files: &[&str],
        store: &mut S,
        outputs: &mut Outputs<'_, W, E>,
    ) -> Result<Outcome>
        ensures right { IfOk result (λ o. o ≡ Right → All (λ f. IfSome (S.holds store.old f.now) (AllMatch (S.holds store.old) self.asked)) files.now) }
        ensures wrong { IfOk result (λ o. o ≡ Wrong → (i : ℕ) × (i < length files.now) × HoldsAt (λ f. IfSome (S.holds store.old f.now) (OneDiffers (S.holds store.old) self.asked)) files.now i) }
    {
        let mut found = Outcome::Right;
        for file in files {
            let of_list = self.check_list(file, store, outputs)?;
            found = found.joined_with(of_list);
        }
        Ok(found)
    }

    /// Checks the files that a list names.
    fn check_list<S: Files, W: Write, E: Write>(
        self,
        file: &str,
        store: &mut S,
        outputs: &mut Outputs<'_, W, E>,
    ) -> Result<Outcome>
        ensures right { IfOk result (λ o. o ≡ Right → IfSome (S.holds store.old file.now) (AllMatch (S.holds store.old) self.asked)) }
        ensures wrong { IfOk result (λ o. o ≡ Wrong → IfSome (S.holds store.old file.now) (OneDiffers (S.holds store.old) self.asked)) }
        ensures kept { S.holds store.new ≡ S.holds store.old }
    {
        match store.read(self.alloc, file) {
            Ok(bytes) => self.check_bytes(file, bytes.as_slice(), store, outputs),
            Err(fault) => {
                complain_of(file, &fault, self.alloc, outputs.errors);
                Ok(Outcome::Unread)
            }
        }
    }

    /// Checks the files that the bytes of a list name.
    fn check_bytes<S: Files, W: Write, E: Write>(
        self,
        file: &str,
        bytes: &[u8],
        store: &mut S,
        outputs: &mut Outputs<'_, W, E>,
    ) -> Result<Outcome>
        ensures right { IfOk result (λ o. o ≡ Right → AllMatch (S.holds store.old) self.asked bytes.now) }
        ensures wrong { IfOk result (λ o. o ≡ Wrong → OneDiffers (S.holds store.old) self.asked bytes.now) }
        ensures kept { S.holds store.new ≡ S.holds store.old }
    {
        match str::from_utf8(bytes) {
            Ok(text) => self.check_text(file, text, store, outputs),
            Err(_) => {
                complain_of(file, &"no text", self.alloc, outputs.errors);
                Ok(Outcome::Wrong)
            }
        }
    }

    fn check_text<S: Files, W: Write, E: Write>(
        self,
        file: &str,
        text: &str,
        store: &mut S,
        outputs: &mut Outputs<'_, W, E>,
    ) -> Result<Outcome>
        ensures right { IfOk result (λ o. o ≡ Right → AllMatch (S.holds store.old) self.asked text.now) }
        ensures wrong { IfOk result (λ o. o ≡ Wrong → OneDiffers (S.holds store.old) self.asked text.now) }
        ensures kept { S.holds store.new ≡ S.holds store.old }
    {
        let entries = lines_of(text, self.alloc)?;
        if entries.is_empty() {
            complain_of(file, &"no line", self.alloc, outputs.errors);
            return Ok(Outcome::Wrong);
        }
        self.check_lines(file, entries.as_slice(), store, outputs)
    }

    /// Checks the files that lines name.
    fn check_lines<S: Files, W: Write, E: Write>(
        self,
        file: &str,
        entries: &[&str],
        store: &mut S,
        outputs: &mut Outputs<'_, W, E>,
    ) -> Result<Outcome>
        ensures right { IfOk result (λ o. o ≡ Right → All (λ l. Matches (S.holds store.old) self.asked l.now) entries.now) }
        ensures wrong { IfOk result (λ o. o ≡ Wrong → (i : ℕ) × (i < length entries.now) × HoldsAt (λ l. Differs (S.holds store.old) self.asked l.now) entries.now i) }
        ensures kept { S.holds store.new ≡ S.holds store.old }
    {
        let mut found = Outcome::Right;
        let mut number: u64 = 0;
        for line in entries {
            number = number.saturating_add(1);
            let of_line = self.check_line(file, number, line, store, outputs)?;
            found = found.joined_with(of_line);
        }
        Ok(found)
    }

    /// Checks the file that a line names.
    fn check_line<S: Files, W: Write, E: Write>(
        self,
        file: &str,
        number: u64,
        line: &str,
        store: &mut S,
        outputs: &mut Outputs<'_, W, E>,
    ) -> Result<Outcome>
        ensures right { IfOk result (λ o. o ≡ Right → Matches (S.holds store.old) self.asked line.now) }
        ensures wrong { IfOk result (λ o. o ≡ Wrong → Differs (S.holds store.old) self.asked line.now) }
        ensures kept { S.holds store.new ≡ S.holds store.old }
    {
        let Some((text, name)) = entry_of(line) else {
            say_of_line(file, number, NO_ENTRY, self.alloc, outputs.errors)?;
            return Ok(Outcome::Wrong);
        };
        match digest_said(self.asked, text, self.alloc)? {
            Some((algorithm, digest)) => {
                self.check_file(algorithm, digest.as_str(), name, store, outputs)
            }
            None => {
                let fault = unknown_algorithm(text, self.alloc)?;
                say_of_line(file, number, fault.as_str(), self.alloc, outputs.errors)?;
                Ok(Outcome::Wrong)
            }
        }
    }

    /// Checks whether a file has a digest by the algorithm.
    fn check_file<S: Files, W: Write, E: Write>(
        self,
        algorithm: Algorithm,
        digest: &str,
        name: &str,
        store: &mut S,
        outputs: &mut Outputs<'_, W, E>,
    ) -> Result<Outcome>
        ensures right { IfOk result (λ o. o ≡ Right → IfSome (S.holds store.old name.now) (λ bytes. digest.now ≡ digest_text algorithm bytes)) }
        ensures wrong { IfOk result (λ o. o ≡ Wrong → IfSome (S.holds store.old name.now) (λ bytes. digest.now ≢ digest_text algorithm bytes)) }
        ensures kept { S.holds store.new ≡ S.holds store.old }
    {
        match store.checksum(algorithm, name) {
            Ok(found) => {
                if found.is_text(digest) {
                    say(name, "OK", self.alloc, outputs.writer)?;
                    Ok(Outcome::Right)
                } else {
                    say(name, "FAILED", self.alloc, outputs.writer)?;
                    Ok(Outcome::Wrong)
                }
            }
            Err(fault) => {
                say(name, "FAILED open or read", self.alloc, outputs.writer)?;
                complain_of(name, &fault, self.alloc, outputs.errors);
                Ok(Outcome::Unread)
            }
        }
    }
}

/// Writes what was found out about a file, on a line.
fn say<W: Write>(name: &str, word: &str, alloc: Global, writer: &mut W) -> Result<()> {
    let text = format!(in alloc; "{name}: {word}")?;
    let line = line_of(text.as_str(), alloc)?;
    write_text(line.as_bytes(), writer)?;
    Ok(())
}

/// The lines of a text.
fn lines_of<'a>(text: &'a str, alloc: Global) -> std::result::Result<Vec<&'a str>, AllocError>
    ensures { IfOk result (λ v. map (λ l. l.now) v.items ≡ lines text.now) }
{
    text.lines().collect(alloc)
}

/// The text of the digest on a line, and the name of the file.
fn entry_of(line: &str) -> Option<(&str, &str)>
    ensures some { IfSome result (λ e. IsEntry line.now e.0.now e.1.now) }
    ensures one { IfSome result (λ e. (text name : List ℕ) → IsEntry line.now text name → (text ≡ e.0.now) × (name ≡ e.1.now)) }
    ensures none { result ≡ None → (text name : List ℕ) → ¬ IsEntry line.now text name }
{
    let (text, rest) = line.split_once(' ')?;
    let name = rest.strip_prefix(' ')?;
    Some((text, name))
}

/// The digest that a text is, with its algorithm; one that names none is behind the algorithm that is asked for. `None` if it names another
/// than those that are known.
fn digest_said(
    asked: Algorithm,
    text: &str,
    alloc: Global,
) -> std::result::Result<Option<(Algorithm, String)>, AllocError>
    ensures some { IfOk result (λ o. IfSome o (λ r. IsSaid asked text.now r.0 (string_bytes r.1))) }
    ensures none { IfOk result (λ o. o ≡ None → (algorithm : algorithm_type) (digest : List ℕ) → ¬ IsSaid asked text.now algorithm digest) }
{
    match Algorithm::of_digest(text) {
        Some(algorithm) => Ok(Some((algorithm, String::from_str(alloc, text)?))),
        None => {
            if has_colon(text) {
                return Ok(None);
            }
            let name = asked.name();
            Ok(Some((asked, format!(in alloc; "{name}:{text}")?)))
        }
    }
}

/// Whether a text names an algorithm: whether it has a colon.
fn has_colon(text: &str) -> bool
    ensures has { result ≡ true → ¬ Lacks 58 text.now }
    ensures lacks { result ≡ false → Lacks 58 text.now }
{
    match text.split_once(':') {
        Some((name, rest)) => true,
        None => false,
    }
}

/// That the algorithm that a text names is not known.
fn unknown_algorithm(text: &str, alloc: Global) -> std::result::Result<String, AllocError> {
    let (name, _) = text.split_once(':').unwrap_or((text, ""));
    format!(in alloc; "unknown algorithm {name}; sha256, sha384 and sha512 are known")
}

/// Says what is wrong with a line of a list on standard error.
fn say_of_line<E: Write>(
    file: &str,
    number: u64,
    fault: &str,
    alloc: Global,
    errors: &mut E,
) -> Result<()> {
    let at = format!(in alloc; "{file}:{number}")?;
    complain_of(at.as_str(), &fault, alloc, errors);
    Ok(())
}
