//! The command `check`.
ghost use Rattle.std.specs.Prelude.{◌≡◌, ◌<◌, ◌⊎◌, [], ℕ, true, false, length, IfOk, IfSome, OnOk};
ghost use Rattle.std.specs.List.{All, HoldsAt};
ghost use Rattle.oci_findings.specs.Checks.{IsRight, IsWrong};
ghost use Rattle.oci_commands.specs.Done.{IsStatus};

use crate::asked::Check;
use crate::files::Files;
use crate::texts::complain_of;
use oci_base::Result;
use oci_findings::examine::examine;
use oci_findings::{Report, Reporter, RuleBooks};
use oci_schema::bytes::Workspace;
use std::alloc::Global;
use std::io::Write;

/// What was found out about files.
#[derive(Clone, Copy)]
pub struct Tally {
    /// Whether something is wrong with one of them.
    pub wrong: bool,
    /// Whether one of them could not be read.
    pub unread: bool,
}

impl Tally {
    /// Notes whether something is wrong with a file.
    fn note(&mut self, found: &Report<'_>)
        ensures right { self.new.wrong ≡ false → (self.old.wrong ≡ false) × (found.now.errors.items ≡ []) }
        ensures wrong { self.new.wrong ≡ true → (self.old.wrong ≡ true) ⊎ ¬ (found.now.errors.items ≡ []) }
        ensures unread { self.new.unread ≡ self.old.unread }
    {
        if !found.errors.is_empty() {
            self.wrong = true;
        }
    }

    /// The status of a run in which a file was wrong, or could not be read.
    fn status(self) -> u8
        ensures status { IsStatus result }
        ensures right { result ≡ 0 → (self.wrong ≡ false) × (self.unread ≡ false) }
        ensures wrong { result ≡ 1 → self.wrong ≡ true }
    {
        if self.unread {
            3
        } else if self.wrong {
            1
        } else {
            0
        }
    }
}

/// Writes what is wrong with each file. Returns 0 if nothing is, 1 if something is, and 3 if a file could not be read, which a line on
/// standard error says; the others are checked all the same. Fails if the findings cannot be written, or if out of memory.
pub fn check<S: Files, B: RuleBooks, W: Write, E: Write>(
    books: &B,
    asked: &Check<'_>,
    alloc: Global,
    store: &mut S,
    writer: &mut W,
    errors: &mut E,
) -> Result<u8>
    ensures status { IfOk result IsStatus }
    ensures right { IfOk result (λ s. s ≡ 0 → All (λ f. IfSome (S.holds store.old f.now) (IsRight (B.rules books.now) asked.now f.now)) asked.now.files.now) }
    ensures wrong { IfOk result (λ s. s ≡ 1 → (i : ℕ) × (i < length asked.now.files.now) × HoldsAt (λ f. IfSome (S.holds store.old f.now) (IsWrong (B.rules books.now) asked.now f.now)) asked.now.files.now i) }
{
    let checking = Checking {
        books,
        asked,
        alloc,
    };
    let mut state = State {
        workspace: Workspace::new(alloc),
        reporter: Reporter::new(asked.style, alloc)?,
        writer,
        errors,
    };
    let tally = checking.check_files(store, &mut state)?;
    state.close(asked.quiet)?;
    Ok(tally.status())
}

/// What each file is checked with: memory that all use, and where it is written.
struct State<'o, W, E> {
    workspace: Workspace,
    reporter: Reporter,
    writer: &'o mut W,
    errors: &'o mut E,
}

impl<'o, W, E> Drop for State<'o, W, E> {
    fn drop(self) {
        let State {
            workspace,
            reporter,
            writer,
            errors,
        } = self;
    }
}

impl<'o, W: Write, E> State<'o, W, E> {
    /// Writes the log, if there is one.
    fn close(&mut self, quiet: bool) -> Result<()> {
        if quiet {
            return Ok(());
        }
        self.reporter.finish(self.writer)
    }
}

/// What files are checked for.
struct Checking<'a, B> {
    books: &'a B,
    asked: &'a Check<'a>,
    alloc: Global,
}

impl<'a, B> Drop for Checking<'a, B> {
    fn drop(self) {
        let Checking {
            books,
            asked,
            alloc,
        } = self;
    }
}

impl<'a, B: RuleBooks> Checking<'a, B> {
    /// Checks each file.
    fn check_files<S: Files, W: Write, E: Write>(
        &self,
        store: &mut S,
        state: &mut State<'_, W, E>,
    ) -> Result<Tally>
        ensures right { IfOk result (λ t. t.wrong ≡ false → t.unread ≡ false → All (λ f. IfSome (S.holds store.old f.now) (IsRight (B.rules self.now.books.now) self.now.asked.now f.now)) self.now.asked.now.files.now) }
        ensures wrong { IfOk result (λ t. t.wrong ≡ true → (i : ℕ) × (i < length self.now.asked.now.files.now) × HoldsAt (λ f. IfSome (S.holds store.old f.now) (IsWrong (B.rules self.now.books.now) self.now.asked.now f.now)) self.now.asked.now.files.now i) }
    {
        let mut tally = Tally {
            wrong: false,
            unread: false,
        };
        for name in self.asked.files {
            self.check_file(name, store, state, &mut tally)?;
        }
        Ok(tally)
    }

    /// Checks a file, and notes what was found out.
    fn check_file<S: Files, W: Write, E: Write>(
        &self,
        name: &str,
        store: &mut S,
        state: &mut State<'_, W, E>,
        tally: &mut Tally,
    ) -> Result<()>
        ensures right { OnOk result (tally.new.wrong ≡ false → tally.new.unread ≡ false → (tally.old.wrong ≡ false) × (tally.old.unread ≡ false) × IfSome (S.holds store.old name.now) (IsRight (B.rules self.now.books.now) self.now.asked.now name.now)) }
        ensures wrong { OnOk result (tally.new.wrong ≡ true → (tally.old.wrong ≡ true) ⊎ IfSome (S.holds store.old name.now) (IsWrong (B.rules self.now.books.now) self.now.asked.now name.now)) }
        ensures kept { S.holds store.new ≡ S.holds store.old }
    {
        match store.read(self.alloc, name) {
            Ok(bytes) => self.check_bytes(name, bytes.as_slice(), state, tally),
            Err(fault) => {
                tally.unread = true;
                complain_of(name, &fault, self.alloc, state.errors);
                state.reporter.note_unread(name, &fault)?;
                Ok(())
            }
        }
    }

    /// Checks the bytes of a file, and notes what was found out.
    fn check_bytes<W: Write, E: Write>(
        &self,
        name: &str,
        bytes: &[u8],
        state: &mut State<'_, W, E>,
        tally: &mut Tally,
    ) -> Result<()>
        ensures right { OnOk result (tally.new.wrong ≡ false → (tally.new.unread ≡ tally.old.unread) × (tally.old.wrong ≡ false) × IsRight (B.rules self.now.books.now) self.now.asked.now name.now bytes.now) }
        ensures wrong { OnOk result (tally.new.wrong ≡ true → (tally.old.wrong ≡ true) ⊎ IsWrong (B.rules self.now.books.now) self.now.asked.now name.now bytes.now) }
        ensures unread { OnOk result (tally.new.unread ≡ tally.old.unread) }
    {
        let workspace = &mut state.workspace;
        let found = examine(self.books, self.asked, name, bytes, workspace, self.alloc)?;
        tally.note(&found);
        if self.asked.quiet {
            return Ok(());
        }
        state.reporter.add(name, &found, state.writer)
    }
}
