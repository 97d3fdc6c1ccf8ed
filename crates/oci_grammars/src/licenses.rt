//! Licence expressions (SPDX specification 2.3, annex D).
ghost use Rattle.std.specs.Prelude.{◌≡◌, ◌+◌, ◌<◌, ◌^◌, length, codes, bytes_eq, option_map};
ghost use Rattle.oci_grammars.specs.DecidedLicenses as decided;
ghost use Rattle.oci_grammars.specs.Licenses as license;

use crate::classes::Class;
use crate::cuts::{behind, cut};

/// What a piece of an expression is.
#[derive(Clone, Copy)]
enum Kind {
    Name,
    License,
    Operator,
    With,
    OpenMark,
    CloseMark,
    NoKind,
}

/// Where in an expression a text stands.
#[derive(Clone, Copy)]
enum Phase {
    Wanted,
    Simple,
    Excepting,
    Done,
    Broken,
}

/// Where in an expression a text stands, and in how many parentheses.
#[derive(Clone, Copy)]
struct Progress {
    phase: Phase,
    depth: usize,
}

impl Progress {
    fn after(self, piece: Option<Kind>) -> Self
        requires { self.depth + 1 < 2 ^ 64 }
        ensures { result ≡ decided.after_piece self piece }
    {
        match piece {
            None => self,
            Some(kind) => self.next(kind),
        }
    }

    fn next(self, kind: Kind) -> Self
        requires { self.depth + 1 < 2 ^ 64 }
        ensures { result ≡ decided.next self kind }
    {
        let depth = self.depth;
        match self.phase {
            Phase::Wanted => next_wanted(depth, kind),
            Phase::Simple => next_simple(depth, kind),
            Phase::Excepting => next_excepting(depth, kind),
            Phase::Done => next_done(depth, kind),
            Phase::Broken => at(Phase::Broken, depth),
        }
    }

    fn is_whole(self) -> bool
        ensures { result ≡ decided.is_whole self }
    {
        matches!(self.phase, Phase::Simple | Phase::Done) & (self.depth == 0)
    }
}

fn at(phase: Phase, depth: usize) -> Progress
    ensures { result ≡ decided.at phase depth }
{
    Progress { phase, depth }
}

fn next_wanted(depth: usize, kind: Kind) -> Progress
    requires { depth + 1 < 2 ^ 64 }
    ensures { result ≡ decided.next_wanted depth kind }
{
    match kind {
        Kind::Name | Kind::License => at(Phase::Simple, depth),
        Kind::OpenMark => at(Phase::Wanted, depth + 1),
        _ => at(Phase::Broken, depth),
    }
}

fn next_simple(depth: usize, kind: Kind) -> Progress
    ensures { result ≡ decided.next_simple depth kind }
{
    match kind {
        Kind::With => at(Phase::Excepting, depth),
        _ => next_done(depth, kind),
    }
}

fn next_excepting(depth: usize, kind: Kind) -> Progress
    ensures { result ≡ decided.next_excepting depth kind }
{
    match kind {
        Kind::Name => at(Phase::Done, depth),
        _ => at(Phase::Broken, depth),
    }
}

fn next_done(depth: usize, kind: Kind) -> Progress
    ensures { result ≡ decided.next_done depth kind }
{
    match kind {
        Kind::Operator => at(Phase::Wanted, depth),
        Kind::CloseMark if depth != 0 => at(Phase::Done, depth - 1),
        _ => at(Phase::Broken, depth),
    }
}

fn is_license_ref(word: &[u8]) -> bool
    ensures { result ≡ license.is_license_ref word.now }
{
    word.starts_with(b"LicenseRef-") & Class::IdByte.has_some(behind(word, 11))
}

fn is_document_ref(word: &[u8]) -> bool
    ensures { result ≡ license.is_document_ref word.now }
{
    word.starts_with(b"DocumentRef-") & Class::IdByte.has_some(behind(word, 12))
}

fn is_other_ref(word: &[u8]) -> bool
    ensures { result ≡ license.is_other_ref word.now }
{
    let (document, reference) = cut(word, b':');
    is_document_ref(document) & is_license_ref(reference)
}

/// Returns whether the word is a licence that no list has, with its document or without.
pub(crate) fn is_reference(word: &[u8]) -> bool
    ensures { result ≡ license.is_reference word.now }
{
    is_license_ref(word) | is_other_ref(word)
}

fn is_license(word: &[u8]) -> bool
    ensures { result ≡ license.is_license word.now }
{
    let (id, plus) = Class::IdByte.run(word);
    (Class::IdByte.has_some(id) & (plus == b"+".as_slice())) | is_other_ref(word)
}

fn kind_of(piece: &[u8]) -> Kind
    ensures { result ≡ license.kind_of piece.now }
{
    if (piece == b"AND".as_slice()) | (piece == b"OR".as_slice()) {
        Kind::Operator
    } else if piece == b"WITH".as_slice() {
        Kind::With
    } else if piece == b"(".as_slice() {
        Kind::OpenMark
    } else if piece == b")".as_slice() {
        Kind::CloseMark
    } else if Class::IdByte.has_some(piece) {
        Kind::Name
    } else if is_license(piece) {
        Kind::License
    } else {
        Kind::NoKind
    }
}

/// Returns whether the piece is an identifier, as of a licence or an exception.
pub(crate) fn is_identifier(piece: &[u8]) -> bool
    ensures { result ≡ license.is_identifier piece.now }
{
    matches!(kind_of(piece), Kind::Name | Kind::License)
}

fn is_space(piece: &[u8]) -> bool
    ensures { result ≡ bytes_eq piece.now (codes " ") }
{
    piece == b" ".as_slice()
}

/// The word or the mark that the text begins with, nothing for a space, and the bytes after it.
pub(crate) fn first_word(text: &[u8]) -> (Option<&[u8]>, &[u8])
    requires { 0 < length text.now }
    ensures words { license.pieces text.now ≡ decided.put_word (option_map (λ t. t.now) result.0) (license.pieces result.1.now) }
    ensures shorter { length result.1.now < length text.now }
{
    let (word, rest) = Class::LicenseWord.run(text);
    if word.is_empty() {
        let (mark, rest) = text.split_at(1);
        if is_space(mark) {
            (None, rest)
        } else {
            (Some(mark), rest)
        }
    } else {
        (Some(word), rest)
    }
}

/// The kind of what the text begins with, nothing for a space, and the bytes after it.
fn first_piece(text: &[u8]) -> (Option<Kind>, &[u8])
    requires { 0 < length text.now }
    ensures kinds { license.kinds text.now ≡ decided.put_piece result.0 (license.kinds result.1.now) }
    ensures shorter { length result.1.now < length text.now }
{
    match first_word(text) {
        (Some(word), rest) => (Some(kind_of(word)), rest),
        (None, rest) => (None, rest),
    }
}

/// Returns whether the text is a licence expression.
#[tactic(auto, unfolding(crate::specs::DecidedLicenses::is_spdx_expression), using(crate::proofs::LicensePieces::goes_on, crate::proofs::LicensePieces::deeper_by_one))]
pub(crate) fn is_spdx_expression(text: &[u8]) -> bool
    ensures { result ≡ decided.is_spdx_expression text.now }
{
    let mut progress = at(Phase::Wanted, 0);
    let mut rest = text;
    while !rest.is_empty() {
        let (piece, others) = first_piece(rest);
        progress = progress.after(piece);
        rest = others;
    }
    progress.is_whole()
}
