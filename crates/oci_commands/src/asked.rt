//! Commands as values.
use oci_content::Algorithm;
pub use oci_findings::{Book, Check, Style, Unknown};
use oci_schemas::Kind;

/// What `fmt` is asked.
#[derive(Clone, Copy)]
pub struct Format<'a> {
    /// The kind of the document, or none where it is to be found out.
    pub kind: Option<Kind>,
    /// Whether the text is indented.
    pub pretty: bool,
    /// Whether the file is compared with its canonical form, and nothing is written.
    pub check: bool,
    /// Whether nothing is said of the members that are left out.
    pub quiet: bool,
    /// Whether the digests before and after are said.
    pub verbose: bool,
    /// Whether members that the schema does not list are written in their place.
    pub keep_unknown: bool,
    /// Whether members that the schema does not list, and earlier ones of one name, are left out of a file that is written; else no
    /// file is written if there are any that would be lost.
    pub drop_unknown: bool,
    /// The file to write, or none for standard output.
    pub output: Option<&'a str>,
    /// The file to read.
    pub file: &'a str,
}

/// What `diff` is asked.
#[derive(Clone, Copy)]
pub struct Compare<'a> {
    /// The kind of both documents, or none where it is to be found out.
    pub kind: Option<Kind>,
    /// How differences are written.
    pub style: Style,
    /// Whether differences are not written at all.
    pub quiet: bool,
    /// The file before.
    pub before: &'a str,
    /// The file after.
    pub after: &'a str,
}

/// The digest to which a reference is pinned.
#[derive(Clone, Copy)]
pub enum Target<'a> {
    /// This digest.
    Given(&'a str),
    /// The digest of the bytes of a file, as of a manifest.
    Manifest(&'a str),
    /// The digest of the descriptor that has a name (second) in the index of an image layout, a file (first).
    Tagged(&'a str, &'a str),
}

/// How the schema of a kind of documents is written.
#[derive(Clone, Copy)]
pub enum Outline {
    /// As a table of members, for people.
    Table,
    /// As a JSON Schema.
    JsonSchema,
}

/// A command with what it is asked.
#[derive(Clone, Copy)]
pub enum Asked<'a> {
    /// `check`: what is wrong with documents.
    Check(Check<'a>),
    /// `fmt`: the canonical form of a document.
    Format(Format<'a>),
    /// `diff`: what differs between the canonical forms of two documents.
    Compare(Compare<'a>),
    /// `ref`: the parts of references.
    Reference(Style, &'a [&'a str]),
    /// `digest --parse`: the parts of digests.
    Digest(Style, &'a [&'a str]),
    /// `digest`: the digests of files.
    FileDigests(Algorithm, &'a [&'a str]),
    /// `digest --check`: whether files have the digests of lists; those that name no algorithm are by this one.
    CheckDigests(Algorithm, &'a [&'a str]),
    /// `pin`: a reference with the digest of a descriptor.
    Pin(&'a str, &'a str),
    /// `pin`: a reference with a digest.
    PinTo(&'a str, Target<'a>),
    /// `tree`: the document in a file as a tree.
    Tree(&'a str),
    /// `rules`: the rules of all kinds of documents, or those of a kind, or a rule, by its name.
    Rules(Style, Option<&'a str>),
    /// `explain`: a rule, by its name.
    Explain(&'a str),
    /// `schema`: the members of a kind of documents, or its JSON Schema.
    Schema(Outline, Kind),
    /// `kind`: the kinds of documents.
    Kinds(Style, &'a [&'a str]),
}
