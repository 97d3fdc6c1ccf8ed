//! What is checked.
ghost use Rattle.std.specs.Prelude.{◌≡◌};
ghost use Rattle.oci_findings.specs.Asked.{asks, denies, ignores, is_for};

use crate::Style;
use oci_rules::{Level, Rule, RuntimePlatform};
use oci_schemas::Kind;

/// What is done with members that the schema does not list.
#[derive(Clone, Copy)]
pub enum Unknown {
    /// They are wrong.
    Deny,
    /// They are listed as warnings.
    Warn,
    /// Nothing.
    Allow,
}

/// Rules, and the kinds of documents of which they are asked.
#[derive(Clone, Copy)]
pub struct Book<'a> {
    /// The kinds.
    pub kinds: &'a [Kind],
    /// The rules.
    pub rules: &'a [Rule<'a>],
}

impl<'a> Book<'a> {
    /// Whether the rules are asked of documents of a kind.
    pub fn is_for(&self, kind: Kind) -> bool
        ensures { result ≡ is_for self.now kind }
    {
        self.kinds.contains(&kind)
    }
}

/// What `check` is asked.
#[derive(Clone, Copy)]
pub struct Check<'a> {
    /// The kind of all documents, or none where it is to be found out.
    pub kind: Option<Kind>,
    /// Whether the rules of the specifications are checked beside the schema.
    pub rules: bool,
    /// The rules of a policy, which are checked too, each of documents of its kinds.
    pub policy: &'a [Book<'a>],
    /// The weakest level of rules that are checked, in the order must, stated, should, host.
    pub level: Level,
    /// The platform of the documents, or none where they say it.
    pub platform: Option<RuntimePlatform>,
    /// What is done with members that the schema does not list.
    pub unknown: Unknown,
    /// Whether nothing is said of JSON of which no kind of documents is found.
    pub skip_unknown: bool,
    /// Whether warnings make a document wrong too.
    pub strict: bool,
    /// The rules, by their names, of which nothing is said where they are broken.
    pub ignore: &'a [&'a str],
    /// The only rules of the specifications and of the policy that are checked, by their names; all of them, where none is named.
    pub only: &'a [&'a str],
    /// How findings are written.
    pub style: Style,
    /// Whether findings are not written at all.
    pub quiet: bool,
    /// The files to check.
    pub files: &'a [&'a str],
}

impl<'a> Check<'a> {
    /// Whether nothing is said where the rule of this name is broken.
    pub fn ignores(&self, rule: &str) -> bool
        ensures { result ≡ ignores self.now rule.now }
    {
        self.ignore.contains(&rule)
    }

    /// Whether the rule of this name, one of the specifications or of the policy, is checked.
    pub fn asks(&self, rule: &str) -> bool
        ensures { result ≡ asks self.now rule.now }
    {
        !self.ignores(rule) && (self.only.is_empty() || self.only.contains(&rule))
    }

    /// Whether a member that the schema does not list makes a document wrong.
    pub fn denies(&self) -> bool
        ensures { result ≡ denies self.now }
    {
        let is_wrong = match self.unknown {
            Unknown::Deny => true,
            Unknown::Warn => self.strict,
            Unknown::Allow => false,
        };
        is_wrong && !self.ignores("unknown")
    }
}
