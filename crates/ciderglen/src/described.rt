//! Commands and their arguments as data, and the arguments that several commands have.

/// What an argument takes.
#[derive(Clone, Copy)]
pub enum Takes {
    /// Nothing: an option that is given or not.
    Nothing,
    /// The value of an option, by what help calls it.
    Value(&'static str),
    /// The values of an option that may be given several times, by what help calls each.
    Values(&'static str),
    /// A word, which may be left out.
    Maybe,
    /// A word.
    Word,
    /// Words, one at least.
    Words,
    /// Words, or none.
    Any,
}

/// What one argument says of another.
#[derive(Clone, Copy)]
pub enum Bond {
    /// Nothing.
    Free,
    /// It cannot be given with those options.
    Without(&'static [&'static str]),
    /// It has to be given with that option.
    With(&'static str),
}

/// An argument of a command.
#[derive(Clone, Copy)]
pub struct Argument {
    pub name: &'static str,
    pub help: &'static str,
    pub takes: Takes,
    pub short: Option<char>,
    /// The only values that it may have; any, where there are none.
    pub values: &'static [&'static str],
    /// Whether the help lists these values itself, over several lines.
    pub lists_values: bool,
    /// The value that it has where it is not given; none, where there is none.
    pub default: &'static [&'static str],
    pub bond: Bond,
}

/// A command.
#[derive(Clone, Copy)]
pub struct Described {
    pub name: &'static str,
    pub about: &'static str,
    pub example: &'static str,
    pub arguments: &'static [Argument],
}

/// What most arguments are: an option that is given or not.
pub const PLAIN: Argument = Argument {
    name: "",
    help: "",
    takes: Takes::Nothing,
    short: None,
    values: &[],
    lists_values: false,
    default: &[],
    bond: Bond::Free,
};

/// The names of the kinds of documents.
pub const KINDS: &[&str] = &[
    "manifest",
    "index",
    "config",
    "image-config",
    "artifact",
    "layout",
    "descriptor",
    "error",
    "repositories",
    "tags",
    "reference",
    "spec",
    "runtime-config",
    "state",
    "process-state",
    "features",
];

pub const KIND: Argument = Argument {
    name: "kind",
    help: "The kind of the documents; without it, it is found out
[possible values: manifest, index, config, image-config, artifact,
layout, descriptor, error, repositories, tags, reference, spec,
runtime-config, state, process-state, features]",
    takes: Takes::Value("KIND"),
    short: Some('k'),
    values: KINDS,
    lists_values: true,
    ..PLAIN
};

pub const QUIET: Argument = Argument {
    name: "quiet",
    short: Some('q'),
    ..PLAIN
};

pub const FORMAT: Argument = Argument {
    name: "format",
    help: "How to write the result",
    takes: Takes::Value("FORMAT"),
    values: &["text", "json"],
    default: &["text"],
    ..PLAIN
};

/// How findings are written.
pub const FINDINGS: Argument = Argument {
    help: "How to write the result
[possible values: text, json, sarif, github]",
    values: &["text", "json", "sarif", "github"],
    lists_values: true,
    ..FORMAT
};

/// Whether lines for people have colours.
pub const COLOR: Argument = Argument {
    name: "color",
    help: "When lines have colors; auto, as without it, is on a terminal where
NO_COLOR is not set
[possible values: auto, always, never]",
    takes: Takes::Value("WHEN"),
    values: &["auto", "always", "never"],
    lists_values: true,
    ..PLAIN
};

/// The one file that is read.
pub const FILE: Argument = Argument {
    name: "FILE",
    help: "The file to read; - is standard input, and so is no FILE",
    takes: Takes::Maybe,
    ..PLAIN
};

pub const RULES: Argument = Argument {
    name: "rules",
    help: "Check the rules of the specifications beside the schema",
    ..PLAIN
};

pub const POLICY: Argument = Argument {
    name: "policy",
    help: "Check the rules of the policy in this TOML file too",
    takes: Takes::Value("FILE"),
    ..PLAIN
};

pub const LEVEL: Argument = Argument {
    name: "level",
    help: "The weakest level of rules that are checked, with --rules or --policy;
without it, should. Levels are by the sentence that a rule is from:
  must    it says MUST or REQUIRED
  stated  it has no such word, and says what a document has
  should  it says SHOULD or RECOMMENDED, or calls something deprecated
  host    none asks it; the kernel or every runtime refuses it
A broken rule of must or stated is an error, one of should or host a
warning
[possible values: must, stated, should, host]",
    takes: Takes::Value("LEVEL"),
    values: &["must", "stated", "should", "host"],
    lists_values: true,
    ..PLAIN
};

pub const UNKNOWN: Argument = Argument {
    name: "unknown",
    help: "What is done with members that the schema does not list;
without it, allow
[possible values: deny, warn, allow]",
    takes: Takes::Value("UNKNOWN"),
    values: &["deny", "warn", "allow"],
    lists_values: true,
    ..PLAIN
};

pub const ONLY: Argument = Argument {
    name: "only",
    help: "Of all rules check this one; may be given several times",
    takes: Takes::Values("RULE"),
    ..PLAIN
};

pub const IGNORE: Argument = Argument {
    name: "ignore",
    help: "Say nothing where this rule is broken; may be given several times",
    takes: Takes::Values("RULE"),
    ..PLAIN
};

pub const NO_CONFIG: Argument = Argument {
    name: "no-config",
    help: "Do not look for the file .ciderglen.toml of a folder",
    ..PLAIN
};
