//! What the words of the command line ask for.
use crate::commands::ciderglen;
use clap::error::ErrorKind;
use clap::{ArgMatches, Error};
use oci_base::escaped;
use oci_commands::{Asked, Compare, Format, Outline, Style, Target, Unknown};
use oci_content::Algorithm;
use oci_findings::kind_named;
use oci_policies::Bump;
use oci_rules::{Level, RuntimePlatform};
use oci_schemas::Kind;
use std::alloc::{AllocError, Global};

/// The command and its arguments, or a text to be shown in their place.
pub fn matches_of<'a>(alloc: Global, words: &'a [String]) -> Result<ArgMatches<'a>, Error> {
    ciderglen(alloc)?.try_get_matches_from(words)
}

/// The exit status after a text was shown in place of a command.
pub fn status_of(error: &Error) -> u8 {
    match error.kind() {
        ErrorKind::DisplayHelp | ErrorKind::DisplayVersion => 0,
        ErrorKind::OutOfMemory => 3,
        _ => 2,
    }
}

/// What the options of `check` lack, if one of them says how rules are checked and none are, unless others are.
pub fn lack_in(given: &ArgMatches<'_>, has_rules: bool) -> Option<&'static str> {
    if has_rules || given.get_flag("rules") {
        None
    } else if given.get_str("level").is_some() {
        Some("--level chooses among rules, and none are checked: add --rules or --policy FILE")
    } else if given.get_str("platform").is_some() {
        Some("--platform chooses among rules, and none are checked: add --rules or --policy FILE")
    } else if given.get_str("only").is_some() {
        Some("--only chooses among rules, and none are checked: add --rules or --policy FILE")
    } else {
        None
    }
}

/// What the options of `fmt` lack, if they do not say what becomes of these files.
pub fn lack_of_files(given: &ArgMatches<'_>, formats: &[Format<'_>]) -> Option<&'static str> {
    if given.get_flag("write") {
        if formats.iter().any(|it| it.file == "-") {
            Some("--write takes the names of files, and standard input has none")
        } else {
            None
        }
    } else if formats.len() > 1 && !given.get_flag("check") {
        Some("several files are written in place with --write, or compared with --check")
    } else {
        None
    }
}

/// What the options of `digest` lack, if one of them says how parts are written and none are.
pub fn lack_in_digest(given: &ArgMatches<'_>) -> Option<&'static str> {
    if given.get_flag("parse") || given.get_str("format") != Some("json") {
        None
    } else {
        Some("--format says how the parts of digests are written, and none are: add --parse")
    }
}

/// What is wrong with the options of `pin`, if they say no digest or several.
pub fn fault_in_pin(given: &ArgMatches<'_>) -> Option<&'static str> {
    let mut count: u8 = 0;
    for name in ["FILE", "digest", "manifest", "layout"] {
        if given.get_str(name).is_some() {
            count = count.saturating_add(1);
        }
    }
    if count > 1 {
        Some("FILE, --digest, --manifest and --layout each say the digest: give one of them")
    } else if given.get_str("layout").is_some() != given.get_str("tag").is_some() {
        Some("--layout and --tag say the digest together: give both")
    } else {
        None
    }
}

/// The words with each character escaped that would end a line or move a terminal's cursor, so that they can be shown.
pub fn escaped_words(words: &[String], alloc: Global) -> Result<Vec<String>, AllocError> {
    let mut shown = Vec::new(alloc);
    for word in words {
        shown.push(escaped(word.as_str(), alloc)?)?;
    }
    Ok(shown)
}

/// The command of this name that its arguments ask for, beside `check`; what it names is kept in the arena. Fails if out of memory.
pub fn asked<'a>(
    name: &str,
    given: &ArgMatches<'_>,
    has_colors: bool,
    arena: &'a Bump,
    alloc: Global,
) -> Result<Option<Asked<'a>>, AllocError> {
    match name {
        "diff" => Ok(Some(Asked::Compare(compare_in(given, has_colors, arena)?))),
        _ => asked_of_texts(name, given, arena, alloc),
    }
}

/// The same of the commands on texts and on files of any kind.
fn asked_of_texts<'a>(
    name: &str,
    given: &ArgMatches<'_>,
    arena: &'a Bump,
    alloc: Global,
) -> Result<Option<Asked<'a>>, AllocError> {
    match name {
        "kind" => Ok(Some(kinds_in(given, arena, alloc)?)),
        "ref" => Ok(Some(reference_in(given, arena, alloc)?)),
        "digest" => Ok(Some(digest_in(given, arena, alloc)?)),
        "pin" => Ok(Some(pin_in(given, arena, alloc)?)),
        _ => asked_of_books(name, given, arena),
    }
}

/// The same of the commands that show rules and schemas.
fn asked_of_books<'a>(
    name: &str,
    given: &ArgMatches<'_>,
    arena: &'a Bump,
) -> Result<Option<Asked<'a>>, AllocError> {
    match name {
        "rules" => Ok(Some(rules_in(given, arena)?)),
        "explain" => Ok(Some(Asked::Explain(text_in(given, "RULE", arena)?))),
        "schema" => Ok(schema_in(given)),
        _ => Ok(None),
    }
}

fn reference_in<'a>(
    given: &ArgMatches<'_>,
    arena: &'a Bump,
    alloc: Global,
) -> Result<Asked<'a>, AllocError> {
    let texts = texts_in(given, "TEXT", arena, alloc)?;
    Ok(Asked::Reference(style_in(given, false), texts))
}

fn kinds_in<'a>(
    given: &ArgMatches<'_>,
    arena: &'a Bump,
    alloc: Global,
) -> Result<Asked<'a>, AllocError> {
    let files = texts_in(given, "FILE", arena, alloc)?;
    Ok(Asked::Kinds(style_in(given, false), files))
}

fn rules_in<'a>(given: &ArgMatches<'_>, arena: &'a Bump) -> Result<Asked<'a>, AllocError> {
    let name = text_if(given, "NAME", arena)?;
    Ok(Asked::Rules(style_in(given, false), name))
}

fn digest_in<'a>(
    given: &ArgMatches<'_>,
    arena: &'a Bump,
    alloc: Global,
) -> Result<Asked<'a>, AllocError> {
    let texts = texts_in(given, "FILE", arena, alloc)?;
    if given.get_flag("parse") {
        return Ok(Asked::Digest(style_in(given, false), texts));
    }
    let algorithm = algorithm_in(given);
    if given.get_flag("check") {
        return Ok(Asked::CheckDigests(algorithm, texts));
    }
    Ok(Asked::FileDigests(algorithm, texts))
}

fn pin_in<'a>(
    given: &ArgMatches<'_>,
    arena: &'a Bump,
    alloc: Global,
) -> Result<Asked<'a>, AllocError> {
    let text = text_in(given, "TEXT", arena)?;
    match target_in(given, arena, alloc)? {
        Some(target) => Ok(Asked::PinTo(text, target)),
        None => Ok(Asked::Pin(text, text_in(given, "FILE", arena)?)),
    }
}

/// The digest to which a reference is pinned, unless it is that of a descriptor in a file.
fn target_in<'a>(
    given: &ArgMatches<'_>,
    arena: &'a Bump,
    alloc: Global,
) -> Result<Option<Target<'a>>, AllocError> {
    if let Some(digest) = text_if(given, "digest", arena)? {
        return Ok(Some(Target::Given(digest)));
    }
    if let Some(file) = text_if(given, "manifest", arena)? {
        return Ok(Some(Target::Manifest(file)));
    }
    match (given.get_str("layout"), text_if(given, "tag", arena)?) {
        (Some(folder), Some(tag)) => {
            let index = format!(in alloc; "{folder}/index.json")?;
            let index = arena.try_alloc_str(index.as_str())?;
            Ok(Some(Target::Tagged(index, tag)))
        }
        _ => Ok(None),
    }
}

/// The files that `fmt` is asked to format, and how each is: to which file, with `--write` itself, or to standard output.
pub fn formats_in<'a>(
    given: &ArgMatches<'_>,
    arena: &'a Bump,
    alloc: Global,
) -> Result<Vec<Format<'a>>, AllocError> {
    let output = text_if(given, "output", arena)?;
    let mut formats = Vec::new(alloc);
    for file in texts_in(given, "FILE", arena, alloc)? {
        let output = if given.get_flag("write") {
            Some(*file)
        } else {
            output
        };
        formats.push(format_in(given, file, output))?;
    }
    Ok(formats)
}

fn format_in<'a>(given: &ArgMatches<'_>, file: &'a str, output: Option<&'a str>) -> Format<'a> {
    Format {
        kind: kind_in(given),
        pretty: given.get_flag("pretty"),
        check: given.get_flag("check"),
        quiet: given.get_flag("quiet"),
        verbose: given.get_flag("verbose"),
        keep_unknown: given.get_flag("keep-unknown"),
        drop_unknown: given.get_flag("drop-unknown"),
        output,
        file,
    }
}

fn compare_in<'a>(
    given: &ArgMatches<'_>,
    has_colors: bool,
    arena: &'a Bump,
) -> Result<Compare<'a>, AllocError> {
    Ok(Compare {
        kind: kind_in(given),
        style: style_in(given, has_colors),
        quiet: given.get_flag("quiet"),
        before: text_in(given, "A", arena)?,
        after: text_in(given, "B", arena)?,
    })
}

fn schema_in<'a>(given: &ArgMatches<'_>) -> Option<Asked<'a>> {
    let outline = match given.get_str("format") {
        Some("json-schema") => Outline::JsonSchema,
        _ => Outline::Table,
    };
    Some(Asked::Schema(outline, kind_named(given.get_str("KIND")?)?))
}

pub fn level_in(given: &ArgMatches<'_>) -> Option<Level> {
    given.get_str("level").and_then(Level::from_word)
}

pub fn platform_in(given: &ArgMatches<'_>) -> Option<RuntimePlatform> {
    RuntimePlatform::from_word(given.get_str("platform")?)
}

pub fn unknown_in(given: &ArgMatches<'_>) -> Option<Unknown> {
    match given.get_str("unknown")? {
        "deny" => Some(Unknown::Deny),
        "warn" => Some(Unknown::Warn),
        _ => Some(Unknown::Allow),
    }
}

pub fn kind_in(given: &ArgMatches<'_>) -> Option<Kind> {
    kind_named(given.get_str("kind")?)
}

/// How findings and differences are written; lines for people in colours, or not.
pub fn style_in(given: &ArgMatches<'_>, has_colors: bool) -> Style {
    match given.get_str("format") {
        Some("json") => Style::Json,
        Some("sarif") => Style::Sarif,
        Some("github") => Style::Github,
        _ if has_colors => Style::Color,
        _ => Style::Text,
    }
}

fn algorithm_in(given: &ArgMatches<'_>) -> Algorithm {
    match given.get_str("algorithm") {
        Some(name) => Algorithm::from_name(name).unwrap_or(Algorithm::Sha256),
        None => Algorithm::Sha256,
    }
}

/// The texts or files under a name, or the name of standard input.
fn texts_in<'a>(
    given: &ArgMatches<'_>,
    name: &str,
    arena: &'a Bump,
    alloc: Global,
) -> Result<&'a [&'a str], AllocError> {
    let mut kept = Vec::new(alloc);
    match given.get_strs(name) {
        Some(texts) => {
            for text in texts {
                keep(text, arena, &mut kept)?;
            }
        }
        None => keep("-", arena, &mut kept)?,
    }
    let kept = arena.try_alloc_slice_copy(kept.as_slice())?;
    Ok(kept)
}

/// The names under an option, or else these.
pub fn names_in<'a>(
    given: &ArgMatches<'_>,
    option: &str,
    others: &'a [&'a str],
    arena: &'a Bump,
    alloc: Global,
) -> Result<&'a [&'a str], AllocError> {
    if given.get_strs(option).is_some() {
        texts_in(given, option, arena, alloc)
    } else {
        Ok(others)
    }
}

/// Adds a text that is kept in the arena.
pub fn keep<'a>(text: &str, arena: &'a Bump, kept: &mut Vec<&'a str>) -> Result<(), AllocError> {
    kept.push(arena.try_alloc_str(text)?)?;
    Ok(())
}

/// The text or file under a name, if there is one.
fn text_if<'a>(
    given: &ArgMatches<'_>,
    name: &str,
    arena: &'a Bump,
) -> Result<Option<&'a str>, AllocError> {
    match given.get_str(name) {
        Some(text) => Ok(Some(arena.try_alloc_str(text)?)),
        None => Ok(None),
    }
}

/// The text or file under a name, or the name of standard input.
fn text_in<'a>(given: &ArgMatches<'_>, name: &str, arena: &'a Bump) -> Result<&'a str, AllocError> {
    arena.try_alloc_str(given.get_str(name).unwrap_or("-"))
}
