//! The file `.ciderglen.toml`, in which a folder says how the documents below it are checked.
use crate::line::keep;
use crate::tell;
use oci_base::line_of;
use oci_commands::Unknown;
use oci_commands::texts::complain;
use oci_policies::Bump;
use oci_rules::Level;
use std::alloc::{AllocError, Global};
use std::io::ErrorKind;
use std::{env, fs};
use toml::{Table, Value};

/// The name of the file.
const NAME: &str = ".ciderglen.toml";

/// The members that the file may have.
const MEMBERS: [&str; 8] = [
    "rules",
    "policy",
    "level",
    "unknown",
    "skip-unknown",
    "only",
    "ignore",
    "strict",
];

/// How the documents below a folder are checked, as far as its file says.
#[derive(Clone, Copy)]
pub struct Config<'a> {
    /// The path of the file; empty where there is none.
    pub path: &'a str,
    pub rules: bool,
    pub policy: Option<&'a str>,
    pub level: Option<Level>,
    pub unknown: Option<Unknown>,
    pub skip_unknown: bool,
    pub only: &'a [&'a str],
    pub ignore: &'a [&'a str],
    pub strict: bool,
}

impl<'a> Config<'a> {
    /// The one that says nothing.
    pub fn none() -> Config<'a> {
        Config {
            path: "",
            rules: false,
            policy: None,
            level: None,
            unknown: None,
            skip_unknown: false,
            only: &[],
            ignore: &[],
            strict: false,
        }
    }

    /// The one for the working folder: its own file, or that of the nearest folder above it that has one, as far as the top of a Git
    /// repository. The error is the exit status: 2 if the file is wrong, which is said, and 3 if it cannot be read, or if out of memory.
    pub fn find(rt: &HostRuntime, arena: &'a Bump) -> Result<Config<'a>, u8> {
        let Ok(folder) = env::current_dir(rt) else {
            return read_if_there(rt, "", arena).map(or_none);
        };
        let mut folder = folder.as_str();
        let mut shown = "";
        for _ in 0..folder.len().saturating_add(1) {
            if let Some(found) = read_if_there(rt, shown, arena)? {
                return Ok(found);
            }
            if is_top(rt, folder) {
                break;
            }
            folder = above(folder);
            shown = folder;
        }
        Ok(Config::none())
    }
}

fn or_none<'a>(found: Option<Config<'a>>) -> Config<'a> {
    found.unwrap_or(Config::none())
}

/// The folder above a folder.
fn above(folder: &str) -> &str {
    match folder.rsplit_once('/') {
        Some(("", _)) | None => "/",
        Some((above, _)) => above,
    }
}

/// Whether no folder is looked at above this one.
fn is_top(rt: &HostRuntime, folder: &str) -> bool {
    if folder == "/" {
        return true;
    }
    match joined(folder, ".git", rt.alloc()) {
        Ok(path) => fs::metadata(rt, path.as_str()).is_ok(),
        Err(_) => true,
    }
}

/// The path of a file in a folder; the empty folder is the working folder.
fn joined(folder: &str, name: &str, alloc: Global) -> Result<String, AllocError> {
    if folder.is_empty() {
        return String::from_str(alloc, name);
    }
    let folder = folder.trim_end_matches('/');
    format!(in alloc; "{folder}/{name}")
}

/// What the file of a folder says, if there is one.
fn read_if_there<'a>(
    rt: &HostRuntime,
    folder: &str,
    arena: &'a Bump,
) -> Result<Option<Config<'a>>, u8> {
    let Ok(path) = joined(folder, NAME, rt.alloc()) else {
        return Err(crate::out_of_memory(rt));
    };
    match fs::read_to_string(rt, path.as_str()) {
        Ok(text) => match read(text.as_str(), folder, path.as_str(), arena, rt.alloc()) {
            Ok(config) => Ok(Some(config)),
            Err(fault) => Err(refuse(rt, path.as_str(), &fault)),
        },
        Err(fault) if fault.kind() == ErrorKind::NotFound => Ok(None),
        Err(fault) => {
            tell(rt, path.as_str(), &fault);
            Err(3)
        }
    }
}

/// Says what is wrong with a file, and returns the exit status.
fn refuse(rt: &HostRuntime, path: &str, fault: &ConfigFault) -> u8 {
    match fault {
        ConfigFault::Memory => crate::out_of_memory(rt),
        ConfigFault::Wrong { line, told } => {
            say_wrong(rt, path, *line, told.as_str());
            2
        }
    }
}

/// Says what is wrong with a line of a file, as findings are said.
fn say_wrong(rt: &HostRuntime, path: &str, line: usize, told: &str) {
    if let Ok(line) = wrong_line(path, line, told, rt.alloc()) {
        complain(line.as_str(), &mut rt.stderr());
    }
}

fn wrong_line(path: &str, line: usize, told: &str, alloc: Global) -> Result<String, AllocError> {
    let text = format!(in alloc; "{path}:{line}: {told} [config]")?;
    line_of(text.as_str(), alloc)
}

/// What is wrong with a file.
#[derive(Drop)]
enum ConfigFault {
    Memory,
    Wrong { line: usize, told: String },
}

impl From<AllocError> for ConfigFault {
    fn from(_refused: AllocError) -> ConfigFault {
        ConfigFault::Memory
    }
}

/// Reads the text of a file.
fn read<'a>(
    text: &str,
    folder: &str,
    path: &str,
    arena: &'a Bump,
    alloc: Global,
) -> Result<Config<'a>, ConfigFault> {
    let table = match toml::table_from_str(alloc, text) {
        Ok(table) => table,
        Err(error) => return Err(not_toml(text, &error, alloc)?),
    };
    let reader = Reader {
        text,
        table: &table,
        arena,
        alloc,
    };
    reader.refuse_others()?;
    let policy = match reader.text("policy")? {
        Some(file) => Some(reader.beside(folder, file)?),
        None => None,
    };
    Ok(Config {
        path: arena.try_alloc_str(path)?,
        rules: reader.flag("rules")?,
        policy,
        level: reader.level()?,
        unknown: reader.unknown()?,
        skip_unknown: reader.flag("skip-unknown")?,
        only: reader.names("only")?,
        ignore: reader.names("ignore")?,
        strict: reader.flag("strict")?,
    })
}

/// That a text is no TOML.
fn not_toml(text: &str, error: &toml::de::Error, alloc: Global) -> Result<ConfigFault, AllocError> {
    if error.is_memory() {
        return Ok(ConfigFault::Memory);
    }
    let start = error.span().map(|span| span.start).unwrap_or(0);
    let front = text.get(..start).unwrap_or(text);
    let said = error.message();
    Ok(ConfigFault::Wrong {
        line: front.split('\n').count(),
        told: format!(in alloc; "not TOML: {said}")?,
    })
}

/// Reads the members of a file.
struct Reader<'t, 'a> {
    text: &'t str,
    table: &'t Table,
    arena: &'a Bump,
    alloc: Global,
}

impl<'t, 'a> Drop for Reader<'t, 'a> {
    fn drop(self) {
        let Reader {
            text,
            table,
            arena,
            alloc,
        } = self;
    }
}

impl<'t, 'a> Reader<'t, 'a> {
    /// Fails if there is a member that the file may not have.
    fn refuse_others(&self) -> Result<(), ConfigFault> {
        for (name, _) in self.table {
            if !MEMBERS.contains(&name.as_str()) {
                return Err(self.wrong(name.as_str(), "unknown member")?);
            }
        }
        Ok(())
    }

    /// What is wrong with a member, in the first line that begins with its name.
    fn wrong(&self, name: &str, told: &str) -> Result<ConfigFault, AllocError> {
        let told = format!(in self.alloc; "/{name}: {told}")?;
        Ok(ConfigFault::Wrong {
            line: line_with(self.text, name),
            told,
        })
    }

    fn flag(&self, name: &str) -> Result<bool, ConfigFault> {
        match self.table.get(name) {
            None => Ok(false),
            Some(value) => match value.as_bool() {
                Some(is_set) => Ok(is_set),
                None => Err(self.wrong(name, "expected true or false")?),
            },
        }
    }

    fn text(&self, name: &str) -> Result<Option<&'t str>, ConfigFault> {
        match self.table.get(name) {
            None => Ok(None),
            Some(value) => match value.as_str() {
                Some(text) => Ok(Some(text)),
                None => Err(self.wrong(name, "expected a string")?),
            },
        }
    }

    /// The path of a file whose path is relative to a folder.
    fn beside(&self, folder: &str, file: &str) -> Result<&'a str, AllocError> {
        if file.starts_with('/') {
            return self.arena.try_alloc_str(file);
        }
        self.arena
            .try_alloc_str(joined(folder, file, self.alloc)?.as_str())
    }

    fn level(&self) -> Result<Option<Level>, ConfigFault> {
        let Some(word) = self.text("level")? else {
            return Ok(None);
        };
        match Level::from_word(word) {
            Some(level) => Ok(Some(level)),
            None => Err(self.wrong("level", "expected must, stated, should or host")?),
        }
    }

    fn unknown(&self) -> Result<Option<Unknown>, ConfigFault> {
        match self.text("unknown")? {
            None => Ok(None),
            Some("deny") => Ok(Some(Unknown::Deny)),
            Some("warn") => Ok(Some(Unknown::Warn)),
            Some("allow") => Ok(Some(Unknown::Allow)),
            Some(_) => Err(self.wrong("unknown", "expected deny, warn or allow")?),
        }
    }

    /// The names of an array: each is a string, or the member `rule` of a table, which may say the `reason`.
    fn names(&self, member: &str) -> Result<&'a [&'a str], ConfigFault> {
        let Some(value) = self.table.get(member) else {
            return Ok(&[]);
        };
        let Some(items) = value.as_array() else {
            return Err(self.wrong(member, "expected an array")?);
        };
        let mut names: Vec<&'a str> = Vec::new(self.alloc);
        for item in items {
            match name_in(item) {
                Some(name) => keep(name, self.arena, &mut names)?,
                None => {
                    return Err(self.wrong(
                        member,
                        "expected the name of a rule, or a table with rule and reason",
                    )?);
                }
            }
        }
        Ok(self.arena.try_alloc_slice_copy(names.as_slice())?)
    }
}

/// The name of a rule: a string, or a member of a table that has a reason beside it alone.
fn name_in(item: &Value) -> Option<&str> {
    let Some(table) = item.as_table() else {
        return item.as_str();
    };
    let name = table.get("rule")?.as_str()?;
    let reason = table.get("reason")?.as_str()?;
    if table.len() == 2 && !reason.is_empty() {
        Some(name)
    } else {
        None
    }
}

/// The first line that begins with a name, also as that of a table.
fn line_with(text: &str, name: &str) -> usize {
    let mut line: usize = 0;
    for it in text.split('\n') {
        line = line.saturating_add(1);
        let begin = it.trim_start().trim_start_matches('[').trim_start();
        if let Some(rest) = begin.trim_start_matches('"').strip_prefix(name) {
            if !goes_on(rest) {
                return line;
            }
        }
    }
    1
}

/// Whether a name goes on with this text.
fn goes_on(rest: &str) -> bool {
    match rest.chars().next() {
        Some(c) => c.is_alphanumeric() || c == '-' || c == '_',
        None => false,
    }
}

/// Says that no rule has a name of a file, and returns the exit status.
pub fn refuse_name(rt: &HostRuntime, config: &Config<'_>, member: &str, name: &str) -> u8 {
    let alloc = rt.alloc();
    let line = match fs::read_to_string(rt, config.path) {
        Ok(text) => line_of_name(text.as_str(), member, name),
        Err(_) => 1,
    };
    if let Ok(told) = format!(in alloc; "/{member}: no rule has the name {name}") {
        say_wrong(rt, config.path, line, told.as_str());
    }
    2
}

/// The first line with a name in quotes, or else that of the member.
fn line_of_name(text: &str, member: &str, name: &str) -> usize {
    let mut line: usize = 0;
    for it in text.split('\n') {
        line = line.saturating_add(1);
        if it.contains(name) {
            return line;
        }
    }
    line_with(text, member)
}
