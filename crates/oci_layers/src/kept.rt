//! Whether an entry keeps a rule.
ghost use Rattle.std.specs.Prelude.{◌≡◌, ◌||◌, ◌&&◌, ℕ, List, not, is_some, option_map, string_bytes, bytes_eq};
ghost use Rattle.std.specs.BTreeSet.{contains_text};
ghost use Rattle.oci_rules.specs.Decided.{if_any};
ghost use Rattle.tar.specs.Entries.{Member, member_of, is_file as is_one};
ghost use Rattle.tar_folder.specs.Folders.{is_hard_link as is_link};
ghost use Rattle.tar_folder.specs.Paths.{entry_path, is_directory as is_folder};
ghost use Rattle.oci_layers.specs.Decided as decided;
ghost use Rattle.oci_layers.specs.Decided.{AreFactsOf, HasSeen, is_among};
ghost use Rattle.oci_layers.specs.Names.{opaque_name, text_in};

use crate::facts::Facts;
use crate::name::{Name, is_text};
use crate::rule::LayerRule;
use crate::seen::Seen;
use std::collections::BTreeSet;
use tar::{Entry, Kind};
use tar_folder::is_directory;

/// Whether an entry keeps a rule, beside those before it.
pub fn keeps(rule: LayerRule, seen: &Seen, entry: &Entry, facts: &Facts<'_>) -> bool
    ensures { (before : List Member) → HasSeen seen.now before → AreFactsOf facts.now (member_of entry.now)
        → result ≡ decided.keeps rule before (member_of entry.now) }
{
    match rule {
        LayerRule::Kind => is_known_kind(entry.kind),
        LayerRule::Sparse => !entry.sparse && !is_sparse_kind(entry.kind),
        LayerRule::PathOnce => is_new(seen, &facts.path),
        LayerRule::PathUnderLink => has_clear_folders(&seen.others, &facts.path),
        LayerRule::PathInside => is_path_inside(entry.kind, &facts.name),
        LayerRule::LinkInside => is_link_inside(entry.kind, &facts.link),
        LayerRule::HardLinkInside => !is_hard_link(entry.kind) || is_there(seen, &facts.target),
        LayerRule::HardLinkKind => !is_hard_link(entry.kind)
            || is_none_of(&seen.directories, &facts.target),
        LayerRule::WhiteoutEmpty => is_empty_whiteout(entry.kind, entry.size, facts.name.base),
        LayerRule::WhiteoutName => hides_name(facts.name.base),
        LayerRule::WhiteoutReserved => is_unreserved(facts.name.base),
        LayerRule::WhiteoutFirst => is_none_of(&seen.folders, &facts.tail.marked),
        LayerRule::WhiteoutSibling => {
            is_new(seen, &facts.tail.hidden) && is_none_of(&seen.hidden, &facts.path)
        }
        LayerRule::Opaque => is_not_opaque(facts.name.base),
    }
}

fn is_known_kind(kind: Kind) -> bool
    ensures { result ≡ decided.is_known_kind kind }
{
    match kind {
        Kind::Other(_) => false,
        _ => true,
    }
}

fn is_sparse_kind(kind: Kind) -> bool
    ensures { result ≡ decided.is_sparse_kind kind }
{
    match kind {
        Kind::Sparse => true,
        _ => false,
    }
}

fn is_hard_link(kind: Kind) -> bool
    ensures { result ≡ is_link kind }
{
    match kind {
        Kind::HardLink => true,
        _ => false,
    }
}

fn is_file(kind: Kind) -> bool
    ensures { result ≡ is_one kind }
{
    match kind {
        Kind::File => true,
        _ => false,
    }
}

/// Whether the path, if there is one, is that of no entry so far.
fn is_new(seen: &Seen, path: &Option<String>) -> bool
    ensures { (before : List Member) → HasSeen seen.now before
        → result ≡ if_any (λ p. not (is_among entry_path before p)) (option_map string_bytes path.now) }
{
    match path {
        Some(text) => !seen.has(text.as_str()),
        None => true,
    }
}

/// Whether the path, if there is one, is that of an entry so far.
fn is_there(seen: &Seen, path: &Option<String>) -> bool
    ensures { (before : List Member) → HasSeen seen.now before → result ≡ if_any (is_among entry_path before) (option_map string_bytes path.now) }
{
    match path {
        Some(text) => seen.has(text.as_str()),
        None => true,
    }
}

/// Whether the path, if there is one, is none of the set.
fn is_none_of(set: &BTreeSet<String>, path: &Option<String>) -> bool
    ensures { result ≡ if_any (λ p. not (contains_text set.now p)) (option_map string_bytes path.now) }
{
    match path {
        Some(text) => !set.contains(text.as_str()),
        None => true,
    }
}

/// Whether the folders above the path, if there is one, are none of the set.
fn has_clear_folders(set: &BTreeSet<String>, path: &Option<String>) -> bool
    ensures { result ≡ if_any (decided.is_clear (contains_text set.now)) (option_map string_bytes path.now) }
{
    match path {
        Some(text) => is_clear(set, text.as_str()),
        None => true,
    }
}

/// Whether the folders above the path are none of the set.
fn is_clear(set: &BTreeSet<String>, path: &str) -> bool
    ensures { result ≡ decided.is_clear (contains_text set.now) path.now }
{
    let bytes = path.as_bytes();
    let mut clear = true;
    'folders: for at in 0..bytes.len() {
        if bytes[at] == b'/' && set.contains(&path[..at]) {
            clear = false;
        }
    }
    clear
}

/// Whether a name leads to a path within the root; only a directory can be the root itself.
fn is_path_inside(kind: Kind, name: &Name<'_>) -> bool
    ensures { result ≡ (not name.now.leads_out && (is_some (text_in name.now.base) || is_folder kind)) }
{
    !name.leads_out && (name.base.is_some() || is_directory(kind))
}

/// Whether the target of a hard link leads to a path within the root.
fn is_link_inside(kind: Kind, link: &Name<'_>) -> bool
    ensures { result ≡ (not (is_link kind) || (not link.now.leads_out && is_some (text_in link.now.base))) }
{
    !is_hard_link(kind) || (!link.leads_out && link.base.is_some())
}

/// Whether it is no whiteout, or a file of no bytes.
fn is_empty_whiteout(kind: Kind, size: u64, base: Option<&[u8]>) -> bool
    ensures { result ≡ if_any (decided.is_empty_whiteout kind size) (text_in base.entry) }
{
    match base {
        Some(name) => !name.starts_with(b".wh.") || (is_file(kind) && size == 0),
        None => true,
    }
}

/// Whether it is no whiteout, or one of a name.
fn hides_name(base: Option<&[u8]>) -> bool
    ensures { result ≡ if_any decided.hides_name (text_in base.entry) }
{
    match base {
        Some(name) => !is_text(name, ".wh.") && !is_text(name, ".wh..") && !is_text(name, ".wh..."),
        None => true,
    }
}

/// Whether it is no whiteout, or one of a name that AUFS does not have for itself.
fn is_unreserved(base: Option<&[u8]>) -> bool
    ensures { result ≡ if_any decided.is_unreserved (text_in base.entry) }
{
    match base {
        Some(name) => !name.starts_with(b".wh..wh.") || is_text(name, ".wh..wh..opq"),
        None => true,
    }
}

/// Whether it is no opaque whiteout.
fn is_not_opaque(base: Option<&[u8]>) -> bool
    ensures { result ≡ if_any (λ b. not (bytes_eq b opaque_name)) (text_in base.entry) }
{
    match base {
        Some(name) => !is_text(name, ".wh..wh..opq"),
        None => true,
    }
}
