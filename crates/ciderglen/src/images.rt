//! Image layouts, and the images in them, by what the command line calls them.
use crate::archives::Archive;
use crate::{cannot_read, is_folder, out_of_memory, tell_usage};
use clap::ArgMatches;
use oci_archive::{OnDisk, Packed};
use oci_base::line_of;
use oci_descriptor::Platform;
use oci_inspect::{Inspect, Part, Style, Wanted, inspect};
use oci_json::write_text;
use oci_layout::{Folder, ImageLayout};
use oci_select::platform_of_text;
use std::fs;
use std::io::IsTerminal;

/// What is named: the layout by its path, and the image in it by its name, if one is given.
#[derive(Clone, Copy)]
pub struct Named<'a> {
    pub path: &'a str,
    pub tag: Option<&'a str>,
}

/// What `PATH` or `PATH:TAG` names: the path is the whole word if there is something of that name, or if what stands before the last colon is
/// nothing either.
pub fn image_of<'a>(rt: &HostRuntime, word: &'a str) -> Named<'a> {
    let whole = Named {
        path: word,
        tag: None,
    };
    if word == "-" || fs::metadata(rt, word).is_ok() {
        return whole;
    }
    match word.rsplit_once(':') {
        Some((path, tag)) if path == "-" || fs::metadata(rt, path).is_ok() => Named {
            path,
            tag: Some(tag),
        },
        _ => whole,
    }
}

/// Shows the image that is named, as it is asked to be, and returns the exit status.
pub fn inspect_named(rt: &HostRuntime, given: &ArgMatches<'_>) -> u8 {
    let Some(word) = given.get_str("IMAGE") else {
        return 2;
    };
    let Named { path, tag } = image_of(rt, word);
    match platform_in(rt, given) {
        Ok(platform) => {
            let asked = Inspect {
                wanted: Wanted {
                    name: tag,
                    platform: platform.as_ref(),
                },
                part: part_in(given),
                style: style_in(given),
            };
            inspect_at(rt, path, &asked)
        }
        Err(status) => status,
    }
}

/// Shows an image of the layout at a path.
fn inspect_at(rt: &HostRuntime, path: &str, asked: &Inspect<'_>) -> u8 {
    if is_folder(rt, path) {
        return run(rt, &Folder { rt, root: path }, asked);
    }
    match Archive::open(rt, path) {
        Ok(archive) => {
            let source = OnDisk {
                file: &archive.file,
            };
            let packed = Packed {
                source: &source,
                index: &archive.index,
            };
            run(rt, &packed, asked)
        }
        Err(fault) => cannot_read(rt, path, &fault),
    }
}

fn run<L: ImageLayout>(rt: &HostRuntime, layout: &L, asked: &Inspect<'_>) -> u8 {
    let mut writer = rt.stdout();
    if !writer.is_terminal() {
        return inspect(layout, asked, rt.alloc(), &mut writer, &mut rt.stderr());
    }
    let mut bytes = Vec::new(rt.alloc());
    let status = inspect(layout, asked, rt.alloc(), &mut bytes, &mut rt.stderr());
    match str::from_utf8(bytes.as_slice()) {
        Ok(text) => show(rt, text, status),
        Err(_) => cannot_read(rt, "the image", &"not UTF-8"),
    }
}

/// Writes a text on a terminal, with the characters escaped that would do more there than be shown, and returns the exit status.
fn show(rt: &HostRuntime, text: &str, status: u8) -> u8 {
    let mut writer = rt.stdout();
    for line in text.lines() {
        match line_of(line, rt.alloc()) {
            Ok(line) => {
                if write_text(line.as_bytes(), &mut writer).is_err() {
                    return 3;
                }
            }
            Err(_) => return out_of_memory(rt),
        }
    }
    status
}

/// What is shown.
fn part_in(given: &ArgMatches<'_>) -> Part {
    if given.get_flag("manifest") {
        Part::Manifest
    } else if given.get_flag("config") {
        Part::Config
    } else if given.get_flag("digest") {
        Part::Digest
    } else {
        Part::Summary
    }
}

fn style_in(given: &ArgMatches<'_>) -> Style {
    match given.get_str("format") {
        Some("json") => Style::Json,
        _ => Style::Text,
    }
}

/// The platform that is wanted, if one is. The error is the exit status after what is wrong was said.
fn platform_in(rt: &HostRuntime, given: &ArgMatches<'_>) -> Result<Option<Platform>, u8> {
    let Some(text) = given.get_str("platform") else {
        return Ok(None);
    };
    match platform_of_text(rt.alloc(), text) {
        Ok(Some(platform)) => Ok(Some(platform)),
        Ok(None) => {
            let fault = "--platform takes OS/ARCH or OS/ARCH/VARIANT, as linux/arm64";
            tell_usage(rt, fault);
            Err(2)
        }
        Err(_) => Err(out_of_memory(rt)),
    }
}
