//! The commands of the program as clap's, made from the table of them.
use crate::described::{Argument, Bond, Described, Takes};
use crate::table::{BOOKS, CHECKING, FORMATTING, IMAGES, NAMES};
use clap::builder::ValueParser;
use clap::{Arg, ArgAction, Command};
use oci_findings::sarif::VERSION;
use std::alloc::{AllocError, Global};

/// What the exit status says. No line of a help text has more than 100 columns: clap breaks none.
const STATUS: &str = "Exit status:
  0  done, and nothing is wrong
  1  the input is wrong
  2  the command line is wrong
  3  a file cannot be read or written";

const ABOUT: &str =
    "Checks, formats, compares and shows JSON documents of the Open Container Initiative";

/// Adds what the argument takes.
fn taking<'a>(arg: Arg<'a>, it: &Argument) -> Arg<'a> {
    match it.takes {
        Takes::Nothing => arg.long(it.name).action(ArgAction::SetTrue),
        Takes::Value(name) => arg.long(it.name).value_name(name),
        Takes::Values(name) => arg.long(it.name).value_name(name).action(ArgAction::Append),
        Takes::Maybe => arg,
        Takes::Word => arg.required(true),
        Takes::Words => arg.required(true).num_args(1..),
        Takes::Any => arg.num_args(0..),
    }
}

/// Adds the short name.
fn with_short<'a>(arg: Arg<'a>, it: &Argument) -> Arg<'a> {
    match it.short {
        Some(short) => arg.short(short),
        None => arg,
    }
}

/// Adds the values that it may have.
fn with_values<'a>(arg: Arg<'a>, it: &Argument) -> Arg<'a> {
    if it.values.is_empty() {
        arg
    } else {
        arg.value_parser(ValueParser::Names(it.values))
            .hide_possible_values(it.lists_values)
    }
}

/// Adds what it says of another.
fn with_bond<'a>(arg: Arg<'a>, it: &Argument) -> Result<Arg<'a>, AllocError> {
    match it.bond {
        Bond::Free => Ok(arg),
        Bond::Without(others) => without(arg, others),
        Bond::With(other) => arg.required_if_eq(other, "true"),
    }
}

/// Adds that it cannot be given with those options.
fn without<'a>(mut arg: Arg<'a>, others: &[&'static str]) -> Result<Arg<'a>, AllocError> {
    for other in others {
        arg = arg.conflicts_with(other)?;
    }
    Ok(arg)
}

fn arg_of<'a>(alloc: Global, it: &'static Argument) -> Result<Arg<'a>, AllocError> {
    let arg = Arg::new(alloc, it.name)
        .help(it.help)
        .default_values(it.default);
    with_bond(with_values(with_short(taking(arg, it), it), it), it)
}

fn command_of<'a>(alloc: Global, it: &'static Described) -> Result<Command<'a>, AllocError> {
    let mut command = Command::new(alloc, it.name)
        .about(it.about)
        .after_help(it.example);
    for it in it.arguments {
        command = command.arg(arg_of(alloc, it)?)?;
    }
    Ok(command)
}

/// The program, with no commands yet.
fn program<'a>(alloc: Global) -> Result<Command<'a>, AllocError> {
    Command::new(alloc, "ciderglen")
        .version(VERSION)
        .about(ABOUT)
        .after_help(STATUS)
        .subcommand_required(true)
        .arg_required_else_help(true)
        .bin_name("ciderglen")
}

/// Adds these commands.
fn adding<'a>(
    mut program: Command<'a>,
    commands: &'static [Described],
    alloc: Global,
) -> Result<Command<'a>, AllocError> {
    for it in commands {
        program = program.subcommand(command_of(alloc, it)?)?;
    }
    Ok(program)
}

fn with_check<'a>(program: Command<'a>, alloc: Global) -> Result<Command<'a>, AllocError> {
    adding(program, &CHECKING, alloc)
}

fn with_format<'a>(program: Command<'a>, alloc: Global) -> Result<Command<'a>, AllocError> {
    adding(program, &FORMATTING, alloc)
}

fn with_images<'a>(program: Command<'a>, alloc: Global) -> Result<Command<'a>, AllocError> {
    adding(program, &IMAGES, alloc)
}

fn with_names<'a>(program: Command<'a>, alloc: Global) -> Result<Command<'a>, AllocError> {
    adding(program, &NAMES, alloc)
}

fn with_books<'a>(program: Command<'a>, alloc: Global) -> Result<Command<'a>, AllocError> {
    adding(program, &BOOKS, alloc)
}

/// The program's command.
pub fn ciderglen<'a>(alloc: Global) -> Result<Command<'a>, AllocError> {
    let documents = with_format(with_check(program(alloc)?, alloc)?, alloc)?;
    let images = with_images(documents, alloc)?;
    with_books(with_names(images, alloc)?, alloc)
}
