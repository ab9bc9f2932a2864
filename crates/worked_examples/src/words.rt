//! The words of the command line: the order that they give, and the commands and options of the
//! program's help, beside those in a text that tells them to a shell or to a reader.

use pb_cli::{ParseFault, parse};
use pb_program::FILLS;
use rows::page::{Done, NO_ROW, Page, Trouble};
use std::alloc::{AllocError, Global};
use std::fs;

pub(crate) fn answer(rt: &HostRuntime, page: &mut Page, call: &[&str]) -> Done {
    match call {
        ["parse", words @ ..] => tell_parsed(page, words),
        ["fills"] => {
            page.put_display(&FILLS);
            Ok(())
        }
        ["text", text] => tell_found(page, text),
        ["file", path] => match fs::read_to_string(rt, *path) {
            Ok(text) => tell_found(page, text.as_str()),
            Err(_fault) => NO_ROW,
        },
        _ => NO_ROW,
    }
}

/// The order that a command line gives, or whether its text is shown instead.
fn tell_parsed(page: &mut Page, words: &[&str]) -> Done {
    match parse(page.alloc, words) {
        Ok(order) => page.put_debug(&order),
        Err(ParseFault::Usage(_text)) => page.put("usage"),
        Err(ParseFault::Memory) => page.put("memory"),
    }
    Ok(())
}

/// The commands and the options of the help, each with whether the text has it, and the options
/// that the text has beside them.
fn tell_found(page: &mut Page, text: &str) -> Done {
    let plain = plain_of(page.alloc, text)?;
    let first = help_of(page.alloc, &["pbook", "--help"])?;
    let commands = commands_of(page.alloc, first.as_str())?;
    let help = helps_of(page.alloc, first.as_str(), commands.as_slice())?;
    let words = plain.as_str().split(|c: char| !c.is_ascii_lowercase());
    let words: Vec<&str> = words.collect(page.alloc)?;
    tell_wanted(page, "commands", commands.as_slice(), words.as_slice());
    let wanted = options_of(page.alloc, help.as_str())?;
    let found = options_of(page.alloc, plain.as_str())?;
    tell_wanted(page, "\noptions", wanted.as_slice(), found.as_slice());
    for option in &found {
        if !has(wanted.as_slice(), option) {
            page.put_count(" beside ", option);
        }
    }
    Ok(())
}

/// A text with `--` before each long option: a manual page has a backslash before each hyphen, and
/// fish's `complete` has `-l` there, as its `set` has before a variable.
fn plain_of(alloc: Global, written: &str) -> Result<String, AllocError> {
    let plain = written.replace(alloc, "\\-", "-")?;
    let plain = plain.as_str().replace(alloc, "set -l ", "set ")?;
    plain.as_str().replace(alloc, " -l ", " --")
}

/// The text that the program shows for words that ask for its help.
fn help_of(alloc: Global, words: &[&str]) -> Result<String, Trouble> {
    match parse(alloc, words) {
        Err(ParseFault::Usage(text)) => Ok(text),
        Err(ParseFault::Memory) => Err(Trouble::Memory),
        Ok(_order) => Err(Trouble::Row),
    }
}

/// The commands that a help lists, each in a line between `Commands:` and an empty line.
fn commands_of(alloc: Global, help: &str) -> Result<Vec<&str>, Trouble> {
    let mut commands = Vec::new(alloc);
    let (_head, list) = help.split_once("Commands:\n").unwrap_or(("", ""));
    for line in list.lines() {
        match line.split_whitespace().next() {
            Some(command) => commands.push(command)?,
            None => return Ok(commands),
        }
    }
    Ok(commands)
}

/// The help and, after it, that of each of its commands.
fn helps_of(alloc: Global, first: &str, commands: &[&str]) -> Result<String, Trouble> {
    let mut helps = String::new(alloc);
    helps.push_str(first)?;
    for command in commands {
        helps.push_str(help_of(alloc, &["pbook", *command, "--help"])?.as_str())?;
    }
    Ok(helps)
}

/// The long options in a text, each once, without their hyphens.
fn options_of(alloc: Global, text: &str) -> Result<Vec<&str>, Trouble> {
    let mut options: Vec<&str> = Vec::new(alloc);
    for word in text.split(|c: char| c != '-' && !c.is_ascii_lowercase()) {
        match word.strip_prefix("--") {
            Some(option) if !option.is_empty() && !has(options.as_slice(), option) => {
                options.push(option)?;
            }
            _ => {}
        }
    }
    Ok(options)
}

fn has(words: &[&str], wanted: &str) -> bool {
    words.iter().any(|word| *word == wanted)
}

fn tell_wanted(page: &mut Page, name: &str, wanted: &[&str], found: &[&str]) {
    page.put(name);
    for word in wanted {
        page.put_count(if has(found, word) { " " } else { " without " }, word);
    }
}
