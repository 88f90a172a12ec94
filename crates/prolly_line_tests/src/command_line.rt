//! The command line in use: that words are taken, which no clause can promise, since memory may run
//! out, and what they come to as a person reads them.
use crate::commands::fields_of;
use crate::expect::expect_eq;
use prolly_line::{Command, ParseFault, parse};
use std::alloc::{AllocError, Global};
use std::test::Fail;

/// What the words of a line come to.
type Parsed = Result<Command, ParseFault>;

// The answer to the words of a line.
fn answer(alloc: Global, line: &str) -> Result<Parsed, AllocError> {
    let mut words = Vec::new(alloc);
    for word in line.split_whitespace() {
        words.push(String::from_str(alloc, word)?)?;
    }
    Ok(parse(alloc, words.as_slice()))
}

// What an answer is, in a word or two.
fn kind_of(answer: &Parsed) -> &'static str {
    match answer {
        Ok(_) => "taken",
        Err(ParseFault::Memory) => "memory",
        Err(ParseFault::Usage(_)) => "usage",
        Err(ParseFault::Help(_)) => "help",
        Err(ParseFault::BadRoot) => "bad root",
        Err(ParseFault::LoneRoot) => "lone root",
        Err(ParseFault::BadKey) => "bad key",
        Err(ParseFault::BadTextKey) => "bad key of text",
    }
}

// The command with its fields, or the text that is shown.
fn text_of(alloc: Global, answer: &Parsed) -> Result<String, AllocError> {
    match answer {
        Ok(command) => fields_of(alloc, command),
        Err(ParseFault::Usage(text) | ParseFault::Help(text)) => String::from_str(alloc, text),
        Err(_) => String::from_str(alloc, "no text"),
    }
}

fn kind_and_text(alloc: Global, answer: &Parsed) -> Result<(&'static str, String), AllocError> {
    Ok((kind_of(answer), text_of(alloc, answer)?))
}

/// What becomes of a line, in a word or two.
pub(crate) fn outcome(alloc: Global, line: &str) -> Result<&'static str, AllocError> {
    let answer = answer(alloc, line)?;
    Ok(kind_of(&answer))
}

/// What becomes of a line, and the command with its fields, or the text that is shown. (An answer
/// is dropped at one place of each of these two: a command makes the model of its owner large.)
pub(crate) fn shown(alloc: Global, line: &str) -> Result<(&'static str, String), AllocError> {
    let answer = answer(alloc, line)?;
    kind_and_text(alloc, &answer)
}

/// Words that are no command, or out of its range.
const UNUSABLE_WORDS: &[&str] = &[
    "",
    "pack",
    "pack --unique a.rec",
    "pack --memory 256 a.rec",
    "pack --unique --memory 256 a.rec",
    "pack --sort --memory 15 a.rec",
    "pack --sort --memory 4001 a.rec",
    "pack --sort",
    "pack --sync --sync a.rec",
    "scratch --atomic=true",
    "pack --force --force a.rec",
    "build --force=true out.prl",
    "check --force a.prl",
    "scratch --bits 25",
    "scratch --bits 12 --chunk-bytes 4096",
    "scratch --chunk-bytes 0",
    "build --chunk-bytes 1073741825 out.prl",
    "build --chunk-bytes 4096 --bits 0 out.prl x.rec",
    "explain",
    "explain --removals a.rec",
    "explain --all a.rec",
    "explain --lines a.rec",
    "explain --text --removals",
    "check",
    "check --quiet",
    "get --raw --keys k a.prl",
    "get --raw a.prl",
    "build --stages 0 out.prl",
    "apply a.prl b.prl",
    "apply --root 00000000000000000000000000000000 a.prl",
    "apply --root 00000000000000000000000000000000 --bits 25 a.prl b.prl",
    "apply --root 00000000000000000000000000000000 --format 0 a.prl b.prl",
    "scan a.prl 00 1000001",
    "nth a.prl 4294967296",
    "dump",
    "dump a.prl a.rec b.rec",
    "diff a.prl",
    "diff a.prl b.prl a.rec",
    "diff --format 0 a.prl b.prl",
    "diff --old-root a.prl b.prl",
    "root",
    "root a.prl b.prl",
    "prove a.prl 00",
    "prove a.prl",
    "prove --to 61 a.prl 00 a.prf",
    "prove --to 61 a.prl a.prf",
    "prove --from 61 a.prl",
    "prove --from 61 a.prl 00 a.prf",
    "verify 00",
    "verify --to 61 00 61",
    "verify --from 61 00 61 a.prf",
    "verify --format 3 00000000000000000000000000000000 00",
    "get --format 3 --root 00000000000000000000000000000000 a.prl 00",
    "get --format 0 a.prl 00",
    "check --format 3 a.prl",
    "get a.prl 00 --root",
    "forget a.prl",
];

#[test]
fn words_out_of_range_are_usage(rt: HostRuntime) -> Result<(), Fail> {
    for &line in UNUSABLE_WORDS {
        expect_eq(&rt, &(line, outcome(rt.alloc(), line)?), &(line, "usage"));
    }
    Ok(())
}

/// Words, whether help or a fault is shown, and a part of the text.
const TEXTS: &[(&str, &str, &str)] = &[
    ("--help", "help", "  pack "),
    ("help build", "help", "[default: 16777216]"),
    ("help diff", "help", "--force"),
    ("--version", "help", "prolly 1.0.0, proved with rattle-kit-"),
    ("", "usage", "requires a subcommand"),
    ("scratch --bits 25", "usage", "25 is not in 0..=24"),
    ("pack --unique a.rec", "usage", "--sort"),
    ("explain --all a.rec", "usage", "--lines"),
    ("explain --lines a.rec", "usage", "'<FILE>'"),
    ("explain", "usage", "<FILE>"),
    ("get --raw --keys k a.prl", "usage", "'--raw'"),
    (
        "build --bits 1 --chunk-bytes 9 a.prl",
        "usage",
        "'--chunk-bytes <N>'",
    ),
    ("help build", "help", "[default: 12]"),
    ("help get", "help", "left out with --keys"),
    ("forget a.prl", "usage", "'forget'"),
];

#[test]
fn a_text_is_shown_where_there_is_no_command(rt: HostRuntime) -> Result<(), Fail> {
    for &(line, kind, part) in TEXTS {
        let (shown, text) = shown(rt.alloc(), line)?;
        let text = text.as_str();
        expect_eq(
            &rt,
            &(shown, text.contains(part), text),
            &(kind, true, text),
        );
    }
    Ok(())
}

/// Words whose key or root is bad, and what becomes of them.
const BAD_WORDS: &[(&str, &str)] = &[
    ("apply --root 0 a.prl b.prl x.rec", "bad root"),
    ("get a.prl 6", "bad key"),
    ("scan a.prl 6x 1", "bad key"),
    ("prove a.prl 6 a.prf", "bad key"),
    ("get --root 0 a.prl 6", "bad root"),
    ("check --root 0 a.prl b.prl", "bad root"),
    ("get --raw a.prl 6", "bad key"),
    (
        "get --root w0000000000000000000000000000000 a.prl 00",
        "bad root",
    ),
    (
        "get --root 00000000000000000000000000000000 a.prl 6",
        "bad key",
    ),
    ("scan --root 0 a.prl 6 1", "bad root"),
    (
        "scan --root 00000000000000000000000000000000 a.prl 6 1",
        "bad key",
    ),
    ("nth --root 0 a.prl 1", "bad root"),
    ("prove --from 6 a.prl a.prf", "bad key"),
    ("prove --from 61 --to 6 a.prl a.prf", "bad key"),
    ("prove --from 6 --root 0 a.prl a.prf", "bad root"),
    ("verify --from 6 0 a.prf", "bad root"),
    (
        "verify --from 6 00000000000000000000000000000000",
        "bad key",
    ),
    (
        "verify --text --from a --to \\x6 00000000000000000000000000000000",
        "bad key of text",
    ),
    ("verify 0 6", "bad root"),
    ("verify w0000000000000000000000000000000 00", "bad root"),
    ("verify 00000000000000000000000000000000 6", "bad key"),
    ("get --text a.prl a\\q", "bad key of text"),
    (
        "verify --text 00000000000000000000000000000000 \\x6",
        "bad key of text",
    ),
    ("get --text --root 0 a.prl \\q", "bad root"),
    ("diff --old-root 0 a.prl b.prl", "lone root"),
    (
        "diff --new-root 00000000000000000000000000000000 a.prl b.prl",
        "lone root",
    ),
    (
        "diff --old-root 00000000000000000000000000000000 --new-root 0 a.prl b.prl",
        "bad root",
    ),
    (
        "diff --old-root 0 --new-root 00000000000000000000000000000000 a.prl b.prl",
        "bad root",
    ),
    // What clap refuses is no bad key, and no bad root.
    ("scan a.prl 6x", "usage"),
    ("scan --root 0 a.prl 6x 1000001", "usage"),
];

#[test]
fn bad_keys_and_roots_are_named(rt: HostRuntime) -> Result<(), Fail> {
    for &(line, expected) in BAD_WORDS {
        expect_eq(&rt, &(line, outcome(rt.alloc(), line)?), &(line, expected));
    }
    Ok(())
}

/// What becomes of a line with a key of so many bytes.
fn outcome_of_key(alloc: Global, bytes: usize) -> Result<&'static str, AllocError> {
    let key = "6B".repeat(alloc, bytes)?;
    let line = format!(in alloc; "get a.prl {key}")?;
    outcome(alloc, line.as_str())
}

#[test]
fn a_key_of_1024_bytes_is_the_longest(rt: HostRuntime) -> Result<(), Fail> {
    for (bytes, expected) in [(1_024, "taken"), (1_025, "bad key")] {
        expect_eq(&rt, &outcome_of_key(rt.alloc(), bytes)?, &expected);
    }
    Ok(())
}
