//! The commands that words are, with each of their fields.
use crate::command_line::shown;
use crate::expect::expect_eq;
use prolly_line::Command;
use std::alloc::{AllocError, Global};
use std::fmt::Debug;
use std::test::Fail;

/// Words, and behind an arrow the command that they are: its kind, and its fields in the order of
/// its own. Without a root the version is taken too, and is of no use. (The table is one text, of
/// which the proof of the test is much smaller than of a list.)
const COMMANDS: &str = "\
    pack a.rec => pack (\"a.rec\", Hex, false, WriteMode { atomic: false, sync: false, \
     force: false })\n\
    pack --sort a.rec => pack sorted (\"a.rec\", Hex, false, false, 256, WriteMode { atomic: \
     false, sync: false, force: false })\n\
    pack --memory 16 --text a.rec --unique --sync --removals --sort => pack sorted (\"a.rec\", \
     Text, true, true, 16, WriteMode { atomic: false, sync: true, force: false })\n\
    pack --sort --memory 4000 a.rec => pack sorted (\"a.rec\", Hex, false, false, 4000, \
     WriteMode { atomic: false, sync: false, force: false })\n\
    pack --sync a.rec --atomic => pack (\"a.rec\", Hex, false, WriteMode { atomic: true, \
     sync: true, force: false })\n\
    scratch => scratch (12, None, 1, None, WriteMode { atomic: false, sync: false, force: \
     false })\n\
    scratch --sync --out a.prl => scratch (12, None, 1, Some(\"a.prl\"), WriteMode { \
     atomic: false, sync: true, force: false })\n\
    check a.prl => check (\"a.prl\", None, 1)\n\
    check --root 00000000000000000000000000000000 --format 2 a.prl => check (\"a.prl\", \
     Some(Ref([0, 0, 0, 0, 0, 0, 0, 0, 0, 0, 0, 0, 0, 0, 0, 0, 0, 0, 0, 0])), 2)\n\
    check --quiet a.prl => check files ([\"a.prl\"], None, 1, true)\n\
    check a.prl b.prl --format 2 => check files ([\"a.prl\", \"b.prl\"], None, 2, false)\n\
    check a.prl --root 00000000000000000000000000000000 a.prl --quiet b.prl => check files \
     ([\"a.prl\", \"a.prl\", \"b.prl\"], Some(Ref([0, 0, 0, 0, 0, 0, 0, 0, 0, 0, 0, 0, 0, 0, 0, \
     0, 0, 0, 0, 0])), 1, true)\n\
    root a.prl => root \"a.prl\"\n\
    get a.prl 61fF => get (\"a.prl\", [97, 255], None, 1, Hex, false)\n\
    get a.prl --raw 61 => get (\"a.prl\", [97], None, 1, Hex, true)\n\
    get --raw a.prl --text --format 2 a --root 00000000000000000000000000000000 => get \
     (\"a.prl\", [97], Some(Ref([0, 0, 0, 0, 0, 0, 0, 0, 0, 0, 0, 0, 0, 0, 0, 0, 0, 0, 0, 0])), \
     2, Text, true)\n\
    get --root 00000000000000000000000000000000 a.prl 61 => get (\"a.prl\", [97], \
     Some(Ref([0, 0, 0, 0, 0, 0, 0, 0, 0, 0, 0, 0, 0, 0, 0, 0, 0, 0, 0, 0])), 1, Hex, false)\n\
    get a.prl --format 2 61 --root vvvvvvvvvvvvvvvvvvvvvvvvvvvvvvvv => get (\"a.prl\", \
     [97], Some(Ref([255, 255, 255, 255, 255, 255, 255, 255, 255, 255, 255, 255, 255, \
     255, 255, 255, 255, 255, 255, 255])), 2, Hex, false)\n\
    get --format 2 a.prl 61 => get (\"a.prl\", [97], None, 2, Hex, false)\n\
    build --atomic out.prl => build ((12, None), (12, 64, 16777216, 16, 1), (\"out.prl\", [], \
     false, WriteMode { atomic: true, sync: false, force: false }))\n\
    scratch --bits 24 --format 2 --out a.prl => scratch (24, None, 2, Some(\"a.prl\"), \
     WriteMode { atomic: false, sync: false, force: false })\n\
    build out.prl x.rec y.rec => build ((12, None), (12, 64, 16777216, 16, 1), (\"out.prl\", \
     [\"x.rec\", \"y.rec\"], false, WriteMode { atomic: false, sync: false, force: false \
     }))\n\
    build --bits 1 --stages 2 --capacity 3 --max-records 4 --batch 5 --format 2 out.prl \
     => build ((1, None), (2, 3, 4, 5, 2), (\"out.prl\", [], false, WriteMode { atomic: false, \
     sync: false, force: false }))\n\
    build --max-records 2 out.prl x.rec y.rec => build ((12, None), (12, 64, 2, 16, 1), \
     (\"out.prl\", [\"x.rec\", \"y.rec\"], false, WriteMode { atomic: false, sync: \
     false, force: false }))\n\
    build --quiet out.prl => build ((12, None), (12, 64, 16777216, 16, 1), (\"out.prl\", [], \
     true, WriteMode { atomic: false, sync: false, force: false }))\n\
    apply --root 00000000000000000000000000000000 a.prl b.prl => apply ((Ref([0, 0, 0, 0, \
     0, 0, 0, 0, 0, 0, 0, 0, 0, 0, 0, 0, 0, 0, 0, 0]), None, None), (\"a.prl\", \
     \"b.prl\", []), (false, WriteMode { atomic: false, sync: false, force: false }))\n\
    apply --bits 0 a.prl --format 2 b.prl x.rec --quiet y.rec --root \
     vvvvvvvvvvvvvvvvvvvvvvvvvvvvvvvv --sync => apply ((Ref([255, 255, 255, 255, 255, \
     255, 255, 255, 255, 255, 255, 255, 255, 255, 255, 255, 255, 255, 255, 255]), \
     Some(0), Some(2)), (\"a.prl\", \"b.prl\", [\"x.rec\", \"y.rec\"]), (true, \
     WriteMode { atomic: false, sync: true, force: false }))\n\
    explain a.rec => explain (\"a.rec\", Hex)\n\
    explain --text a.rec => explain (\"a.rec\", Text)\n\
    explain --lines => explain lines (Hex, false, false)\n\
    explain --text --lines --removals => explain lines (Text, true, false)\n\
    explain --all --lines => explain lines (Hex, false, true)\n\
    stat --json --text a.prl => stat (\"a.prl\", true, Text)\n\
    scan a.prl 00 1000000 => scan (\"a.prl\", [0], 1000000, None, 1, Hex)\n\
    scan --format 2 --root 00000000000000000000000000000000 a.prl 00 1 => scan \
     (\"a.prl\", [0], 1, Some(Ref([0, 0, 0, 0, 0, 0, 0, 0, 0, 0, 0, 0, 0, 0, 0, 0, 0, 0, \
     0, 0])), 2, Hex)\n\
    nth a.prl 4294967295 => nth (\"a.prl\", 4294967295, None, 1, Hex)\n\
    nth --root 00000000000000000000000000000000 --format 2 a.prl 0 => nth (\"a.prl\", 0, \
     Some(Ref([0, 0, 0, 0, 0, 0, 0, 0, 0, 0, 0, 0, 0, 0, 0, 0, 0, 0, 0, 0])), 2, Hex)\n\
    dump a.prl => dump (\"a.prl\", None, 1, None, None, WriteMode { atomic: false, sync: \
     false, force: false })\n\
    dump --sync a.prl --text --atomic a.txt => dump (\"a.prl\", None, 1, \
     Some(\"a.txt\"), Some(Text), WriteMode { atomic: true, sync: true, force: false \
     })\n\
    diff a.prl b.prl => diff ((\"a.prl\", \"b.prl\", None, 1), (None, false, Hex, \
     WriteMode { atomic: false, sync: false, force: false }))\n\
    diff a.prl --atomic --stat --out a.rec b.prl => diff ((\"a.prl\", \"b.prl\", None, \
     1), (Some(\"a.rec\"), true, Hex, WriteMode { atomic: true, sync: false, force: \
     false }))\n\
    prove a.prl 6B --sync a.prf => prove (\"a.prl\", Key([107]), None, 1, \"a.prf\", \
     WriteMode { atomic: false, sync: true, force: false })\n\
    verify 00000000000000000000000000000000 00 => verify (Ref([0, 0, 0, 0, 0, 0, 0, 0, \
     0, 0, 0, 0, 0, 0, 0, 0, 0, 0, 0, 0]), Key([0]), 1, None, Hex)\n\
    verify vvvvvvvvvvvvvvvvvvvvvvvvvvvvvvvv 00 a.prf --format 2 => verify (Ref([255, \
     255, 255, 255, 255, 255, 255, 255, 255, 255, 255, 255, 255, 255, 255, 255, 255, \
     255, 255, 255]), Key([0]), 2, Some(\"a.prf\"), Hex)\n\
    pack --removals --text a.rec => pack (\"a.rec\", Text, true, WriteMode { atomic: \
     false, sync: false, force: false })\n\
    get --text a.prl a\\x6cl => get (\"a.prl\", [97, 108, 108], None, 1, Text, false)\n\
    nth a.prl 3 --text => nth (\"a.prl\", 3, None, 1, Text)\n\
    dump --hex a.prl => dump (\"a.prl\", None, 1, None, Some(Hex), WriteMode { atomic: \
     false, sync: false, force: false })\n\
    dump --hex --text a.prl => dump (\"a.prl\", None, 1, None, Some(Text), WriteMode { \
     atomic: false, sync: false, force: false })\n\
    diff --text a.prl b.prl => diff ((\"a.prl\", \"b.prl\", None, 1), (None, false, \
     Text, WriteMode { atomic: false, sync: false, force: false }))\n\
    prove --text a.prl a b => prove (\"a.prl\", Key([97]), None, 1, \"b\", WriteMode { \
     atomic: false, sync: false, force: false })\n\
    pack --force a.rec => pack (\"a.rec\", Hex, false, WriteMode { atomic: false, sync: \
     false, force: true })\n\
    scratch --out a.prl --force => scratch (12, None, 1, Some(\"a.prl\"), WriteMode { \
     atomic: false, sync: false, force: true })\n\
    scratch --chunk-bytes 1 => scratch (12, Some(1), 1, None, WriteMode { atomic: false, sync: \
     false, force: false })\n\
    build a.prl --chunk-bytes 1073741824 b.rec => build ((12, Some(1073741824)), (12, 64, \
     16777216, 16, 1), (\"a.prl\", [\"b.rec\"], false, WriteMode { atomic: false, sync: false, \
     force: false }))\n\
    build --force --sync a.prl b.rec => build ((12, None), (12, 64, 16777216, 16, 1), \
     (\"a.prl\", [\"b.rec\"], false, WriteMode { atomic: false, sync: true, force: true \
     }))\n\
    dump a.prl --force --hex a.txt => dump (\"a.prl\", None, 1, Some(\"a.txt\"), \
     Some(Hex), WriteMode { atomic: false, sync: false, force: true })\n\
    diff --force a.prl b.prl --out a.rec --atomic => diff ((\"a.prl\", \"b.prl\", None, \
     1), (Some(\"a.rec\"), false, Hex, WriteMode { atomic: true, sync: false, force: \
     true }))\n\
    diff --new-root vvvvvvvvvvvvvvvvvvvvvvvvvvvvvvvv a.prl b.prl --format 2 --old-root \
     00000000000000000000000000000000 => diff ((\"a.prl\", \"b.prl\", Some(RootPair { \
     old: Ref([0, 0, 0, 0, 0, 0, 0, 0, 0, 0, 0, 0, 0, 0, 0, 0, 0, 0, 0, 0]), new: \
     Ref([255, 255, 255, 255, 255, 255, 255, 255, 255, 255, 255, 255, 255, 255, 255, \
     255, 255, 255, 255, 255]) }), 2), (None, false, Hex, WriteMode { atomic: false, \
     sync: false, force: false }))\n\
    prove a.prl 61 a.prf --force => prove (\"a.prl\", Key([97]), None, 1, \"a.prf\", \
     WriteMode { atomic: false, sync: false, force: true })\n\
    verify --text 00000000000000000000000000000000 a => verify (Ref([0, 0, 0, 0, 0, 0, \
     0, 0, 0, 0, 0, 0, 0, 0, 0, 0, 0, 0, 0, 0]), Key([97]), 1, None, Text)\n\
    dump --root 00000000000000000000000000000000 --format 2 a.prl => dump (\"a.prl\", \
     Some(Ref([0, 0, 0, 0, 0, 0, 0, 0, 0, 0, 0, 0, 0, 0, 0, 0, 0, 0, 0, 0])), 2, None, \
     None, WriteMode { atomic: false, sync: false, force: false })\n\
    prove --format 2 a.prl 61 a.prf --root 00000000000000000000000000000000 => prove \
     (\"a.prl\", Key([97]), Some(Ref([0, 0, 0, 0, 0, 0, 0, 0, 0, 0, 0, 0, 0, 0, 0, 0, 0, \
     0, 0, 0])), 2, \"a.prf\", WriteMode { atomic: false, sync: false, force: false })\n\
    get --keys k a.prl => get keys (\"a.prl\", \"k\", None, 1, Hex)\n\
    get a.prl --text --keys=k --format 2 --root 00000000000000000000000000000000 => get keys \
     (\"a.prl\", \"k\", Some(Ref([0, 0, 0, 0, 0, 0, 0, 0, 0, 0, 0, 0, 0, 0, 0, 0, 0, 0, 0, 0])), \
     2, Text)\n\
    prove --keys k a.prl a.prf => prove (\"a.prl\", Keys(\"k\"), None, 1, \"a.prf\", \
     WriteMode { atomic: false, sync: false, force: false })\n\
    verify vvvvvvvvvvvvvvvvvvvvvvvvvvvvvvvv --keys k a.prf => verify (Ref([255, 255, 255, 255, \
     255, 255, 255, 255, 255, 255, 255, 255, 255, 255, 255, 255, 255, 255, 255, 255]), \
     Keys(\"k\"), 1, Some(\"a.prf\"), Hex)\n\
    prove --from 61 a.prl a.prf => prove (\"a.prl\", Range { from: [97], to: None }, None, \
     1, \"a.prf\", WriteMode { atomic: false, sync: false, force: false })\n\
    prove --text a.prl --to b a.prf --sync --from a => prove (\"a.prl\", Range { from: \
     [97], to: Some([98]) }, None, 1, \"a.prf\", WriteMode { atomic: false, sync: true, \
     force: false })\n\
    verify --from 61 vvvvvvvvvvvvvvvvvvvvvvvvvvvvvvvv => verify (Ref([255, 255, 255, 255, \
     255, 255, 255, 255, 255, 255, 255, 255, 255, 255, 255, 255, 255, 255, 255, 255]), \
     Range { from: [97], to: None }, 1, None, Hex)\n\
    verify --from 61 --to 62 --format 2 --text vvvvvvvvvvvvvvvvvvvvvvvvvvvvvvvv a.prf => \
     verify (Ref([255, 255, 255, 255, 255, 255, 255, 255, 255, 255, 255, 255, 255, 255, \
     255, 255, 255, 255, 255, 255]), Range { from: [54, 49], to: Some([54, 50]) }, 2, \
     Some(\"a.prf\"), Text)\n\
";

/// A command of this kind, with its fields.
fn told<T: Debug>(alloc: Global, kind: &str, fields: &T) -> Result<String, AllocError> {
    format!(in alloc; "{kind} {fields:?}")
}

/// A command with its fields.
pub(crate) fn fields_of(alloc: Global, command: &Command) -> Result<String, AllocError> {
    match command {
        Command::Pack {
            out,
            notation,
            removals,
            mode,
        } => told(alloc, "pack", &(out, notation, removals, mode)),
        Command::PackSorted {
            out,
            notation,
            removals,
            unique,
            memory,
            mode,
        } => told(
            alloc,
            "pack sorted",
            &(out, notation, removals, unique, memory, mode),
        ),
        Command::Scratch {
            bits,
            chunk_bytes,
            version,
            out,
            mode,
        } => told(alloc, "scratch", &(bits, chunk_bytes, version, out, mode)),
        Command::Build {
            bits,
            chunk_bytes,
            stages,
            capacity,
            max_records,
            batch,
            version,
            out,
            files,
            quiet,
            mode,
        } => told(
            alloc,
            "build",
            &(
                (bits, chunk_bytes),
                (stages, capacity, max_records, batch, version),
                (out, files, quiet, mode),
            ),
        ),
        _ => reader(alloc, command),
    }
}

/// A command that looks into a file, or makes the next one of it, with its fields.
fn reader(alloc: Global, command: &Command) -> Result<String, AllocError> {
    match command {
        Command::Apply {
            root,
            bits,
            version,
            old,
            out,
            changes,
            quiet,
            mode,
        } => told(
            alloc,
            "apply",
            &((root, bits, version), (old, out, changes), (quiet, mode)),
        ),
        Command::Explain { file, notation } => told(alloc, "explain", &(file, notation)),
        Command::ExplainLines {
            notation,
            removals,
            all,
        } => told(alloc, "explain lines", &(notation, removals, all)),
        Command::Check {
            file,
            root,
            version,
        } => told(alloc, "check", &(file, root, version)),
        Command::CheckFiles {
            files,
            root,
            version,
            quiet,
        } => told(alloc, "check files", &(files, root, version, quiet)),
        Command::Root { file } => told(alloc, "root", file),
        Command::Stat {
            file,
            json,
            notation,
        } => told(alloc, "stat", &(file, json, notation)),
        Command::Get {
            file,
            key,
            root,
            version,
            notation,
            raw,
        } => told(alloc, "get", &(file, key, root, version, notation, raw)),
        Command::GetKeys {
            file,
            keys,
            root,
            version,
            notation,
        } => told(alloc, "get keys", &(file, keys, root, version, notation)),
        Command::Scan {
            file,
            from,
            limit,
            root,
            version,
            notation,
        } => told(alloc, "scan", &(file, from, limit, root, version, notation)),
        Command::Nth {
            file,
            n,
            root,
            version,
            notation,
        } => told(alloc, "nth", &(file, n, root, version, notation)),
        _ => writer(alloc, command),
    }
}

/// A command that writes what a file has, or that makes or reads a proof of it, with its fields.
fn writer(alloc: Global, command: &Command) -> Result<String, AllocError> {
    match command {
        Command::Dump {
            file,
            root,
            version,
            out,
            lines,
            mode,
        } => told(alloc, "dump", &(file, root, version, out, lines, mode)),
        Command::Diff {
            old,
            new,
            roots,
            version,
            out,
            stat,
            notation,
            mode,
        } => told(
            alloc,
            "diff",
            &((old, new, roots, version), (out, stat, notation, mode)),
        ),
        Command::Prove {
            file,
            sought,
            root,
            version,
            out,
            mode,
            ..
        } => told(alloc, "prove", &(file, sought, root, version, out, mode)),
        Command::Verify {
            root,
            sought,
            version,
            proof,
            notation,
        } => told(alloc, "verify", &(root, sought, version, proof, notation)),
        _ => String::from_str(alloc, "another command"),
    }
}

#[test]
fn commands_have_their_fields(rt: HostRuntime) -> Result<(), Fail> {
    for row in COMMANDS.lines() {
        let (line, expected) = row.split_once(" => ").ok_or("a row without an arrow")?;
        let (_, text) = shown(rt.alloc(), line)?;
        expect_eq(&rt, &(line, text.as_str()), &(line, expected));
    }
    Ok(())
}
