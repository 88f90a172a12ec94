//! The texts of help. Those that are longer than a line are laid out by hand for 80 columns, since
//! clap does not wrap them.

/// The texts of a command's help.
#[derive(Clone, Copy)]
pub(crate) struct Help<'a> {
    /// The line for the list of commands.
    pub(crate) about: &'a str,
    /// What stands above the usage.
    pub(crate) details: &'a str,
    pub(crate) example: &'a str,
}

/// What `--version` prints behind the program's name: its version, and what has proved it.
pub(crate) const VERSION: &str = "1.0.0, proved with rattle-kit-13b logic dac8208d650f15bf";

/// What a key's word says, and behind that when it is left out.
macro_rules! key_help {
    ($left_out:literal) => {
        concat!("The key in hexadecimal, or with --text as text", $left_out)
    };
}

/// What KEY says.
pub(crate) const KEY: &str = key_help!("");

/// What `[KEY]` says where many keys may stand in its place.
pub(crate) const KEY_OR_KEYS: &str = key_help!("; left out with --keys");

/// What `[KEY]` says where a range, or many keys, may stand in its place.
pub(crate) const KEY_OR_SET: &str = key_help!("; left out with --from or --keys");

pub(crate) const PROGRAM: Help<'static> = Help {
    about: "Makes, checks and reads prolly trees",
    details: "Makes, checks and reads prolly trees.

A prolly tree is a search tree over sorted keys. The data itself says where it
is cut into chunks. The root of a tree is a text of 32 characters. Equal
contents have equal roots, however they came to be, at equal --bits and
--format. So to compare two trees, compare their roots. If other contents had
the same root, two different chunks would have the same SHA-512 prefix, which
nobody has seen yet.

Besides lines of text there are three kinds of files:
  record file  pairs, each a key with its value, and removals, each a key that
               is taken away; the keys rise strictly
  chunk file   a whole tree, and so all pairs of a map
  proof        some chunks of a tree: they show what the map has at a key, in a
               range, or at many keys, to a client that knows only the root

Keys have at most 1,024 bytes, values at most 65,536.

An output that is also an input is refused, and nothing is touched. An output
that has bytes must begin like a file of the kind that is to be written. If it
does not, it is refused, unless --force is given.

A record file, lines or a proof are first written to a file beside the output,
under its name and `.0.tmp` (or the next number that is free). That file takes
the output's place once it is whole. So after a fault the output is as it was.
With --atomic a chunk file is written in this way, too. Without it, what the
output held is gone as soon as there is something to write, and after a later
fault the output holds a first part. Only a run that is killed may leave a file
beside the output.

With --sync the answer is printed once the file and its name are on the disk.
Without it, the answer is printed once the system has taken them, and a loss of
power may undo that.

The exit status is
  0  if the command is done
  1  if a look-up found nothing, `diff` found a change, or `explain` a flaw
  2  if the words are not understood
  3  if a record file, a line or a list of keys is at fault, if there are too
     many files, or if the bits or the format of an `apply` are wrong
  4  if a chunk file or a proof is refused
  5  if a file cannot be opened, read, written, replaced or written over, or if
     an input that is no chunk file is too long
  6  if memory or a thread was refused, or a thread was lost
  7  if the tree has too many levels",
    example: "Example, from two lines of text to a look-up:
  printf 'apple\\t3\\npear\\t5\\n' | prolly pack --text fruit.rec
  prolly build fruit.prl fruit.rec
  prolly check fruit.prl
  prolly get --text fruit.prl apple

`prolly COMMAND --help` says more about a command.",
};
