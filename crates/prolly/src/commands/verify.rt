//! The command `verify`.
ghost use Rattle.prolly_line.specs.GivenCommand.{IsWithinLimits};
ghost use Rattle.prolly.specs.Kinds.{IsVerify};

use crate::commands::asked::{Asked, keys_sought};
use crate::commands::version_of;
use crate::known_root::KnownRoot;
use prolly_answer::{answer_verify, answer_verify_set};
use prolly_fault::{Answer, Fault, NameFault};
use prolly_files::{
    Found, Input, InputName, Patient, Refusal, Stream, refuse_printed_input, refuse_read_twice,
    stdin_source, stdout_sink,
};
use prolly_io::FromRead;
use prolly_line::{Command, Sought};
use prolly_range::KeySet;
use prolly_text::Notation;
use std::alloc::AllocError;
use std::io::{BufReader, Read};

/// How many bytes of a proof of a range or of many keys are read at a time: many frames, where they
/// are short.
const PROOF_BYTES: usize = 65_536;

/// `verify [--text] [--format V] [--from KEY] [--to KEY] [--keys KEYS] ROOT [KEY] [PROOF]`
pub fn answer(rt: &HostRuntime, command: Command) -> Result<Answer, Refusal>
    requires limits { IsWithinLimits command }
    requires verify { IsVerify command }
{
    let Command::Verify {
        root,
        sought,
        version,
        proof,
        notation,
    } = command
    else {
        unreachable!()
    };
    let version = version_of(version);
    let client = Client {
        rt,
        root: KnownRoot { version, root },
        notation,
    };
    let printed = match sought {
        Sought::Keys(_) => Stream::Output.found(rt)?,
        _ => Found::Nothing,
    };
    let listed = keys_sought(rt, &sought, notation, printed)?;
    match Asked::of(rt, &sought, &listed)? {
        Asked::Key(key) => client.verify_key(key, proof),
        Asked::Set(set) => client.verify_set(set, listed.file, proof),
    }
}

/// A client that knows only the root, and shows keys and values in this notation.
#[derive(Clone, Copy)]
struct Client<'a> {
    rt: &'a HostRuntime,
    root: KnownRoot,
    notation: Notation,
}

impl Client<'_> {
    /// `verify [--text] [--format V] ROOT KEY [PROOF]`
    fn verify_key(self, key: &[u8], proof: Option<String>) -> Result<Answer, Refusal> {
        let (rt, alloc) = (self.rt, self.rt.alloc());
        let KnownRoot { version, root } = self.root;
        let answer = match proof {
            None => {
                refuse_printed_input(rt)?;
                let mut source = stdin_source(rt);
                answer_verify(alloc, &mut source, self.notation, version, &root, key)
            }
            Some(proof) => {
                let mut source = Input::open(rt, &proof)?.into_whole(rt, Fault::InputTooLong)?;
                answer_verify(alloc, &mut source, self.notation, version, &root, key)
            }
        };
        Ok(answer?)
    }

    /// The same of a set of keys, which prints as it goes. The proof may not be the file to which it is
    /// printed, nor a pipe from which the keys were read.
    fn verify_set(
        self,
        set: KeySet<'_>,
        listed: Found,
        proof: Option<String>,
    ) -> Result<Answer, Refusal> {
        let rt = self.rt;
        let printed = Stream::Output.found(rt)?;
        let answer = match proof {
            None => {
                let (found, name) = (Stream::Input.found(rt)?, Stream::Input.name());
                if printed.is_same(found) {
                    return Err(Refusal::of_name(rt, NameFault::IsPrintedTo, name));
                }
                refuse_read_twice(rt, found, &[listed], name)?;
                self.print_set(set, Patient::new(rt, rt.stdin()))
            }
            Some(proof) => {
                let name = InputName::look(rt, &proof)?;
                name.refuse_read_twice(rt, &[listed])?;
                let input = name.open_beside(rt, printed)?;
                self.print_set(set, input.into_file())
            }
        };
        Ok(answer?)
    }

    /// Prints what a set of keys has, of which the reader gives the proof.
    fn print_set<R: Read + Drop>(self, set: KeySet<'_>, reader: R) -> Result<Answer, AllocError> {
        let (rt, alloc) = (self.rt, self.rt.alloc());
        let Ok(reader) = BufReader::with_capacity(alloc, PROOF_BYTES, reader) else {
            return Err(AllocError);
        };
        let mut source = FromRead::new(reader);
        let mut sink = stdout_sink(rt)?;
        let KnownRoot { version, root } = self.root;
        answer_verify_set(
            alloc,
            &mut source,
            self.notation,
            version,
            &root,
            set,
            &mut sink,
        )
    }
}
