//! The words of the command line.
use prolly_fault::Fault;
use std::env;
use std::io::ErrorKind;

/// The words after the program's name.
pub fn read_words(rt: &HostRuntime) -> Result<Vec<String>, Fault> {
    let words = match env::args(rt) {
        Ok(words) => words,
        Err(error) if error.kind() == ErrorKind::OutOfMemory => {
            return Err(Fault::Memory);
        }
        Err(_) => return Err(Fault::NotUnicode),
    };
    Ok(words.skip(1).collect(rt.alloc())?)
}
