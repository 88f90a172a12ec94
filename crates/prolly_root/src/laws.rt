//! Laws of proofs, and of which fault is told. Each is the contract of a function that does nothing: to call it is to know the
//! law, and to prove the crate is to prove it.
ghost use Rattle.prolly_root.specs.ChunkFile.{FilesAreCut};
ghost use Rattle.prolly_root.specs.LookUpFault.{LawfulFilesAreRead, LookUpsTellOne};
ghost use Rattle.prolly_root.specs.ProofFile.{ProofsAreOne, ProofsAreRight, ProofsSayOne};

use prolly_look_up::laws::{tops_are_read, ways_are_right};

/// Whoever knows the root of a map knows by a proof what the map has at the key, or has two
/// different chunks with one reference; a proof says one thing; and there is one proof for a root
/// and a key, or again two such chunks.
pub fn proofs_are_right()
    ensures right { ProofsAreRight }
    ensures one { ProofsSayOne }
    ensures same { ProofsAreOne }
{
    ways_are_right();
}

/// Any bytes are a chunk file that is cut into frames in one way. A look-up in it has one fault, and
/// none where it comes to an end.
pub fn faults_are_one()
    ensures cut { FilesAreCut }
    ensures told { LookUpsTellOne }
{}

/// In the chunk file of a lawful tree no look-up by its root has a fault. So it is never refused,
/// but for want of memory or a failed read.
pub fn lawful_files_are_read()
    ensures { LawfulFilesAreRead }
{
    tops_are_read();
}
