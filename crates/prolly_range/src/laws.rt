//! Laws of proofs of sets of keys, and of which fault is told. Each is the contract of a function
//! that does nothing: to call it is to know the law, and to prove the crate is to prove it.
ghost use Rattle.prolly_range.specs.Found.{KeysAreFound, ShownInOrder};
ghost use Rattle.prolly_range.specs.FirstFault.{LawfulFilesHaveProofs, SetFaultsAreOne};
ghost use Rattle.prolly_range.specs.SetProof.{SetProofsAreRight, TakenAreRight};

use prolly_look_up::laws::tops_are_read;

/// Whoever knows the root of a map knows by a proof what the map has at the keys of a set, and there
/// is one such proof; so does who has taken the first chunks of it know the first of the pairs; or
/// there are two different chunks with one reference.
pub fn set_proofs_are_right()
    ensures first { TakenAreRight }
    ensures all { SetProofsAreRight }
{
    tops_are_read();
}

/// Of a key of the set it is known what the map has there, a value or nothing, as soon as a pair was
/// shown whose key is not less, or all were.
pub fn keys_are_found()
    ensures { KeysAreFound }
{}

/// What chunks show of a list of keys comes in the order of the list, whatever the chunks are.
pub fn shown_in_order()
    ensures { ShownInOrder }
{}

/// For the proof of a set of keys one fault of a chunk file is the first, and there is none where
/// the file has all chunks of the proof.
pub fn set_faults_are_one()
    ensures { SetFaultsAreOne }
{}

/// In the chunk file of a lawful tree no proof of a set of keys, by its root, has a fault. So none
/// is refused, but for want of memory, a failed read or a failed write.
pub fn lawful_files_have_proofs()
    ensures { LawfulFilesHaveProofs }
{
    tops_are_read();
}
