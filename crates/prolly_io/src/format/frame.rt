//! The frame of a chunk in a chunk file, and the end record behind the last one.
ghost use Rattle.std.specs.Prelude.{◌≡◌, ◌^◌, ◌<◌, ◌≤◌, ◌++◌, ◌∷◌, ℕ, List, [], true, None, Ok, Err};
ghost use Rattle.std.specs.Prelude.{length, take, drop, IfSome};
ghost use Rattle.std.specs.Int.{w64, from_be_bytes};
ghost use Rattle.prolly_tree.specs.File.{end_record};
ghost use Rattle.prolly_io.specs.EndRecord.{IsNoEnd, NamesRoot};
ghost use Rattle.prolly_io.specs.Frame.{frame_start, framed, has_no_frame, IsSmall, BeginsFrame};

use byteorder::{BigEndian, ByteOrder};
use prolly_entry::Ref;

/// What a frame begins with.
pub const FRAME_LETTER: u8 = b'C';

/// The size of what stands before a chunk, in bytes: the letter and the chunk's length.
pub const FRAME_START: usize = 9;

/// How many bytes tell what stands where a frame is due: of a frame, its start and the chunk's
/// level.
pub const FRAME_FRONT: usize = FRAME_START + 1;

/// The greatest length of a chunk, in bytes, for which memory is taken where nothing but its frame
/// says how long it is. A longer one is told as want of memory.
pub const CHUNK_LIMIT: usize = 1_073_741_824;

/// What stands where a frame is due.
#[derive(Clone, Copy)]
pub enum FrameStart {
    /// The end record.
    End,
    /// The frame of a chunk of this length and level.
    Chunk(u64, u8),
}

/// Why neither a frame nor the end record stands where a frame is due.
#[derive(Clone, Copy, Debug, PartialEq, Eq)]
pub enum FrameFault {
    /// The bytes end too early.
    Truncated,
    /// They begin with another letter.
    BadLetter,
}

/// What stands before the bytes of a chunk of this length.
pub fn frame_start(len: u64) -> [u8; FRAME_START]
    ensures { result ≡ frame_start len }
{
    let mut start = [FRAME_LETTER; FRAME_START];
    BigEndian::write_u64(&mut start[1..], len);
    start
}

/// What the bytes tell that stand where a frame is due. The first [`FRAME_FRONT`] of them tell all.
/// The length of a chunk may be any number.
pub fn read_start(bytes: &[u8]) -> Result<FrameStart, FrameFault>
    ensures end { (more : List ℕ) → bytes.now ≡ END_LETTER ∷ more → result ≡ Ok FrameStart.End }
    ensures chunk { (len level : ℕ) (more : List ℕ) → len < 2 ^ 64 →
        bytes.now ≡ frame_start len ++ level ∷ more → result ≡ Ok (FrameStart.Chunk len level) }
    ensures empty { bytes.now ≡ [] → result ≡ Err FrameFault.Truncated }
    ensures cut { (more : List ℕ) → bytes.now ≡ FRAME_LETTER ∷ more → length more < FRAME_START →
        result ≡ Err FrameFault.Truncated }
    ensures other { (letter : ℕ) (more : List ℕ) → bytes.now ≡ letter ∷ more →
        (letter ≡ END_LETTER → ⊥) → (letter ≡ FRAME_LETTER → ⊥) →
        result ≡ Err FrameFault.BadLetter }
{
    match bytes {
        [END_LETTER, ..] => Ok(FrameStart::End),
        [FRAME_LETTER, front @ ..] if front.len() >= FRAME_START => {
            Ok(FrameStart::Chunk(BigEndian::read_u64(front), front[8]))
        }
        [] | [FRAME_LETTER, ..] => Err(FrameFault::Truncated),
        _ => Err(FrameFault::BadLetter),
    }
}

/// The length of the chunk whose whole frame begins the bytes.
pub fn frame_at(bytes: &[u8]) -> Option<usize>
    ensures found { IfSome result (λ len. BeginsFrame bytes.now len) }
    ensures none { result ≡ None → has_no_frame bytes.now ≡ true }
{
    if bytes.len() < FRAME_START || bytes[0] != FRAME_LETTER {
        return None;
    }
    let len = BigEndian::read_u64(&bytes[1..FRAME_START]);
    // The length is compared, and never added to: it may be any number.
    if len > (bytes.len() - FRAME_START) as u64 {
        return None;
    }
    Some(len as usize)
}

/// The chunk whose whole frame begins the bytes, and what stands behind the frame; none where no
/// whole frame begins them. Takes no memory, and constant time.
///
/// A frame is the letter C, the length of the chunk in eight bytes, the most significant first, and
/// the chunk.
pub fn front_frame(bytes: &[u8]) -> Option<(&[u8], &[u8])>
    ensures found { IfSome result (λ r. IsSmall r.0.now × (bytes.now ≡ framed r.0.now ++
        r.1.now)) }
    ensures none { result ≡ None → has_no_frame bytes.now ≡ true }
{
    let len = frame_at(bytes)?;
    let (_, rest) = bytes.split_at(FRAME_START);
    Some(rest.split_at(len))
}

/// What an end record begins with.
pub const END_LETTER: u8 = b'E';

/// Where the number of chunks begins in an end record, behind the letter and the reference.
const COUNT_START: usize = 21;

/// The size of an end record, in bytes: the letter, the reference, and the number of chunks.
pub const END_SIZE: usize = COUNT_START + 8;

/// What a file with this root and so many chunks ends with.
pub fn end_record(root: &Ref, chunks: u64) -> [u8; END_SIZE]
    ensures { result ≡ end_record root.now.0 chunks }
{
    let mut record = [END_LETTER; END_SIZE];
    BigEndian::write_u64(&mut record[COUNT_START..], chunks);
    record[1..COUNT_START].copy_from_slice(&root.0);
    record
}

/// The root that an end record names, or none where these bytes are no end record. The number of
/// chunks may be any.
pub fn read_end(bytes: &[u8]) -> Option<Ref>
    ensures names { IfSome result (λ root. NamesRoot root.0 bytes.now) }
    ensures none { result ≡ None → IsNoEnd bytes.now }
{
    if bytes.len() != END_SIZE || bytes[0] != END_LETTER {
        return None;
    }
    let mut root = [0; 20];
    root.copy_from_slice(&bytes[1..COUNT_START]);
    Some(Ref(root))
}
