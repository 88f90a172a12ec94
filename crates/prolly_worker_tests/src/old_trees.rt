//! The leaves of old trees, beside those that a stage of leaves makes of their maps, and what is
//! told of trees that can't be read.
use crate::applying::map_of;
use crate::links::comparing::{expect_bytes, expect_eq};
use crate::stages::lists::leaves_of;
use prolly_apply::{OLD_TREE, OldLeaf, OldLoaded, load_old};
use prolly_entry::{Cut, Pair, Ref, Sha512Cut, Version};
use prolly_file::scratch_as;
use prolly_io::ScriptDevice;
use prolly_link::{End, ListOut, RunFault};
use prolly_root::{FileChunks, RootFault};
use prolly_stage::ChunkEvent;
use prolly_test_parts::{chunk_file, joined, pairs_of};
use std::alloc::{AllocError, Global};
use std::process::Abort;
use std::sync::Wait;
use std::test::Fail;
use std::thread::Threads;

const MOST_LEVELS: u8 = 12;

/// More calls than any of these loads makes.
const MOST_CALLS: u64 = 200;

const OLD_FAULT: End = End::Fault(RunFault::Read { file: OLD_TREE });

/// What a load gives back.
type Loaded = OldLoaded<FileChunks<ScriptDevice>, ListOut<OldLeaf>>;

/// A chunk file, and the reference of its root.
#[derive(Drop)]
struct Rooted {
    version: Version,
    root: Ref,
    file: Vec<u8>,
}

impl Rooted {
    /// The file of the map of these pairs.
    fn of<C: Cut>(alloc: Global, cut: C, version: Version, pairs: &[Pair]) -> Result<Rooted, Fail> {
        let mut file = Vec::new(alloc);
        let root = scratch_as(alloc, cut, version, pairs, MOST_LEVELS, &mut file)?;
        Ok(Rooted {
            version,
            root,
            file,
        })
    }

    /// The file of version One of these chunks, of which the last is the root.
    fn of_chunks(alloc: Global, chunks: &[&[u8]], root: &[u8]) -> Result<Rooted, AllocError> {
        Ok(Rooted {
            version: Version::One,
            root: Ref::of(root),
            file: chunk_file(alloc, [1, 0], chunks)?,
        })
    }

    /// Loads its leaves from a device whose call of this number fails; 0 for none.
    fn load<R: Wait + Threads + Sync>(
        &self,
        rt: &R,
        alloc: Global,
        fail_at: u64,
    ) -> Result<Loaded, AllocError> {
        let device = ScriptDevice::new(self.file.to_vec(alloc)?, Some(fail_at));
        Ok(load_old(
            rt,
            alloc,
            self.version,
            &self.root,
            FileChunks::new(device),
            ListOut::new(alloc),
        ))
    }
}

/// Fails unless these leaves are the first of these that have pairs, as many as are expected.
fn expect_leaves(rt: &impl Abort, leaves: Vec<OldLeaf>, events: Vec<ChunkEvent>, count: usize) {
    expect_eq(rt, &leaves.len(), &count);
    for (leaf, event) in leaves.into_iter().zip(events) {
        let leaf = leaf.into_event();
        expect_bytes(rt, leaf.bytes(), event.bytes());
        expect_bytes(rt, leaf.key(), event.key());
        expect_eq(rt, &leaf.count(), &event.count());
        expect_eq(rt, &leaf.reference(), &event.reference());
    }
}

/// Loads the leaves of a small map, and compares them with those of a stage of leaves.
fn expect_all<C: Cut, R: Abort + Wait + Threads + Sync>(
    rt: &R,
    alloc: Global,
    cut: C,
    version: Version,
    map: u32,
) -> Result<(), Fail> {
    let pairs = map_of(alloc, map)?;
    let is_empty = pairs.is_empty();
    let loaded = Rooted::of(alloc, cut, version, &pairs)?.load(rt, alloc, 0)?;
    expect_eq(rt, &loaded.fault, &None);
    expect_eq(rt, &loaded.out.last, &End::Clean);
    let events = leaves_of(rt, alloc, cut, pairs, End::Clean).items;
    let count = if is_empty { 0 } else { events.len() };
    expect_leaves(rt, loaded.out.items, events, count);
    Ok(())
}

#[test]
fn leaves_of_all_small_maps_come_in_order(rt: HostRuntime) -> Result<(), Fail> {
    let alloc = rt.alloc();
    for map in 0..32u32 {
        for version in [Version::One, Version::Two] {
            for bits in 0..4u8 {
                let cut = Sha512Cut::new(bits).ok_or("bits")?;
                expect_all(&rt, alloc, cut, version, map)?;
            }
        }
    }
    Ok(())
}

/// The file of a=1, b=1 and c=1 of 0 bits, in version Two. Its chunks are the leaves a and b, the
/// node above them, the leaf c, the node above it, and the root.
fn three_leaves(alloc: Global) -> Result<Rooted, Fail> {
    let cut = Sha512Cut::new(0).ok_or("bits")?;
    Rooted::of(
        alloc,
        cut,
        Version::Two,
        &pairs_of(alloc, &[b"a", b"b", b"c"])?,
    )
}

/// Fails unless this was told, and so many leaves of the keys a, b and c were sent.
fn expect_told<R: Abort + Wait>(
    rt: &R,
    alloc: Global,
    loaded: Loaded,
    told: Option<RootFault>,
    count: usize,
) -> Result<(), Fail> {
    expect_eq(rt, &loaded.fault, &told);
    let last = if told.is_none() {
        End::Clean
    } else {
        OLD_FAULT
    };
    expect_eq(rt, &loaded.out.last, &last);
    let cut = Sha512Cut::new(0).ok_or("bits")?;
    let pairs = pairs_of(alloc, &[b"a", b"b", b"c"])?;
    let events = leaves_of(rt, alloc, cut, pairs, End::Clean).items;
    expect_leaves(rt, loaded.out.items, events, count);
    Ok(())
}

/// Of each chunk its number, where its last byte stands in the file of three leaves, and how many
/// leaves come before it is read.
const LAST_BYTES: [(u64, usize, usize); 6] = [
    (0, 23, 0),
    (1, 41, 1),
    (2, 113, 0),
    (3, 131, 2),
    (4, 172, 2),
    (5, 244, 0),
];

#[test]
fn damaged_chunks_are_told_behind_the_leaves_before_them(rt: HostRuntime) -> Result<(), Fail> {
    let alloc = rt.alloc();
    for (chunk, place, count) in LAST_BYTES {
        let mut rooted = three_leaves(alloc)?;
        if let Some(byte) = rooted.file.get_mut(place) {
            *byte ^= 1;
        }
        let loaded = rooted.load(&rt, alloc, 0)?;
        expect_told(
            &rt,
            alloc,
            loaded,
            Some(RootFault::Reference { chunk }),
            count,
        )?;
    }
    Ok(())
}

#[test]
fn another_root_is_told(rt: HostRuntime) -> Result<(), Fail> {
    let alloc = rt.alloc();
    let mut rooted = three_leaves(alloc)?;
    rooted.root = Ref::of(b"");
    let loaded = rooted.load(&rt, alloc, 0)?;
    expect_told(
        &rt,
        alloc,
        loaded,
        Some(RootFault::Reference { chunk: 5 }),
        0,
    )
}

#[test]
fn each_failed_read_is_told(rt: HostRuntime) -> Result<(), Fail> {
    let alloc = rt.alloc();
    let rooted = three_leaves(alloc)?;
    for fail_at in 1..=MOST_CALLS {
        let loaded = rooted.load(&rt, alloc, fail_at)?;
        let count = loaded.out.items.len();
        if loaded.fault.is_none() {
            expect_eq(&rt, &count, &3);
            return expect_told(&rt, alloc, loaded, None, 3);
        }
        expect_told(&rt, alloc, loaded, Some(RootFault::Read), count)?;
    }
    Err("too many calls".into())
}

const LEAF_A: &[u8] = b"\0\0\x01a\0\0\0\x011";

const LEAF_B: &[u8] = b"\0\0\x01b\0\0\0\x011";

/// A node of version One of this level above the leaves a and b.
fn node_above(alloc: Global, level: u8) -> Result<Vec<u8>, AllocError> {
    joined(
        alloc,
        &[
            &[level],
            b"\0\x01a",
            &Ref::of(LEAF_A).0,
            b"\0\x01b",
            &Ref::of(LEAF_B).0,
        ],
    )
}

#[test]
fn missing_chunks_are_told_behind_the_leaves_before_them(rt: HostRuntime) -> Result<(), Fail> {
    let alloc = rt.alloc();
    let node = node_above(alloc, 1)?;
    let whole = Rooted::of_chunks(alloc, &[LEAF_A, LEAF_B, &node], &node)?;
    expect_told(&rt, alloc, whole.load(&rt, alloc, 0)?, None, 2)?;
    let part = Rooted::of_chunks(alloc, &[LEAF_A, &node], &node)?;
    expect_told(
        &rt,
        alloc,
        part.load(&rt, alloc, 0)?,
        Some(RootFault::Missing),
        1,
    )
}

#[test]
fn chunks_that_no_tree_has_are_told(rt: HostRuntime) -> Result<(), Fail> {
    let alloc = rt.alloc();
    let falling = b"\0\0\x01b\0\0\0\x011\0\x01a\0\0\0\x011";
    let rooted = Rooted::of_chunks(alloc, &[falling], falling)?;
    let told = Some(RootFault::KeysOutOfOrder { chunk: 0 });
    expect_told(&rt, alloc, rooted.load(&rt, alloc, 0)?, told, 0)?;
    let rooted = Rooted::of_chunks(alloc, &[b"\0\0"], b"\0\0")?;
    let told = Some(RootFault::Chunk { chunk: 0 });
    expect_told(&rt, alloc, rooted.load(&rt, alloc, 0)?, told, 0)
}

/// Loads the leaves of the keys a, b and c, and gives their last keys, one after another, with the
/// end and the fault.
pub(crate) fn load_three<R: Wait + Threads + Sync>(
    rt: &R,
    alloc: Global,
) -> Result<(Vec<u8>, End, Option<RootFault>), Fail> {
    let loaded = three_leaves(alloc)?.load(rt, alloc, 0)?;
    let mut keys = Vec::new(alloc);
    for leaf in &loaded.out.items {
        keys.extend_from_slice(leaf.last_key())?;
    }
    Ok((keys, loaded.out.last, loaded.fault))
}
