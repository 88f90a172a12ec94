//! `prolly_entry`.
use prolly_entry::{
    ChildAt, Cut, EntryFault, Front, FrontRecord, KeyCut, Pair, Record, RecordFault, Ref,
    Sha512Cut, Version, append_child, append_child_as, append_pair, append_record, front_child,
    front_child_as, front_pair, front_record, key_order, records,
};
use std::alloc::{AllocError, Global};
use std::cmp::Ordering;
use std::test::Fail;

fn made(key: Vec<u8>, value: Vec<u8>) -> Result<Record, EntryFault> {
    match Pair::new(key, value) {
        Ok(pair) => Ok(Record::put(pair)),
        Err(EntryFault::KeyTooLong) => Err(EntryFault::KeyTooLong),
        Err(EntryFault::ValueTooLong) => Err(EntryFault::ValueTooLong),
    }
}

fn removed(key: Vec<u8>) -> Result<Record, EntryFault> {
    Record::remove(key)
}

fn appended(
    out: &mut Vec<u8>,
    pair: &Pair,
    record: &Record,
    reference: &Ref,
) -> Result<(), AllocError> {
    append_pair(out, pair)?;
    append_record(out, record)?;
    append_child(out, pair.key(), reference)?;
    append_child_as(out, Version::Two, pair.key(), reference, 1)
}

fn fronts(bytes: &[u8]) -> usize {
    let pair = match front_pair(bytes) {
        Front::Pair {
            key_end: _,
            value_start: _,
            len,
        } => len,
        Front::More | Front::KeyTooLong | Front::ValueTooLong => 0,
    };
    let record = match front_record(bytes) {
        FrontRecord::Put {
            key_end: _,
            value_start: _,
            len,
        }
        | FrontRecord::Remove { key_end: _, len } => len,
        FrontRecord::More | FrontRecord::KeyTooLong | FrontRecord::ValueTooLong => 0,
    };
    pair.max(record)
}

fn children(bytes: &[u8]) -> Option<(ChildAt, ChildAt)> {
    let child = front_child(bytes)?;
    let ChildAt { key_end, len } = front_child_as(Version::One, bytes)?;
    Some((child, ChildAt { key_end, len }))
}

fn place_of(fault: RecordFault) -> u32 {
    match fault {
        RecordFault::Memory | RecordFault::TooManyRecords => 0,
        RecordFault::Truncated { place }
        | RecordFault::KeyTooLong { place }
        | RecordFault::ValueTooLong { place }
        | RecordFault::OutOfOrder { place } => place,
    }
}

fn pairs_of(alloc: Global, bytes: &[u8]) -> Result<Vec<Pair>, u32> {
    match records(alloc, bytes, 10) {
        Ok(pairs) => Ok(pairs),
        Err(fault) => Err(place_of(fault)),
    }
}

fn texts(text: &[u8]) -> Option<[u8; 32]> {
    Some(Ref::from_text(text)?.to_text())
}

fn cuts(bits: u8, entry: &[u8]) -> Option<(u8, bool)> {
    let (bits, _) = is_cut(&Sha512Cut::new(bits)?, entry);
    let (_, is_boundary) = is_cut(&KeyCut, entry);
    Some((bits, is_boundary))
}

fn is_cut<C: Cut>(cut: &C, entry: &[u8]) -> (u8, bool) {
    (cut.bits(), cut.is_boundary(entry))
}

#[test]
fn entries_are_named_as_ever(rt: HostRuntime) -> Result<(), Fail> {
    let alloc = rt.alloc();
    let put = made(b"a".to_vec(alloc)?, b"1".to_vec(alloc)?);
    let gone = removed(b"b".to_vec(alloc)?);
    let (Ok(put), Ok(gone)) = (put, gone) else {
        assert!(rt; false);
        return Ok(());
    };
    assert!(rt; key_order(put.key(), gone.key()) == Ordering::Less);
    assert!(rt; put.value().is_some() && gone.value().is_none());
    assert!(rt; Version::of(2).is_some() && Version::of(3).is_none());
    Ok(())
}
