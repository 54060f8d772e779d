//! Each call once, and the borders of chunks.
use crate::{
    ByteList, Field, Geometry, Key, Name, NeedList, Note, PairList, chunks_of_mb, id_read, id_text,
    touched,
};
use std::alloc::Global;
use std::test::Fail;

#[test]
fn sizes_outside_the_limits(rt: HostRuntime) -> Result<(), Fail> {
    for (blocks, chunks, map) in [
        (7, 64, 1024),
        (4096, 64, 1024),
        (8, 0, 64),
        (8, 64, 63),
        (2048, 4097, 64),
    ] {
        assert_eq!(rt; Geometry::new(blocks, chunks, map), None);
    }
    Ok(())
}

#[test]
fn chunks_of_sizes(rt: HostRuntime) -> Result<(), Fail> {
    let geometry = Geometry::new(8, 64, 1024).ok_or("inside the limits")?;
    for (mb, wanted) in [(1, Some(256)), (0, None), (4097, None)] {
        assert_eq!(rt; chunks_of_mb(geometry, mb), wanted);
    }
    Ok(())
}

#[test]
fn touched_at_borders(rt: HostRuntime) -> Result<(), Fail> {
    for (first, blocks, wanted) in [
        (0, 1, (0, 1)),
        (7, 1, (0, 1)),
        (7, 2, (0, 2)),
        (8, 8, (1, 1)),
        (8, 9, (1, 2)),
    ] {
        assert_eq!(rt; touched(first, blocks, 8), wanted);
    }
    Ok(())
}

#[test]
fn identifier_of_one(rt: HostRuntime) -> Result<(), Fail> {
    let text = id_text(rt.alloc(), 1)?;
    assert_eq!(rt;
        text.as_str(),
        "rfc4122.00000000-0001-8000-8000-000000000001"
    );
    assert_eq!(rt; Field::SizeInMb.text(), "sizeInMB");
    Ok(())
}

#[test]
fn identifiers_read(rt: HostRuntime) -> Result<(), Fail> {
    for (text, number) in [
        ("rfc4122.00000000-0001-8000-8000-00000000000b", Some(11)),
        (
            "rfc4122.00000000-0001-8000-BFFF-fFFFFFFFFFFF",
            Some((1 << 62) - 1),
        ),
        ("RFC4122.00000000-0001-8000-8000-000000000001", None),
        ("rfc4122.00000000-0001-4000-8000-000000000001", None),
        ("rfc4122.00000000-0001-8000-c000-000000000001", None),
        ("rfc4122.00000000000180008000000000000001", None),
        ("rfc4122.", None),
    ] {
        assert_eq!(rt; id_read(text), number);
    }
    Ok(())
}

#[test]
fn forms_of_names(rt: HostRuntime) -> Result<(), Fail> {
    let alloc = rt.alloc();
    assert!(rt; Name::read(alloc, b"min-iops")?.is_some());
    assert!(rt; Name::read(alloc, b"Min")?.is_none());
    Ok(())
}

#[test]
fn forms_of_keys_and_notes(rt: HostRuntime) -> Result<(), Fail> {
    let alloc = rt.alloc();
    assert!(rt; Key::read(alloc, b"")?.is_none());
    assert!(rt; Note::read(alloc, b"")?.is_some());
    Ok(())
}

fn key(alloc: Global, text: &[u8]) -> Result<Key, Fail> {
    Ok(Key::read(alloc, text)?.ok_or("a key")?)
}

fn note(alloc: Global, text: &[u8]) -> Result<Option<Note>, Fail> {
    Ok(Some(Note::read(alloc, text)?.ok_or("a note")?))
}

// Keys `a`, `b` and `c`, each with the note `1`.
fn three_pairs(alloc: Global) -> Result<PairList, Fail> {
    let mut pairs = PairList::new(alloc);
    for name in [b"a", b"b", b"c"] {
        pairs.set(key(alloc, name)?, note(alloc, b"1")?)?;
    }
    Ok(pairs)
}

// Whether the pair at a place has this key and this note.
fn has_pair(pairs: &PairList, i: u32, key: &[u8], note: &[u8]) -> bool {
    pairs
        .at(i)
        .is_some_and(|(k, n)| k.items() == key && n.items() == note)
}

#[test]
fn pairs_keep_their_order(rt: HostRuntime) -> Result<(), Fail> {
    let alloc = rt.alloc();
    let mut pairs = three_pairs(alloc)?;
    pairs.set(key(alloc, b"a")?, note(alloc, b"2")?)?;
    pairs.set(key(alloc, b"b")?, None)?;
    assert_eq!(rt; pairs.len(), 2);
    assert!(rt; has_pair(&pairs, 0, b"a", b"2"));
    assert!(rt; has_pair(&pairs, 1, b"c", b"1"));
    assert!(rt; pairs.at(2).is_none());
    Ok(())
}

#[test]
fn copies_of_pairs(rt: HostRuntime) -> Result<(), Fail> {
    let alloc = rt.alloc();
    let copy = three_pairs(alloc)?.copy()?;
    assert!(rt; !copy.is_empty());
    assert!(rt; has_pair(&copy, 2, b"c", b"1"));
    assert!(rt; copy.get(&key(alloc, b"d")?).is_none());
    Ok(())
}

#[test]
fn lists_lend_their_items(rt: HostRuntime) -> Result<(), Fail> {
    let bytes = ByteList::of(b"ab".to_vec(rt.alloc())?);
    assert_eq!(rt; bytes.items(), b"ab".as_slice());
    assert_eq!(rt; bytes.into_items().len(), 2);
    let needs = NeedList::of(Vec::new(rt.alloc()));
    assert_eq!(rt; needs.items().len(), 0);
    Ok(())
}
