// What a short list keeps, and what it copies and compares.
use crate::ShortList;
use std::process::Abort;
use trk_base::{NoMemory, TryCopy};

#[test]
fn grows_from_none(rt: HostRuntime) -> Result<(), NoMemory> {
    let alloc = rt.alloc();
    let mut tracks = ShortList::new(alloc);
    assert!(rt; tracks.is_empty());
    for (count, track) in [7u32, 3, 9, 4].into_iter().enumerate() {
        tracks.push(alloc, track)?;
        assert_eq!(rt; tracks.len(), count + 1);
    }
    assert_eq!(rt; tracks.as_slice(), [7, 3, 9, 4].as_slice());
    assert_eq!(rt; *tracks.at(2), 9);
    Ok(())
}

#[test]
fn is_the_same_however_made(rt: HostRuntime) -> Result<(), NoMemory> {
    let alloc = rt.alloc();
    let edge = ShortList::one((0u32, 5u32, 77u16));
    assert_eq!(rt; edge.as_slice(), [(0, 5, 77)].as_slice());
    assert!(rt; edge == ShortList::of(vec![in alloc; (0u32, 5u32, 77u16)]?));
    assert!(rt; edge != ShortList::of(vec![in alloc; (0u32, 5u32, 77u16), (0, 6, 1)]?));
    assert!(rt; edge != ShortList::new(alloc));
    Ok(())
}

#[test]
fn copies_each_form(rt: HostRuntime) -> Result<(), NoMemory> {
    let alloc = rt.alloc();
    let one = ShortList::one(Some(4u32));
    assert!(rt; one.copy(alloc)? == one);
    let many = ShortList::of(vec![in alloc; Some(4u32), None]?);
    assert_eq!(rt; many.copy(alloc)?.as_slice(), [Some(4), None].as_slice());
    Ok(())
}
