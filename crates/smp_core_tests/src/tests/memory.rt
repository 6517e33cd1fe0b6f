//! Each growth refused in its turn: heaps of all sizes, by steps of 16 bytes, up to one that is enough. No growth is
//! smaller than that.

use super::*;
use linked_list_allocator::LocalHeap;
use smp_labels::{Entry, LabelMap};

// The tables have 6,752 and 2,092 words of 8 bytes.
const WORDS_OF_BOTH: usize = (6_752 + 2_092) * 8;

#[test]
fn each_growth_of_a_core_may_be_refused(rt: HostRuntime) -> Result<(), Fail> {
    let online = all_online(32)?;
    let entry = Entry {
        key: 0,
        branch: true,
    };
    let labels = LabelMap::new(&[entry], 1)?;
    for steps in 0..100_000usize {
        let size = steps * 16;
        let heap = LocalHeap::new(rt.alloc(), size)?;
        let plain = Core::new(&heap, 32, online).err();
        assert_eq!(rt; heap.used(), 0, "{size} bytes");
        let labelled = Core::with_labels(&heap, 32, online, &labels).err();
        assert_eq!(rt; heap.used(), 0, "{size} bytes");
        assert_eq!(rt; plain, labelled, "{size} bytes");
        let Some(error) = plain else {
            assert!(rt; size > WORDS_OF_BOTH, "{size} bytes");
            return Ok(());
        };
        assert_eq!(rt; error, SmpError::NoMemory, "{size} bytes");
    }
    assert!(rt; false, "no heap was large enough");
    Ok(())
}

#[test]
fn each_growth_of_a_replay_may_be_refused(rt: HostRuntime) -> Result<(), Fail> {
    let mut events = [Event::Step(0); 9];
    events[0] = Event::Start(0, Command::Post(0, 1, Class::Sync, 7, 42, 1));
    for steps in 0..100_000usize {
        let size = steps * 16;
        let heap = LocalHeap::new(rt.alloc(), size)?;
        let answer = replayed(&heap, &events);
        assert_eq!(rt; heap.used(), 0, "{size} bytes");
        if answer != Err(SmpError::NoMemory) {
            assert_eq!(rt; answer, Ok((8, None)), "{size} bytes");
            return Ok(());
        }
    }
    assert!(rt; false, "no heap was large enough");
    Ok(())
}
