// Journals.

use crate::{Cause, Entry, Event, Journal};
use std::alloc::Global;

// So many entries, at times from 1 on.
fn entries(alloc: Global, count: u64) -> Option<Journal> {
    let mut journal = Journal::new(alloc);
    for made in 0..count {
        journal.reserve().ok()?;
        journal.push(Entry {
            time: made + 1,
            caller: 0,
            event: Event::Down {
                stream: 7,
                cause: Cause::Ended,
            },
        });
    }
    Some(journal)
}

// Whether a journal of so many has each where it was put.
fn are_kept(alloc: Global, count: u64) -> Option<bool> {
    let journal = entries(alloc, count)?;
    for place in 0..journal.len() {
        if journal.entry(place).time != place as u64 + 1 {
            return Some(false);
        }
    }
    Some(journal.len() as u64 == count && journal.last()?.time == count)
}

#[test]
fn a_journal_keeps_its_entries(rt: HostRuntime) {
    assert!(rt; are_kept(rt.alloc(), 3).unwrap_or(false));
}

// A page has 256 of them.
#[test]
fn a_journal_of_many_pages_keeps_its_entries(rt: HostRuntime) {
    assert!(rt; are_kept(rt.alloc(), 256).unwrap_or(false));
    assert!(rt; are_kept(rt.alloc(), 257).unwrap_or(false));
    assert!(rt; are_kept(rt.alloc(), 1000).unwrap_or(false));
}
