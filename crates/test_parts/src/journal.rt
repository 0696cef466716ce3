//! A journal where there is no memory, or as much as its growth or its cut is to need.

ghost use Rattle.std.specs.Prelude.{◌≡◌, IfOk, map};

use ns_calls::{Call, Entry, Reply};
use ns_journal::Journal;
use ns_types::{BLOCKS, DevEui, WindowName, take_all};
use std::alloc::{AllocError, Global};

// The closing of the window of this counter.
fn closing(fcnt: u32) -> Call {
    let window = WindowName {
        eui: DevEui(0x0d),
        session: 1,
        fcnt,
        round: 1,
    };
    Call::Close { window }
}

// Adds the entry of the closing of a window, and gives its number.
fn add(journal: &mut Journal, fcnt: u32) -> Result<u64, AllocError> {
    journal.room(1)?;
    Ok(journal.push(closing(fcnt), Reply::NoWindow))
}

// Whether room for more entries than there can be is refused.
fn are_too_many(journal: &mut Journal) -> bool {
    journal.room(usize::MAX) == Err(AllocError)
        && journal.room(usize::MAX / 2) == Err(AllocError)
        && journal.room(1 << 46) == Err(AllocError)
}

// Whether entries have their numbers, before and after room was refused, which leaves what stands in the journal.
fn are_numbered(alloc: Global) -> bool {
    let mut journal = Journal::new(alloc);
    add(&mut journal, 7) == Ok(0)
        && are_too_many(&mut journal)
        && journal.made() == 1
        && journal.entries().len() == 1
        && add(&mut journal, 8) == Ok(1)
}

// Room that is refused changes nothing: what stands in the journal stays.
#[test]
fn refused_room_changes_nothing(rt: HostRuntime) {
    assert!(rt; are_numbered(rt.alloc()));
}

// Cuts all entries out where that is asked for and fewer than 2^63 were made. How many it cut.
fn cut(journal: &mut Journal, alloc: Global, all: bool) -> Result<usize, AllocError>
    ensures { journal.new.reserved ≡ journal.old.reserved }
{
    if !all || journal.made() > 1 << 63 {
        return Ok(0);
    }
    Ok(journal.cut(alloc, &[])?.len())
}

// Whether what is reserved by one entry is there for another, where no more room is to be had, and after a cut too.
fn is_reserved(alloc: Global, all: bool) -> Result<bool, AllocError> {
    let mut journal = Journal::new(alloc);
    journal.room(2)?;
    let first = journal.push_reserving(&closing(9), Reply::NoWindow);
    let count = cut(&mut journal, alloc, all)?;
    let is_refused = journal.room(usize::MAX) == Err(AllocError);
    let second = journal.push_reserved(&closing(9), Reply::NoWindow);
    Ok(first == 0 && count == usize::from(all) && is_refused && second == 1 && journal.made() == 2)
}

#[test]
fn reserved_room_outlasts_a_refusal(rt: HostRuntime) {
    assert!(rt; is_reserved(rt.alloc(), false) == Ok(true));
    assert!(rt; is_reserved(rt.alloc(), true) == Ok(true));
}

// A journal of 65,536 entries, which fill their room.
fn filled(alloc: Global) -> Result<Journal, AllocError> {
    let mut journal = Journal::new(alloc);
    for fcnt in 0..65_536u32 {
        add(&mut journal, fcnt)?;
    }
    Ok(journal)
}

// The numbers of all entries.
fn numbers(alloc: Global, journal: &Journal) -> Result<Vec<u64>, AllocError>
    ensures { IfOk result (λ v. v.items ≡ map (λ e. e.number) journal.now.entries) }
{
    journal
        .entries()
        .iter()
        .map(|entry| entry.number)
        .collect(alloc)
}

// Whether a cut of which all 65,536 entries stay is made with memory for these and an eighth more, and leaves as many. With memory for just
// these, malloc finds no room beside what it keeps for itself.
fn is_cut_to_all(journal: &mut Journal, alloc: Global) -> Result<bool, AllocError> {
    let mut held: Vec<Vec<u8>> = Vec::with_capacity(alloc, BLOCKS)?;
    let stay = numbers(alloc, journal)?;
    let spare: Vec<Entry> = Vec::with_capacity(alloc, 73_728)?;
    take_all(alloc, &mut held)?;
    drop(spare);
    if journal.made() > 1 << 63 {
        return Ok(false);
    }
    let out = journal.cut(alloc, stay.as_slice())?;
    Ok(out.is_empty() && journal.entries().len() == stay.len())
}

// Whether a growth is refused where all memory is gone, whether it is made with 64 MB more, and whether a cut of all is made with none.
fn grown_and_cut(journal: &mut Journal, alloc: Global) -> Result<(bool, bool, bool), AllocError> {
    let mut held: Vec<Vec<u8>> = Vec::with_capacity(alloc, BLOCKS)?;
    let spare: Vec<u8> = Vec::with_capacity(alloc, 1 << 26)?;
    take_all(alloc, &mut held)?;
    let is_refused = journal.room(1).is_err();
    drop(spare);
    let is_grown = journal.room(1).is_ok();
    take_all(alloc, &mut held)?;
    let is_cut = cut(journal, alloc, true) == Ok(65_536);
    Ok((is_refused, is_grown, is_cut))
}

// The same of a journal that is filled, and whether a cut of which all stay is made before.
fn grown_and_cut_anew(alloc: Global) -> Result<(bool, (bool, bool, bool)), AllocError> {
    let mut journal = filled(alloc)?;
    let is_cut = is_cut_to_all(&mut journal, alloc)?;
    Ok((is_cut, grown_and_cut(&mut journal, alloc)?))
}

// Of entries that fill their room: a growth is refused where all memory is gone, and is made where 64 MB are given back, which has room
// for twice as many and not for eight times as many. A cut of which nothing stays takes no memory, and one of which all stay no
// more than what stays and an eighth.
#[test]
fn growth_and_cut_take_no_more_than_they_need(rt: HostRuntime) {
    assert!(rt; grown_and_cut_anew(rt.alloc()) == Ok((true, (true, true, true))));
}
