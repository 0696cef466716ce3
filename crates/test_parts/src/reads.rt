//! How many datagrams came is counted by each gateway worker for itself, and by all together where the server stops after so many.

use ns_serve_parts::Reads;

// Takes a datagram at each of these places, and says whether as many were counted there before as is told.
fn are_counted(reads: &Reads, rows: &[(usize, Option<u64>)]) -> bool {
    for &(place, before) in rows {
        if reads.add_one(place) != before {
            return false;
        }
    }
    true
}

/// Two workers count in two places, and what both heard is told together.
#[test]
fn workers_count_apart(rt: HostRuntime) {
    let reads = Reads::new(None);
    let (first, second) = (reads.place(), reads.place());
    assert!(rt; first != second);
    let rows = [(first, Some(0)), (first, Some(1)), (second, Some(0))];
    assert!(rt; are_counted(&reads, &rows));
    assert!(rt; reads.all() == 3 && !reads.are_enough());
}

/// Where the server stops after two datagrams, a third is none of either worker.
#[test]
fn workers_that_stop_count_together(rt: HostRuntime) {
    let reads = Reads::new(Some(2));
    let (first, second) = (reads.place(), reads.place());
    let rows = [(first, Some(0)), (second, Some(1)), (first, None)];
    assert!(rt; !reads.are_enough() && are_counted(&reads, &rows));
    assert!(rt; reads.all() == 2 && reads.are_enough());
}
