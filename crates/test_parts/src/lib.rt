//! Tests of shards and of the crates round them, of what no text of a worked run can say.
//!
//! Of a shard: a server that searches its entries gives the same replies to Join-Requests, the last round of a session, which uplinks are
//! new at counters over 65,535 and at the last one, memory that is refused to a shard and to a journal, windows and tickets that are ended
//! without memory, a run of 100,002 steps, and a trim in place.
//!
//! Of the crates round the shards: where gateways are, and late copies of frames (ns_front), the files of a record (ns_record_files),
//! packet forwarders, over memory and over sockets (ns_forwarder_socket), and what the threads of `serve` share where none runs
//! (ns_serve_parts, ns_serve_state, ns_serve_sockets, ns_serve_status): which datagrams are late copies, how many failures a worker waits
//! out, which downlinks leave, what an earlier life left open, the times of a line, the address at which gateways are heard, the counts and
//! other lines as they are logged, and the status over HTTP.
//!
//! They call what those crates give in public, and stand here so that no crate is proved once more for its tests.
#![tactic(auto)]

#[cfg(test)]
mod addresses;
#[cfg(test)]
mod alone;
#[cfg(test)]
mod calls;
#[cfg(test)]
mod counters;
#[cfg(test)]
mod endings;
#[cfg(test)]
mod failures;
#[cfg(test)]
mod growth;
#[cfg(test)]
mod joins;
#[cfg(test)]
mod journal;
#[cfg(test)]
mod jumps;
#[cfg(test)]
mod keys;
#[cfg(test)]
mod lates;
#[cfg(test)]
mod loopback;
#[cfg(test)]
mod reads;
#[cfg(test)]
mod rounds;
#[cfg(test)]
mod rows;
#[cfg(test)]
mod running;
#[cfg(test)]
mod runs;
#[cfg(test)]
mod served;
#[cfg(test)]
mod sockets;
#[cfg(test)]
mod trims;
