//! When the shards of a running server are trimmed.

ghost use Rattle.std.specs.Prelude.{◌≡◌, ◌<◌, ◌*◌, ◌/◌, ℕ, max, get_or, slice_index, IfSome};
ghost use Rattle.std.specs.Option.{option_map};
ghost use Rattle.ns_types.specs.Identity.{shard_count};
ghost use Rattle.ns_serve_shards.specs.Trims.{is_due, IsTold, IsToldBy, mark_after};

use ns_log::{Log, debug, warn};
use ns_serve_parts::PLACES;
use ns_server::{Naming, Server};
use ns_shard::TrimFault;
use ns_types::SHARDS;
use std::alloc::Global;
use std::sync::Wait;

// Of how many devices there is to be one further entry in a shard before it is trimmed.
const DEVICES_AN_ENTRY: u64 = 4;

/// After how many further entries a shard is trimmed, and the marks of the shards' last trims; where there was none, from which number of
/// entries on they are counted.
#[derive(Clone, Copy)]
pub struct Trims {
    /// After so many entries of a shard it is due.
    pub every: u64,
    /// The mark of each shard's last trim.
    pub marks: [u64; PLACES],
}

impl Trims {
    /// No shard was trimmed yet.
    pub fn new(every: u64) -> Trims
        ensures every { result.every ≡ every }
        ensures marks { (k : ℕ) → slice_index result.marks k ≡ 0 }
    {
        Trims {
            every,
            marks: [0; PLACES],
        }
    }
}

// Marks that lie a sixteenth of so many entries apart.
fn marks_apart(every: u64) -> [u64; PLACES]
    ensures { (k : ℕ) → k < shard_count → slice_index result k ≡ k * (every / 16) }
{
    let step = every / SHARDS as u64;
    let mut marks = [0; PLACES];
    for place in 0..PLACES {
        marks[place] = place as u64 * step;
    }
    marks
}

/// After how many further entries a shard is trimmed, where trims are asked for and there are so many devices. A trim walks through all
/// entries of its shard, and what it leaves grows with the devices: a shard is due no sooner than after a quarter as many further entries.
pub fn entries_between(trim: Option<u32>, devices: usize) -> Option<u64>
    ensures { result ≡ option_map (λ n. max n (devices / 4)) trim }
{
    let entries = u64::from(trim?);
    Some(entries.max(devices as u64 / DEVICES_AN_ENTRY))
}

/// The trims that are asked for, if any are, of the shards of so many devices. The shards begin a sixteenth apart, so that where all grow
/// alike they are not due at once: windows are closed between their trims.
pub fn trims_of(trim: Option<u32>, devices: usize) -> Option<Trims>
    ensures every { option_map (λ t. t.every) result ≡ option_map (λ n. max n (devices / 4)) trim }
    ensures marks { IfSome result (λ t. (k : ℕ) → k < shard_count → slice_index t.marks k ≡ k * (t.every / 16)) }
{
    let every = entries_between(trim, devices)?;
    Some(Trims {
        every,
        marks: marks_apart(every),
    })
}

/// What became of a shard that was looked at.
#[derive(Clone, Copy)]
pub enum Trimmed {
    /// It was not due.
    NotDue,
    /// It was trimmed, and this is the mark.
    At(u64),
    /// The trim was refused.
    Refused(TrimFault),
}

// Whether a shard of which so many entries were made is to be trimmed.
fn is_due(trims: &Trims, made: &[u64; PLACES], shard: u8) -> bool
    requires { shard < shard_count }
    ensures { result ≡ is_due trims.now made.now shard }
{
    let place = usize::from(shard);
    made[place] >= trims.marks[place] && made[place] - trims.marks[place] >= trims.every
}

// Trims a shard.
fn trim_shard<B: Naming, R: Wait + Log>(
    rt: &R,
    alloc: Global,
    server: &Server<B>,
    shard: u8,
) -> Trimmed
    requires { shard < shard_count }
    ensures { IsToldBy B.roster shard result }
{
    match server.trim_in_place(rt, alloc, shard) {
        Ok(trim) => {
            debug!(rt; "shard {shard} trimmed: {} entries dropped", trim.dropped);
            Trimmed::At(trim.mark)
        }
        Err(fault) => {
            warn!(rt; "shard {shard} not trimmed: {fault}");
            Trimmed::Refused(fault)
        }
    }
}

// Trims a shard where it is due.
fn trim_if_due<B: Naming, R: Wait + Log>(
    rt: &R,
    alloc: Global,
    server: &Server<B>,
    trims: &Trims,
    made: &[u64; PLACES],
    shard: u8,
) -> Trimmed
    requires { shard < shard_count }
    ensures { IsTold B.roster trims.now made.now shard result }
{
    if is_due(trims, made, shard) {
        trim_shard(rt, alloc, server, shard)
    } else {
        Trimmed::NotDue
    }
}

// The mark of a shard after what became of it.
fn mark_after(mark: u64, trimmed: Trimmed) -> u64
    ensures { result ≡ mark_after mark trimmed }
{
    match trimmed {
        Trimmed::At(mark) => mark,
        Trimmed::NotDue | Trimmed::Refused(_) => mark,
    }
}

/// Trims each shard that is due with so many entries made in each, under its lock, in the memory of its entries. What became of each shard
/// comes back, and the marks are those of the trims that were made. A refused trim is logged, and the shard stays due.
pub fn trim_due<B: Naming, R: Wait + Log>(
    rt: &R,
    alloc: Global,
    server: &Server<B>,
    trims: &mut Trims,
    made: &[u64; PLACES],
) -> [Trimmed; PLACES]
    ensures every { trims.new.every ≡ trims.old.every }
    ensures told { (k : ℕ) → k < shard_count → IsTold B.roster trims.old made.now k (get_or result k Trimmed.NotDue) }
    ensures marks { (k : ℕ) → k < shard_count → slice_index trims.new.marks k ≡ mark_after (slice_index trims.old.marks k) (get_or result k Trimmed.NotDue) }
{
    let before = *trims;
    let mut told = [Trimmed::NotDue; PLACES];
    for shard in 0..SHARDS {
        let place = usize::from(shard);
        let trimmed = trim_if_due(rt, alloc, server, &before, made, shard);
        trims.marks[place] = mark_after(before.marks[place], trimmed);
        told[place] = trimmed;
    }
    told
}
