//! What a call visits round its step.

use crate::receipt::Receipt;

/// Is visited in each call: before the lock of the call's shard is taken, and with the lock held before and after the shard is asked. Of
/// one shard the visits with the lock held come one call after the other, in the order of its entries.
pub trait Gate<R> {
    /// Before the lock is taken: here a gate may wait, or make room.
    fn before(&self, _rt: &R, _shard: u8) {}

    /// With the lock held, before the shard is asked: the number is the one that the call's entry will have.
    fn visit(&self, rt: &R, shard: u8, number: u64);

    /// With the lock held, after the entry was made. Of a call that was refused memory nothing is told.
    fn made(&self, _rt: &R, _receipt: &Receipt) {}
}

/// A gate that lets every call go on at once.
#[derive(Clone, Copy)]
pub struct Open;

impl<R> Gate<R> for Open {
    fn visit(&self, _rt: &R, _shard: u8, _number: u64) {}
}
