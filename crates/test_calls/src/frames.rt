//! Identities, AES and CMAC, frames and datagrams.

ghost use Rattle.std.specs.Prelude.{◌≡◌, ◌<◌, ◌≤◌, ◌^◌, length, false};
ghost use Rattle.ns_creator.specs.DataFrame.{AreFlags};

use ns_aes_cmac::{Aes128, Cmac};
use ns_creator::{CreateFault, DataCreator, JoinAcceptCreator, JoinRequestCreator, Keys};
use ns_link::{Datagram, LinkFault, read_datagram, write_down};
use ns_secure::{Dir, above, below, cipher_in_place, mic_fits, mic_of, session_keys};
use ns_types::{
    DevAddr, DevEui, DevNonce, Failed, Fuse, Heard, JoinEui, Key, Mic, NetId, OverStd, Sink,
    Source, Target, Ticket, addr_of, best, rx1, shard_of, shard_of_addr,
};
use ns_views::{DataView, JoinView, PhyView, ViewFault, parts_mut, view};
use std::alloc::Global;

// ---- ns_types

pub fn shard_of_device(eui: DevEui) -> u8 {
    shard_of(eui)
}

pub fn shard_of_address(addr: DevAddr) -> u8 {
    shard_of_addr(addr)
}

pub fn address_of(net: NetId, eui: DevEui, slot: u32) -> DevAddr
    requires net { net.0 < 2 ^ 24 }
    requires slot { slot ≤ 2097151 }
{
    addr_of(net, eui, slot)
}

pub fn best_of(copies: &[Heard]) -> usize
    requires { 0 < length copies.now }
{
    best(copies)
}

pub fn rx1_of(heard: &Heard, offset: u8, delay: u64) -> Target {
    rx1(heard, offset, delay)
}

pub fn ticket_parts(ticket: &Ticket) -> (DevEui, JoinEui, DevNonce, u32) {
    (
        ticket.dev_eui(),
        ticket.join_eui(),
        ticket.nonce(),
        ticket.transaction(),
    )
}

pub fn read<S: Source>(source: &mut S, buf: &mut [u8]) -> Result<usize, Failed>
    requires sound { S.Stream.has_failed source.old ≡ false }
    requires room { 0 < length buf.old }
{
    source.read(buf)
}

pub fn write<S: Sink>(sink: &mut S, bytes: &[u8]) -> Result<usize, Failed>
    requires sound { S.Stream.has_failed sink.old ≡ false }
    requires some { 0 < length bytes.now }
{
    sink.write(bytes)
}

pub fn has_failed<S: Source>(source: &S) -> bool {
    source.failed()
}

pub fn over_std<S>(stream: S) -> OverStd<S> {
    OverStd::new(stream)
}

pub fn written(fuse: &Fuse) -> &[u8] {
    fuse.written()
}

pub fn over_memory(
    alloc: Global,
    input: Vec<u8>,
    most: usize,
    reads: Option<u64>,
    writes: Option<u64>,
) -> Fuse
    requires { 0 < most }
{
    Fuse::new(alloc, input, most, reads, writes)
}

// ---- ns_aes_cmac

pub fn aes(key: &Key, block: &[u8; 16]) -> ([u8; 16], [u8; 16]) {
    let aes = Aes128::new(key);
    (aes.encrypt(block), aes.decrypt(block))
}

pub fn cmac(key: &Key, first: &[u8], second: &[u8]) -> [u8; 16] {
    let mut cmac = Cmac::new(key);
    cmac.update(first);
    cmac.update(second);
    cmac.finish()
}

// ---- ns_views

pub fn frame(bytes: &[u8]) -> Result<PhyView<'_>, ViewFault> {
    view(bytes)
}

pub fn slices<'a>(view: &DataView<'a>) -> [&'a [u8]; 3] {
    [view.fopts(), view.payload(), view.signed()]
}

pub fn fields(view: &DataView<'_>) -> (bool, DevAddr, u8, u16, Option<u8>, Mic) {
    (
        view.confirmed(),
        view.dev_addr(),
        view.fctrl(),
        view.fcnt16(),
        view.fport(),
        view.mic(),
    )
}

pub fn join_fields(view: &JoinView<'_>) -> (JoinEui, DevEui, DevNonce, Mic, Ticket) {
    (
        view.join_eui(),
        view.dev_eui(),
        view.nonce(),
        view.mic(),
        view.ticket(),
    )
}

// The parts are lent to a closure: the header and the options to read, and the payload to write.
pub fn clear_payload(bytes: &mut [u8]) -> Result<usize, ViewFault> {
    parts_mut(bytes, |header: &[u8], options: &[u8], payload: &mut [u8]| {
        payload.fill(0);
        header.len().wrapping_add(options.len())
    })
}

// ---- ns_secure

pub fn mic(key: &Key, dir: Dir, addr: DevAddr, counter: u32, signed: &[u8]) -> Mic
    requires { length signed.now ≤ 251 }
{
    mic_of(key, dir, addr, counter, signed)
}

pub fn fits(view: &DataView<'_>, key: &Key, counter: u32) -> bool {
    mic_fits(view, key, counter)
}

pub fn encipher(payload: &mut [u8], key: &Key, dir: Dir, addr: DevAddr, counter: u32)
    requires { length payload.old ≤ 242 }
{
    cipher_in_place(payload, key, dir, addr, counter)
}

pub fn keys_of(key: &Key, join_nonce: [u8; 3], nonce: DevNonce) -> (Key, Key) {
    session_keys(key, join_nonce, NetId(0x24), nonce)
}

pub fn counters(max: Option<u32>, low: u16) -> (Option<u32>, Option<u32>) {
    (above(max, low), below(max, low))
}

// ---- ns_creator

pub fn data_frame<'a>(
    creator: &DataCreator<'_>,
    keys: &Keys,
    buf: &'a mut [u8],
) -> Result<&'a [u8], CreateFault>
    requires { AreFlags creator.now.dir creator.now.flags }
{
    creator.build_into(keys, buf)
}

pub fn join_request<'a>(
    creator: &JoinRequestCreator,
    keys: &Keys,
    buf: &'a mut [u8],
) -> Result<&'a [u8], CreateFault> {
    creator.build_into(keys, buf)
}

pub fn join_accept<'a>(
    creator: &JoinAcceptCreator,
    keys: &Keys,
    buf: &'a mut [u8],
) -> Result<&'a [u8], CreateFault>
    requires { creator.now.net_id.0 < 2 ^ 24 }
{
    creator.build_into(keys, buf)
}

// ---- ns_link

pub fn datagram(bytes: &[u8]) -> Result<Datagram<'_>, LinkFault> {
    read_datagram(bytes)
}

pub fn datagram_parts<'a>(datagram: &Datagram<'a>) -> (Heard, &'a [u8]) {
    (datagram.heard(), datagram.frame())
}

pub fn down<'a>(target: &Target, frame: &[u8], buf: &'a mut [u8]) -> Result<&'a [u8], LinkFault>
    requires { length frame.now ≤ 255 }
{
    write_down(target, frame, buf)
}
