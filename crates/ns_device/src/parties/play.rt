//! What gateways and devices do while a server runs.

use crate::TestDevice;
use crate::parties::ended::Ended;
use crate::parties::folder::{copied, wait_for_byte};
use crate::parties::network::{asked, device_of, front, front_later, heard, naps, sent, socket_to};
use crate::parties::text::contains;
use base64::engine::general_purpose::STANDARD;
use ns_types::{DevEui, DevNonce};
use std::alloc::Global;
use std::net::{Net, UdpSocket};
use std::rt::Files;
use std::time::{Clock, Duration, Instant};

// Messages of the gateway `a1` by version 2 (Semtech UDP protocol), and what acknowledges them.
const PULL_DATA: [u8; 12] = [2, 0, 7, 2, 0, 0, 0, 0, 0, 0, 0, 0xa1];

const PULL_ACK: &[u8] = &[2, 0, 7, 4];

const PUSH_DATA: [u8; 12] = [2, 0, 8, 0, 0, 0, 0, 0, 0, 0, 0, 0xa1];

const PUSH_ACK: &[u8] = &[2, 0, 8, 1];

/// One of the two sockets of gateways.
pub enum Side {
    Near,
    Far,
}

/// What is done next. Each step fails where something else comes of it than it says.
pub enum Step {
    /// The device 13 joins by this gateway at the near socket. The datagram of its Join-Accept has 45 bytes.
    Join(u8),
    /// The device of this number asks to join by a gateway at this socket.
    Ask(Side, u64, u8),
    /// A datagram of so many bytes is received.
    Receive(Side, usize),
    /// The device sends an uplink of this counter, which may be confirmed, by a gateway at this socket.
    Uplink(Side, u32, bool, u8),
    /// A gateway hears uplink 0 1 ms later, with a greater SNR.
    Later(u8),
    /// Sixteen gateways hear an uplink with the longest payload, in datagrams of 283 bytes.
    Longest,
    /// Gateway a1 hears this frame at this data rate, once the server is there.
    Frame(&'static [u8], u8),
    /// One byte is sent.
    Byte,
    /// One byte is sent once the server is there.
    First,
    /// So many times 10 ms go by.
    Nap(u32),
    /// No more than so many milliseconds have gone by.
    Within(u64),
    /// The clock stands at this time for a while, in which the server looks many times whether its counts are to be logged.
    Stand(u64),
    /// A forwarder asks for downlinks at the far socket, which is acknowledged.
    Pull,
    /// The device joins by a forwarder that sends by the near socket, and has asked for downlinks at the far one.
    PushJoin,
    /// The device sends a confirmed uplink by that forwarder. Its acknowledgement comes at 16 dBm, in a message of so many bytes.
    PushUplink(usize),
    /// The device sends the confirmed uplink of this counter, once the server is there. Its acknowledgement has this number.
    Acknowledged(u32, u8),
    /// The uplink of this counter is sent again, once the server is there.
    Again(u32),
    /// Each first file is copied to the second.
    Copy(&'static [(&'static str, &'static str)]),
    /// It is waited until so many lives have ended.
    Ended(u64),
    /// It is waited until this file has a byte.
    Filled(&'static str),
}

/// The gateways around a server, with their device.
#[derive(Drop)]
pub struct Party<'a, R, H> {
    rt: &'a R,
    host: &'a H,
    alloc: Global,
    ended: &'a Ended,
    near: UdpSocket,
    far: UdpSocket,
    device: TestDevice,
    begun: Instant,
    buf: [u8; 512],
}

impl<'a, R: Clock + Net, H: Files> Party<'a, R, H> {
    /// Those who send to these ports.
    pub fn new(
        rt: &'a R,
        host: &'a H,
        alloc: Global,
        ended: &'a Ended,
        near: u16,
        far: u16,
    ) -> Option<Party<'a, R, H>> {
        let begun = Instant::now(rt).ok()?;
        let near = socket_to(rt, near)?;
        let far = socket_to(rt, far)?;
        Some(Party {
            rt,
            host,
            alloc,
            ended,
            near,
            far,
            device: device_of(DevEui(13)),
            begun,
            buf: [0u8; 512],
        })
    }

    /// Does all steps, the later ones also where one fails. Whether none failed.
    pub fn play(&mut self, steps: &[Step]) -> bool {
        let mut is_done = true;
        for step in steps {
            is_done = self.step(step).is_some() && is_done;
        }
        is_done
    }

    fn step(&mut self, step: &Step) -> Option<()> {
        match step {
            Step::Join(gateway) => self.join(*gateway),
            Step::Ask(side, eui, gateway) => self.ask(side, *eui, *gateway),
            Step::Receive(side, bytes) => self.receive(side, *bytes),
            Step::Uplink(side, counter, confirmed, gateway) => {
                self.uplink(side, *counter, *confirmed, &front(*gateway))
            }
            Step::Later(gateway) => self.uplink(&Side::Near, 0, false, &front_later(*gateway)),
            Step::Longest => self.longest(),
            Step::Frame(frame, rate) => self.frame(frame, *rate),
            Step::Byte => is(self.near.send(&[0]).is_ok()),
            Step::First => sent(self.rt, &self.near, &[0]),
            Step::Nap(times) => {
                naps(self.rt, *times);
                Some(())
            }
            Step::Within(ms) => self.within(*ms),
            Step::Stand(ms) => self.ended.held.stand(self.rt, *ms),
            Step::Pull => self.pull(),
            Step::PushJoin => self.push_join(),
            Step::PushUplink(bytes) => self.push_uplink(*bytes),
            Step::Acknowledged(counter, number) => self.acknowledged(*counter, *number),
            Step::Again(counter) => self.again(*counter),
            Step::Copy(files) => copied(self.host, files),
            Step::Ended(lives) => self.ended.wait_for(self.rt, *lives),
            Step::Filled(path) => wait_for_byte(self.host, self.rt, path),
        }
    }

    fn socket(&self, side: &Side) -> &UdpSocket {
        match side {
            Side::Near => &self.near,
            Side::Far => &self.far,
        }
    }

    // Sends the datagram of a frame. How many bytes it has.
    fn send(&self, side: &Side, head: &[u8; 27], frame: &[u8]) -> Option<usize> {
        let datagram = heard(self.alloc, head, frame)?;
        self.socket(side).send(datagram.as_slice()).ok()
    }

    // Sends the datagram of a frame once the server is there.
    fn send_first(&self, side: &Side, head: &[u8; 27], frame: &[u8]) -> Option<()> {
        let datagram = heard(self.alloc, head, frame)?;
        sent(self.rt, self.socket(side), datagram.as_slice())
    }

    // Sends the datagram of a frame until the server is there, and gives how many bytes come back.
    fn ask_for(&mut self, frame: &[u8], gateway: u8) -> Option<usize> {
        let datagram = heard(self.alloc, &front(gateway), frame)?;
        asked(self.rt, &self.near, datagram.as_slice(), &mut self.buf)
    }

    fn join(&mut self, gateway: u8) -> Option<()> {
        let request = self.device.join_request(DevNonce(1));
        if self.ask_for(&request, gateway)? != 45 {
            return None;
        }
        let mut device = self.device;
        device.accept(DevNonce(1), &self.buf[28..45]).ok()?;
        self.device = device;
        Some(())
    }

    fn ask(&self, side: &Side, eui: u64, gateway: u8) -> Option<()> {
        let request = device_of(DevEui(eui)).join_request(DevNonce(1));
        self.send_first(side, &front(gateway), &request)
    }

    fn receive(&self, side: &Side, want: usize) -> Option<()> {
        let mut buf = [0u8; 512];
        is(self.socket(side).recv(&mut buf).ok()? == want)
    }

    // Sends an uplink that is heard so.
    fn uplink(&self, side: &Side, counter: u32, confirmed: bool, head: &[u8; 27]) -> Option<()> {
        let mut room = [0u8; 64];
        let frame = test_uplink(&self.device, counter, confirmed, &mut room)?;
        is(self.send(side, head, frame).is_some())
    }

    fn longest(&self) -> Option<()> {
        let mut room = [0u8; 256];
        let frame = self
            .device
            .uplink(65_535, false, Some(223), &[0x5a; 242], &mut room)
            .ok()?;
        for gateway in 0xa0..0xb0 {
            if self.send(&Side::Near, &front(gateway), frame) != Some(283) {
                return None;
            }
        }
        Some(())
    }

    fn frame(&self, frame: &[u8], rate: u8) -> Option<()> {
        let mut head = front(0xa1);
        head[22] = rate;
        self.send_first(&Side::Near, &head, frame)
    }

    fn within(&self, ms: u64) -> Option<()> {
        is(self.begun.elapsed(self.rt).ok()? < Duration::from_millis(ms))
    }

    fn pull(&mut self) -> Option<()> {
        let bytes = asked(self.rt, &self.far, &PULL_DATA, &mut self.buf)?;
        is(self.came(bytes) == PULL_ACK)
    }

    // What came last, of so many bytes.
    fn came(&self, bytes: usize) -> &[u8] {
        self.buf.get(..bytes).unwrap_or(&[])
    }

    // Sends a frame that was heard at 868.1 MHz, DR5, waits until that is acknowledged, and gives how many bytes come at the far socket.
    fn push(&mut self, frame: &[u8]) -> Option<usize> {
        self.send_item(frame)?;
        let bytes = self.near.recv(&mut self.buf).ok()?;
        if self.came(bytes) != PUSH_ACK {
            return None;
        }
        self.far.recv(&mut self.buf).ok()
    }

    // Sends a frame that was heard so.
    fn send_item(&self, frame: &[u8]) -> Option<()> {
        let message = push_data(self.alloc, frame)?;
        is(self.near.send(message.as_slice()).is_ok())
    }

    // The Join-Accept's 17 bytes in base64 stand behind `{"txpk":{"codr":"4/5","data":"`.
    fn push_join(&mut self) -> Option<()> {
        let request = self.device.join_request(DevNonce(1));
        self.push(&request)?;
        let accept = STANDARD.decode(self.alloc, &self.buf[34..58]).ok()?;
        self.device.accept(DevNonce(1), accept.as_slice()).ok()
    }

    fn push_uplink(&mut self, want: usize) -> Option<()> {
        let mut room = [0u8; 64];
        let frame = test_uplink(&self.device, 0, true, &mut room)?;
        let bytes = self.push(frame)?;
        is(bytes == want && contains(self.came(bytes), b"\"powe\":16"))
    }

    // The low byte of the number of an acknowledgement stands behind MHDR, DevAddr and FCtrl.
    fn acknowledged(&mut self, counter: u32, number: u8) -> Option<()> {
        let mut room = [0u8; 64];
        let frame = test_uplink(&self.device, counter, true, &mut room)?;
        self.ask_for(frame, 0xa1)?;
        is(self.buf[34] == number)
    }

    fn again(&self, counter: u32) -> Option<()> {
        let mut room = [0u8; 64];
        let frame = test_uplink(&self.device, counter, false, &mut room)?;
        self.send_first(&Side::Near, &front(0xa1), frame)
    }
}

fn is(so: bool) -> Option<()> {
    if so { Some(()) } else { None }
}

// An uplink of this counter.
fn test_uplink<'a>(
    device: &TestDevice,
    counter: u32,
    confirmed: bool,
    room: &'a mut [u8],
) -> Option<&'a [u8]> {
    device
        .uplink(counter, confirmed, Some(1), b"test", room)
        .ok()
}

// The item of a frame that was heard at 868.1 MHz, DR5.
fn item(alloc: Global, frame: &[u8]) -> Option<String> {
    let data = STANDARD.encode(alloc, frame).ok()?;
    format!(in alloc;
        "{{\"rxpk\":[{{\"tmst\":1000000,\"freq\":868.1,\"stat\":1,\"modu\":\"LORA\",\"datr\":\"SF7BW125\",\"rssi\":-95,\"lsnr\":7.5,\"data\":\"{data}\"}}]}}"
    ).ok()
}

// The message with which a forwarder sends it.
fn push_data(alloc: Global, frame: &[u8]) -> Option<Vec<u8>> {
    let item = item(alloc, frame)?;
    let mut message = Vec::from_slice(alloc, &PUSH_DATA).ok()?;
    message.extend_from_slice(item.as_bytes()).ok()?;
    Some(message)
}
