//! Those around a server over loopback: gateways, devices and a join server.

use crate::parties::text::place_of;
use crate::worked::{HEAD, HEAD_2};
use crate::{TestDevice, TestJoinServer};
use ns_types::{DevEui, JoinEui, Key};
use std::alloc::Global;
use std::io::{ErrorKind, Read, Write};
use std::net::{Net, SocketAddr, TcpListener, TcpStream, UdpSocket};
use std::thread;
use std::time::{Clock, Duration};

/// A roster with the devices 13 and 14.
pub const ROSTER_B: &str =
    r#"{"version":1,"net_id":"000024","rx1_offset":0,"rx_delay":1,"devices":[{"dev_eui":"000000000000000d","join_eui":"0102030401020304","slot":1998321},{"dev_eui":"000000000000000e","join_eui":"0102030401020304","slot":1998322}]}"#;

// The AppKey of both.
const APP_KEY: Key = Key([7; 16]);

// How often a peer tries again, with a sleep of 10 ms before each time.
const TRIES: u32 = 500;

/// Sleeps for 10 ms.
pub fn nap<R: Clock>(rt: &R) {
    let _ = thread::sleep(rt, Duration::from_millis(10));
}

/// Sleeps so many times for 10 ms.
pub fn naps<R: Clock>(rt: &R, times: u32) {
    for _ in 0..times {
        nap(rt);
    }
}

/// A device that has not joined.
pub fn device_of(eui: DevEui) -> TestDevice {
    TestDevice::new(eui, JoinEui(0x0102_0304_0102_0304), APP_KEY)
}

/// What a gateway of this number hears at 868.1 MHz, DR5, before the frame.
pub fn front(gateway: u8) -> [u8; 27] {
    let mut head = HEAD;
    head[9] = gateway;
    head
}

/// The same 1 ms later, with a greater SNR.
pub fn front_later(gateway: u8) -> [u8; 27] {
    let mut head = HEAD_2;
    head[9] = gateway;
    head
}

/// An address of this host.
pub fn local(port: u16) -> SocketAddr {
    SocketAddr::from(([127, 0, 0, 1], port))
}

/// A socket of a gateway, whose receives wait five seconds.
pub fn socket_to<R: Net>(rt: &R, port: u16) -> Option<UdpSocket> {
    let socket = UdpSocket::bind(rt, local(0)).ok()?;
    let wait = Some(Duration::from_millis(5000));
    if socket.connect(local(port)).is_ok() && socket.set_read_timeout(wait).is_ok() {
        return Some(socket);
    }
    None
}

// The connection that comes within five seconds.
fn accepted<R: Clock>(rt: &R, listener: &TcpListener) -> Option<TcpStream> {
    for _ in 0..TRIES {
        if let Ok((stream, _)) = listener.accept() {
            return Some(stream);
        }
        nap(rt);
    }
    None
}

// The body of a request, as far as it has come.
fn body(bytes: &[u8]) -> &[u8] {
    match place_of(bytes, b"\r\n\r\n") {
        Some(end) => bytes.get(end.saturating_add(4)..).unwrap_or(&[]),
        None => &[],
    }
}

// Reads what has come of a request behind these bytes.
fn read_more(stream: &TcpStream, bytes: &mut Vec<u8>) -> Option<()> {
    let mut buf = [0u8; 1024];
    let n = { stream }.read(&mut buf).ok()?;
    bytes.extend_from_slice(&buf[..n]).ok()
}

// Reads a JoinReq of 281 bytes with its head.
fn request(alloc: Global, stream: &TcpStream) -> Option<Vec<u8>> {
    let mut bytes: Vec<u8> = Vec::new(alloc);
    for _ in 0..TRIES {
        read_more(stream, &mut bytes)?;
        if body(bytes.as_slice()).len() >= 281 {
            return Some(bytes);
        }
    }
    None
}

// Answers with this text, behind a head of its own.
fn respond(alloc: Global, stream: &TcpStream, text: &str) -> Option<()> {
    let length = text.len();
    let head = format!(in alloc; "HTTP/1.1 200 OK\r\nContent-Length: {length}\r\n\r\n").ok()?;
    { stream }.write_all(head.as_bytes()).ok()?;
    { stream }.write_all(text.as_bytes()).ok()
}

// Reads a JoinReq and answers it.
fn answer(alloc: Global, stream: &TcpStream, server: &mut TestJoinServer) -> Option<()> {
    let request = request(alloc, stream)?;
    let text = server.reply(alloc, body(request.as_slice())).ok()?;
    respond(alloc, stream, text.as_str())
}

// Waits for so many connections.
fn accept_all<R: Clock>(
    rt: &R,
    listener: &TcpListener,
    streams: &mut Vec<TcpStream>,
    count: usize,
) -> Option<()> {
    listener.set_nonblocking(true).ok()?;
    for _connection in 0..count {
        streams.push(accepted(rt, listener)?).ok()?;
    }
    Some(())
}

// Answers each of these connections.
fn answer_all(alloc: Global, streams: &[TcpStream], server: &mut TestJoinServer) -> Option<()> {
    for stream in streams {
        answer(alloc, stream, server)?;
    }
    Some(())
}

// A join server with both devices.
fn with_devices(alloc: Global) -> Option<TestJoinServer> {
    let mut server = TestJoinServer::new(alloc);
    server.add(DevEui(13), APP_KEY).ok()?;
    server.add(DevEui(14), APP_KEY).ok()?;
    Some(server)
}

/// A join server that answers so many connections once all of them have come.
pub fn join_server<R: Clock>(
    rt: &R,
    alloc: Global,
    listener: &TcpListener,
    count: usize,
) -> Option<()> {
    let mut server = with_devices(alloc)?;
    let mut streams: Vec<TcpStream> = Vec::new(alloc);
    accept_all(rt, listener, &mut streams, count)?;
    answer_all(alloc, streams.as_slice(), &mut server)
}

/// The datagram of a frame behind the front of one.
pub fn heard(alloc: Global, head: &[u8; 27], frame: &[u8]) -> Option<Vec<u8>> {
    let mut bytes = Vec::from_slice(alloc, head).ok()?;
    bytes.push(u8::try_from(frame.len()).unwrap_or(0)).ok()?;
    bytes.extend_from_slice(frame).ok()?;
    Some(bytes)
}

/// Sends a datagram until the server is there, and gives what comes back within five seconds.
pub fn asked<R: Clock>(
    rt: &R,
    socket: &UdpSocket,
    datagram: &[u8],
    buf: &mut [u8],
) -> Option<usize> {
    for _ in 0..TRIES {
        let _ = socket.send(datagram);
        match socket.recv(buf) {
            Ok(n) => return Some(n),
            Err(error) => {
                if error.kind() != ErrorKind::ConnectionRefused {
                    return None;
                }
            }
        }
        nap(rt);
    }
    None
}

/// Sends a datagram until the server is there to take it.
pub fn sent<R: Clock>(rt: &R, socket: &UdpSocket, datagram: &[u8]) -> Option<()> {
    let mut buf = [0u8; 1];
    for _ in 0..TRIES {
        socket
            .set_read_timeout(Some(Duration::from_millis(20)))
            .ok()?;
        let _ = socket.send(datagram);
        if let Err(error) = socket.recv(&mut buf) {
            if error.kind() != ErrorKind::ConnectionRefused {
                socket
                    .set_read_timeout(Some(Duration::from_millis(5000)))
                    .ok()?;
                return Some(());
            }
        }
        nap(rt);
    }
    None
}
