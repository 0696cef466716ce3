//! Addresses and sockets of this machine.

use std::net::{Net, SocketAddr, UdpSocket};
use std::time::Duration;

/// The address of this machine with this port.
pub fn local(port: u16) -> SocketAddr {
    SocketAddr::from(([127, 0, 0, 1], port))
}

/// A socket of this machine at this port, whose receives wait 5 s.
pub fn socket<R: Net>(rt: &R, port: u16) -> Option<UdpSocket> {
    let Ok(socket) = UdpSocket::bind(rt, local(port)) else {
        return None;
    };
    match socket.set_read_timeout(Some(Duration::from_secs(5))) {
        Ok(()) => Some(socket),
        Err(_) => None,
    }
}
