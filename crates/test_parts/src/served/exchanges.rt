//! The time that a connection to the join server has.

use crate::loopback::local;
use crate::served::standing::Standing;
use ns_outside::Connections;
use ns_serve_state::State;
use ns_serve_streams::ToJoinServer;
use ns_types::Sink;
use std::net::{Net, SocketAddr, TcpListener, TcpStream};
use std::sync::Wait;
use std::time::Clock;

// Whether nothing is written to a join server to which connecting took as long as it may.
fn is_over<R>(rt: &Standing<'_, R>, state: &State, addr: SocketAddr) -> bool
where
    R: Wait + Clock + Net<Listener = TcpListener, Stream = TcpStream>,
{
    match ToJoinServer::new(rt, addr, &state.counts.exchanges).open(rt) {
        Some(mut stream) => stream.write(&[0]).is_err(),
        None => false,
    }
}

/// Whether connecting and the exchange take 4 s together at most, which are counted from connecting on.
pub fn are_over_in_time<R>(rt: &Standing<'_, R>, state: &State) -> bool
where
    R: Wait + Clock + Net<Listener = TcpListener, Stream = TcpStream>,
{
    let Ok(server) = TcpListener::bind(rt.host(), local(0)) else {
        return false;
    };
    match server.local_addr() {
        Ok(addr) => is_over(rt, state, addr) && state.counts.exchanges.sum_ms() == 4000,
        Err(_) => false,
    }
}
