//! What the threads of a server share, and its parts, by single calls where no server runs.

mod cases;
mod counted;
mod exchanges;
mod parts;
mod raised;
mod resting;
mod shared;
mod sockets;
mod standing;
mod states;
mod told;
