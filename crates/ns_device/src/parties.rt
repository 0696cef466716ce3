//! Gateways, a device and a join server over loopback, which take steps next to a server in a test. A runtime whose clock a test may hold,
//! over a logger of the test's; a writer that fails, the files of a folder, and texts that are expected.
//!
//! It promises only to be safe and to end. Each wait here lasts some seconds at most.

mod around;
mod ended;
mod folder;
mod network;
mod play;
mod text;
mod writer;

pub use around::{Around, Held};
pub use ended::Ended;
pub use folder::{emptied, has_lines, write_record};
pub use network::{ROSTER_B, join_server, local};
pub use play::{Party, Side, Step};
pub use text::{Want, contains, is_made_of};
pub use writer::Writer;
