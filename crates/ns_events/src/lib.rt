//! What an application is told of an uplink, a join or an acknowledgement: one JSON object on a line.
//!
//! `uplink_json` gives the text of an uplink, which `specs/Uplink.antt` defines member by member, with the names that ChirpStack and The
//! Things Stack give to what they have in common with this server. `join_json` and `ack_json` give those of joins and of acknowledgements
//! (`specs/Notice.antt`). A text has a fixed size and takes no memory. The wall clock's times are the caller's, and no clause says that
//! they are right. The crate stands on `ns_types`, `ns_calls`, on `ns_output` for the times, on definitions of `ns_lines`, and on
//! `arrayvec`, `hex`, `itoa`, `base64` and `json` of the kit; of the last two only definitions.
#![tactic(auto)]

mod event;
mod laws;
mod lora;
mod notice;
mod put;
mod times;

pub use event::uplink_json;
pub use laws::{
    notices_have_no_line_feed, notices_read_back, uplinks_have_no_line_feed, uplinks_read_back,
};
pub use notice::{ack_json, join_json};
pub use put::Text;
