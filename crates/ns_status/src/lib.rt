//! What a server knows of its devices and gateways, told over HTTP to who asks: read alone.
//!
//! - `Devices` has a place for each device of the roster, and `Gateways` the gateways heard last. `news_of` takes from a call and its
//!   reply what they tell of a device, which has no key and no payload in it: so nothing here can tell a key. A note takes no memory
//!   for a device, and changes what is known of that device alone.
//! - The texts: `put_devices` and `put_gateways` for JSON, of which a list is written in pieces; `put_metrics` in the text format of
//!   Prometheus; `page_text` for a browser, which has its script in itself and asks for the others.
//! - HTTP/1.1, one request a connection: `read_request` reads a head of at most 4,096 bytes, and `head_of` is that of a response.
//!
//! Each text but the page's is exactly the one that `specs/` defines. Stands on ns_types, ns_views, ns_roster and ns_calls, and on arrayvec, hex,
//! httparse, itoa, lru and serde_json of the kit.
#![tactic(auto)]

mod airtime;
mod devices;
mod gateways;
mod metrics;
mod news;
mod page;
mod parts;
mod request;
mod response;
mod rows;

pub use airtime::{Airtime, Slot, airtime_us};
pub use devices::{Device, Devices, HeardBy};
pub use gateways::{Gateway, Gateways, Sign};
pub use metrics::{
    Family, Histogram, Kind, Lists, Times, Totals, VERSION, put_by_gateway, put_histogram,
    put_metrics, put_named, put_one, put_timed, put_timed_by_gateway,
};
pub use news::{News, gateway_of, news_of};
pub use page::page_text;
pub use request::{Part, Request, RequestFault, Route, read_request, request_in};
pub use response::{Content, Status, head_of};
pub use rows::{put_devices, put_end, put_front, put_gateways};
