//! What a call and its reply tell of a device.

ghost use Rattle.std.specs.Prelude.{◌≡◌};
ghost use Rattle.ns_views.specs.Frame.{data_fields};
ghost use Rattle.ns_status.specs.News.{news_of, gateway_of};

use ns_calls::{Call, DataFrame, Reply};
use ns_types::{DevAddr, DevEui, GatewayId, Heard, WindowName};

/// What is told of a device. It has no key and no payload in it.
#[derive(Clone, Copy)]
pub enum News {
    /// A session of it began.
    Joined {
        eui: DevEui,
        session: u32,
        addr: DevAddr,
    },
    /// A frame of it was heard that opened a window, or came to an open one.
    Heard {
        window: WindowName,
        addr: DevAddr,
        gateway: GatewayId,
        /// Whether its counter is a new one.
        is_new: bool,
    },
}

// A frame that was heard in a window.
fn heard_in(frame: &DataFrame, heard: &Heard, window: WindowName, is_new: bool) -> News
    ensures { result ≡ News.Heard window (record { 0 = (data_fields frame.now).addr }) heard.now.gateway is_new }
{
    News::Heard {
        window,
        addr: frame.view().dev_addr(),
        gateway: heard.gateway,
        is_new,
    }
}

/// What a call and its reply tell of a device, if they tell of one: that a session began, or that a frame with the right MIC came,
/// which is of a new counter or is the same frame again.
pub fn news_of(call: &Call, reply: &Reply) -> Option<News>
    ensures { result ≡ news_of call.now reply.now }
{
    if let Reply::Accepted { eui, session, addr } = *reply {
        return Some(News::Joined { eui, session, addr });
    }
    let Call::Uplink { frame, heard } = call else {
        return None;
    };
    match *reply {
        Reply::Opened { window } => Some(heard_in(frame, heard, window, true)),
        Reply::Copied { window, .. } | Reply::Crowded { window } | Reply::Again { window } => {
            Some(heard_in(frame, heard, window, false))
        }
        _ => None,
    }
}

/// The gateway of a call, which is not authenticated.
pub fn gateway_of(call: &Call) -> Option<GatewayId>
    ensures { result ≡ gateway_of call.now }
{
    match call {
        Call::Uplink { heard, .. } | Call::Join { heard, .. } => Some(heard.gateway),
        Call::JoinReply { .. } | Call::Close { .. } => None,
    }
}
