//! What a call got.
ghost use Rattle.std.specs.Prelude.{◌≡◌};
ghost use Rattle.ns_outside.specs.Receipts.{empty_receipt, receipt_of};

use ns_calls::{Answer, Call, Downlink, Entry, Reply, Uplink};
use ns_types::{DevEui, WindowName};

/// What a call got: its shard, the entry that it made, and what goes out with it.
#[derive(Debug, PartialEq, Eq, Drop)]
pub struct Receipt {
    pub shard: u8,
    pub entry: Entry,
    pub uplink: Option<Uplink>,
    pub downlink: Option<Downlink>,
}

impl Receipt {
    /// A receipt of no call: room for those of calls.
    pub fn empty() -> Receipt
        ensures { result ≡ empty_receipt }
    {
        let window = WindowName {
            eui: DevEui(0),
            session: 0,
            fcnt: 0,
            round: 0,
        };
        Receipt {
            shard: 0,
            entry: Entry {
                number: 0,
                call: Call::Close { window },
                reply: Reply::NoWindow,
            },
            uplink: None,
            downlink: None,
        }
    }

    /// Makes this the receipt of a call that made the entry of this number. The reply, and what goes out with it, are there.
    #[inline(always)]
    pub fn put(&mut self, shard: u8, number: u64, call: &Call)
        ensures { self.new ≡ receipt_of shard number call.now (record { reply = self.old.entry.reply; uplink = self.old.uplink; downlink = self.old.downlink }) }
    {
        self.entry.call.copy_from(call);
        self.entry.number = number;
        self.shard = shard;
    }
}

/// The receipt of a call that made the entry of this number, with this answer.
pub fn receipt_of(shard: u8, number: u64, call: &Call, answer: Answer) -> Receipt
    ensures { result ≡ receipt_of shard number call.now answer }
{
    Receipt {
        shard,
        entry: Entry {
            number,
            call: *call,
            reply: answer.reply,
        },
        uplink: answer.uplink,
        downlink: answer.downlink,
    }
}
