//! The steps of the example: a device joins, and two gateways hear an uplink of it.

ghost use Rattle.std.specs.Prelude.{◌≡◌, ◌∷◌, [], map, IfOk, Some};
ghost use Rattle.ns_acts.specs.declared.step.Act.TheVariants.{Answer, Close};
ghost use Rattle.worked_texts.specs.Heard.{heard};

use hex::FromHexError;
use ns_acts::{Act, DatagramBytes, OwnedBytes, Step};
use ns_types::{DevEui, Ticket, WindowName};
use std::alloc::Global;

const JOIN_REQUEST: &str =
    "010100000000000000a100000000000f424033be27a005fc4a004b170004030201040302010d00000000000000010001000000";

const JOIN_ANSWER: &str =
    r#"{"AppSKey":{"AESKey":"ec925802ae430ca77fd3dd73cb2cc588","KEKLabel":""},"MessageType":"JoinAns","NwkSKey":{"AESKey":"44024241ed4ce9a68c6a8bc055233fd3","KEKLabel":""},"PHYPayload":"20000102030405060708090a0b0c0d0e0f","Result":{"ResultCode":"Success"},"TransactionID":1}"#;

const UPLINK_AT_FIRST: &str =
    "010100000000000000a100000000000f424033be27a005fc4a004b1140f17dbe4900020001954378762b11ff0d";

const UPLINK_AT_SECOND: &str =
    "010100000000000000a200000000000f462833be27a005fc1800501140f17dbe4900020001954378762b11ff0d";

/// The ticket of the Join-Request, which is its frame: MHDR, JoinEUI, DevEUI, DevNonce and MIC, each with its lowest byte first.
pub const TICKET: Ticket = Ticket([
    0x00, 4, 3, 2, 1, 4, 3, 2, 1, 0x0d, 0, 0, 0, 0, 0, 0, 0, 1, 0, 1, 0, 0, 0,
]);

// The window of the uplink: the first session of the device, and the uplink's counter.
const WINDOW: WindowName = WindowName {
    eui: DevEui(0x0d),
    session: 1,
    fcnt: 2,
    round: 1,
};

// A step of the one worker.
fn step(act: Act) -> Step
    ensures { result.act ≡ act }
{
    Step { worker: 0, act }
}

// The step of a datagram that hex digits spell.
fn heard(alloc: Global, digits: &str) -> Result<Step, FromHexError>
    ensures { IfOk result (λ s. heard digits.now ≡ Some s.act) }
{
    let bytes = hex::decode(alloc, digits)?;
    Ok(step(Act::Datagram(DatagramBytes::new(bytes))))
}

/// The steps, in order.
pub fn worked_steps(alloc: Global) -> anyhow::Result<Vec<Step>>
    ensures { IfOk result (λ steps. map (λ s. Some s.act) steps.items ≡
        heard JOIN_REQUEST.now ∷ Some (Answer TICKET JOIN_ANSWER.now)
        ∷ heard UPLINK_AT_FIRST.now ∷ heard UPLINK_AT_SECOND.now ∷ Some (Close WINDOW) ∷ []) }
{
    let body = OwnedBytes::new(Vec::from_slice(alloc, JOIN_ANSWER.as_bytes())?);
    let mut steps = Vec::new(alloc);

    // Any bytes may come from a gateway: they make one call, or are refused with the number of their fault (G or V).
    steps.push(heard(alloc, JOIN_REQUEST)?)?;

    // Any text may come from a join server: one that is no good answer makes the same call as `Act::Lost`, that the join failed.
    steps.push(step(Act::Answer {
        ticket: TICKET,
        body,
    }))?;

    // The first copy of an uplink opens a window, and the second is added to it.
    steps.push(heard(alloc, UPLINK_AT_FIRST)?)?;
    steps.push(heard(alloc, UPLINK_AT_SECOND)?)?;

    // The closing hands out the uplink, with just the copies of its window. No other step hands out an uplink.
    steps.push(step(Act::Close(WINDOW)))?;
    Ok(steps)
}
