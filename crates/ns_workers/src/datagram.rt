//! The call of a datagram.
ghost use Rattle.std.specs.Prelude.{◌≡◌, Ok, Err, IfErr, OnOk};
ghost use Rattle.ns_workers.specs.Serving.{call_in};

use ns_calls::Call;
use ns_link::read_datagram;
use ns_outside::Refused;
use ns_views::{PhyView, view};

// Puts the call of a datagram in the place of another, or says why it makes none. A call is large: so none is moved.
pub(crate) fn put_call(bytes: &[u8], call: &mut Call) -> Result<(), Refused>
    ensures call { OnOk result (call_in bytes.now ≡ Ok call.new) }
    ensures refused { IfErr result (λ why. call_in bytes.now ≡ Err why) }
{
    let datagram = match read_datagram(bytes) {
        Ok(datagram) => datagram,
        Err(fault) => return Err(Refused::Link(fault)),
    };
    let heard = datagram.heard();
    match view(datagram.frame()) {
        Ok(PhyView::Join(frame)) => {
            *call = Call::Join {
                ticket: frame.ticket(),
                heard,
            };
        }
        Ok(PhyView::Frame(frame)) => call.put_uplink(&frame, heard),
        Err(fault) => return Err(Refused::View(fault)),
    }
    Ok(())
}
