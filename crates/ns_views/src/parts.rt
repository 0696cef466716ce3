//! The parts of a data uplink in a buffer, with the payload to write.

ghost use Rattle.std.specs.Prelude.{◌≡◌, ◌+◌, ◌-◌, ◌≤◌, ◌++◌, List, ℕ, length, take, drop, IfOk, OnOk, IfErr, OnErr, Some, None};
ghost use Rattle.ns_views.specs.Frame.{data_fields, fopts_len, parts_fault};
ghost use Rattle.ns_views.specs.Grammar.{IsDataUplink};
ghost use Rattle.ns_views.specs.Work.{TakesParts, WorksOnParts};

use crate::ViewFault;
use crate::data::DataView;
use crate::phy::{PhyView, view};

/// Lends the parts of a data uplink to `work`: the eight bytes up to the options and the options
/// to read, and the payload to write. When `work` is done, the buffer is as before with the
/// payload replaced by what was written there.
///
/// Tested as by `view`; a Join-Request is V3. After a fault `work` was not called, and the buffer
/// is as before.
pub fn parts_mut<R, F: FnOnce(&[u8], &[u8], &mut [u8]) -> R>(
    bytes: &mut [u8],
    work: F,
) -> Result<R, ViewFault>
    requires { parts_fault bytes.old ≡ None → TakesParts F.FnOnce work bytes.old }
    ensures done { IfOk result (λ r. WorksOnParts F.FnOnce work bytes.old r bytes.new) }
    ensures no_fault { OnOk result (parts_fault bytes.old ≡ None) }
    ensures fault { IfErr result (λ fault. parts_fault bytes.old ≡ Some fault) }
    ensures unchanged { OnErr result (bytes.new ≡ bytes.old) }
{
    test(bytes)?;
    Ok(known_parts_mut(bytes, work))
}

/// Lends the parts of bytes that are known to be a data uplink, as `parts_mut` does. Nothing of
/// them is tested.
pub fn known_parts_mut<R, F: FnOnce(&[u8], &[u8], &mut [u8]) -> R>(bytes: &mut [u8], work: F) -> R
    requires uplink { IsDataUplink bytes.old (data_fields bytes.old) }
    requires work { TakesParts F.FnOnce work bytes.old }
    ensures { WorksOnParts F.FnOnce work bytes.old result bytes.new }
{
    let places = Places::of(bytes);
    let (front, _mic) = bytes.split_at_mut(places.mic);
    let (head, payload) = front.split_at_mut(places.payload);
    let (header, rest) = head.split_at(8);
    let options = &rest[..places.options];
    work(header, options, payload)
}

/// Whether bytes are a data uplink.
fn test(bytes: &[u8]) -> Result<(), ViewFault>
    ensures uplink { OnOk result (IsDataUplink bytes.now (data_fields bytes.now)) }
    ensures no_fault { OnOk result (parts_fault bytes.now ≡ None) }
    ensures fault { IfErr result (λ fault. parts_fault bytes.now ≡ Some fault) }
{
    match view(bytes)? {
        PhyView::Frame(_) => Ok(()),
        PhyView::Join(_) => Err(ViewFault::FrameType),
    }
}

/// Where the parts of a data uplink stand.
#[derive(Drop)]
struct Places {
    /// How many bytes of options stand behind the header.
    options: usize,
    /// Where the payload begins: behind the port, where there is one.
    payload: usize,
    /// Where the MIC begins.
    mic: usize,
}

impl Places {
    fn of(bytes: &[u8]) -> Places
        requires { IsDataUplink bytes.now (data_fields bytes.now) }
        ensures options { result.options ≡ fopts_len bytes.now }
        ensures payload { result.payload ≡ length bytes.now - 4 - length (data_fields bytes.now).payload }
        ensures mic { result.mic ≡ length bytes.now - 4 }
        ensures order { 8 + result.options ≤ result.payload }
        ensures inside { (result.payload ≤ result.mic) × (result.mic + 4 ≡ length bytes.now) }
        ensures lent { drop result.payload (take result.mic bytes.now) ≡ (data_fields bytes.now).payload }
    {
        let frame = DataView::known(bytes);
        let options = frame.fopts().len();
        let mic = frame.bytes().len() - 4;
        Places {
            options,
            payload: mic.min(9 + options),
            mic,
        }
    }
}
