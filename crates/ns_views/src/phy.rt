//! The view of an uplink frame (LoRaWAN L2 1.0.4, 4.1 and 4.2).

ghost use Rattle.std.specs.Prelude.{◌≡◌, IfOk, OnOk, IfErr, OnErr, Some, None};
ghost use Rattle.ns_views.specs.Frame.{view_fault};
ghost use Rattle.ns_views.specs.Views.{IsViewOf};
ghost use Rattle.ns_views.specs.Laws.{HasNoReading};

use crate::ViewFault;
use crate::data::DataView;
use crate::join::JoinView;

/// An uplink frame: a data frame or a Join-Request.
#[derive(Drop)]
pub enum PhyView<'a> {
    /// An Unconfirmed Data Up or a Confirmed Data Up.
    Frame(DataView<'a>),
    /// A Join-Request.
    Join(JoinView<'a>),
}

/// The view of an uplink's bytes. Tested in this order: V1 no bytes; V2 Major; V3 the type; V5 a
/// Join-Request of other than 23 bytes; V1 a data frame below 12 bytes; V6 one over 255 bytes;
/// V4 options that run into the MIC.
pub fn view<'a>(bytes: &'a [u8]) -> Result<PhyView<'a>, ViewFault>
    ensures view { IfOk result (IsViewOf bytes.now) }
    ensures no_fault { OnOk result (view_fault bytes.now ≡ None) }
    ensures fault { IfErr result (λ fault. view_fault bytes.now ≡ Some fault) }
    ensures no_reading { OnErr result (HasNoReading bytes.now) }
{
    let Some(&mhdr) = bytes.first() else {
        return Err(ViewFault::TooShort);
    };
    if mhdr % 4 != 0 {
        return Err(ViewFault::Major);
    }
    match mhdr / 32 {
        0 => Ok(PhyView::Join(JoinView::of(bytes)?)),
        2 | 4 => Ok(PhyView::Frame(DataView::of(bytes)?)),
        _ => Err(ViewFault::FrameType),
    }
}
