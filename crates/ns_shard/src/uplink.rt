//! What comes of an uplink.

ghost use Rattle.std.specs.Prelude.{◌≡◌, nat_le, IsSome, OnOk, OnErr, None, Some, position, if◌then◌else◌};
ghost use Rattle.ns_types.specs.declared.identity.WindowName.{WindowName};
ghost use Rattle.ns_views.specs.Frame.{is_confirmed};
ghost use Rattle.ns_calls.specs.declared.call.Reply.TheVariants.{Opened, Again};
ghost use Rattle.ns_calls.specs.Reply.{most_windows, window_of};
ghost use Rattle.ns_windows.specs.Windows.{window_named, window_of_frame, count};
ghost use Rattle.ns_devices.specs.Devices.{is_own, fit_at, IsNew, keys_in};
ghost use Rattle.ns_shard.specs.Private.Reaction.{added_reply, with_window, open_reply, round_of, again_reply, uplink_reply, HasPlace, CanOpen};
ghost use Rattle.ns_shard.specs.Private.Uplink.{UplinkEnds};

use crate::event::Event;
use ns_calls::{DataFrame, MOST_WINDOWS, Reply};
use ns_devices::{Devices, Placed};
use ns_sessions::Recovery;
use ns_types::{DevEui, Heard, WindowName};
use ns_windows::{Addition, Windows};
use std::alloc::AllocError;

// The reply to one more copy of an open window.
fn copy_reply(addition: Addition) -> Reply
    ensures { result ≡ added_reply addition }
{
    match addition {
        Addition::Copied { window, place } => Reply::Copied { window, place },
        Addition::Crowded { window } => Reply::Crowded { window },
    }
}

// Puts a window with its first copy. It takes the one growth of an uplink.
#[inline(always)]
fn put(
    devices: &Devices,
    windows: &mut Windows,
    place: usize,
    name: &WindowName,
    frame: &DataFrame,
    heard: &Heard,
) -> Result<(), AllocError>
    requires place { position (is_own name.now.eui) devices.now ≡ Some place }
    requires keys { IsSome (keys_in devices.now name.now) }
    requires name { window_named name.now windows.old ≡ None }
    requires frame { window_of_frame frame.now windows.old ≡ None }
    ensures windows { OnOk result (windows.new ≡ with_window frame.now heard.now name.now (keys_in devices.now name.now) windows.old) }
    ensures err { OnErr result (windows.new ≡ windows.old) }
{
    let Some((nwk, app)) = devices.keys(place, name) else {
        unreachable!()
    };
    windows.open(name, frame, heard, nwk, app)
}

// Whether a device has as many open windows as it may have.
fn is_busy(windows: &Windows, eui: DevEui) -> bool
    ensures { result ≡ nat_le most_windows (count eui windows.now) }
{
    windows.has_as_many(eui, MOST_WINDOWS)
}

// Takes an uplink with a new counter, which fits there.
#[inline(always)]
fn open(
    devices: &mut Devices,
    windows: &mut Windows,
    fit: &Placed,
    frame: &DataFrame,
    heard: &Heard,
) -> Result<Event, AllocError>
    requires fit { position (is_own fit.now.eui) devices.old ≡ Some fit.now.place }
    requires new { IsNew devices.old (window_of (fit_at fit.now)) }
    requires place { let f = fit_at fit.now in open_reply windows.old f ≡ Opened (window_of f) → HasPlace devices.old windows.old (window_of f) }
    requires frame { window_of_frame frame.now windows.old ≡ None }
    ensures { UplinkEnds frame.now heard.now devices.old windows.old (open_reply windows.old (fit_at fit.now)) result devices.new windows.new }
{
    let name = fit.window();
    if is_busy(windows, name.eui) {
        return Ok(Event::Quiet(Reply::Busy { eui: name.eui }));
    }
    put(devices, windows, fit.place, &name, frame, heard)?;
    devices.open(fit.place, &name);
    Ok(Event::Opened(Reply::Opened { window: name }))
}

// The round in which a frame is acknowledged again, which fits there: it is a Confirmed Data Up, and the window of the round before is
// closed.
fn round_of(devices: &Devices, windows: &Windows, fit: &Placed, frame: &DataFrame) -> Option<u32>
    requires { position (is_own fit.now.eui) devices.now ≡ Some fit.now.place }
    ensures { result ≡ (if is_confirmed frame.now then round_of devices.now windows.now (fit_at fit.now) else None) }
{
    if !frame.view().confirmed() {
        return None;
    }
    let round = devices.next_round(fit)?;
    if windows.is_open(&fit.in_round(round - 1)) {
        None
    } else {
        Some(round)
    }
}

// Takes an uplink at or below the greatest counter, which fits there.
#[inline(never)]
fn open_again(
    devices: &mut Devices,
    windows: &mut Windows,
    fit: &Placed,
    frame: &DataFrame,
    heard: &Heard,
) -> Result<Event, AllocError>
    requires fit { position (is_own fit.now.eui) devices.old ≡ Some fit.now.place }
    requires place { (name : WindowName) → again_reply devices.old windows.old frame.now (fit_at fit.now) ≡ Again name
        → HasPlace devices.old windows.old name }
    requires frame { window_of_frame frame.now windows.old ≡ None }
    ensures { UplinkEnds frame.now heard.now devices.old windows.old (again_reply devices.old windows.old frame.now (fit_at fit.now)) result devices.new windows.new }
{
    let Some(round) = round_of(devices, windows, fit, frame) else {
        return Ok(Event::Quiet(Reply::Old {
            eui: fit.eui,
            session: fit.session,
            fcnt: fit.counter,
        }));
    };
    let name = fit.in_round(round);
    if is_busy(windows, name.eui) {
        return Ok(Event::Quiet(Reply::Busy { eui: name.eui }));
    }
    put(devices, windows, fit.place, &name, frame, heard)?;
    devices.open_again(fit.place, &name);
    Ok(Event::Opened(Reply::Again { window: name }))
}

/// Takes an uplink. Only an opening wants memory: where a growth is refused, nothing has changed.
#[inline(always)]
pub fn uplink(
    devices: &mut Devices,
    windows: &mut Windows,
    frame: &DataFrame,
    heard: &Heard,
) -> Result<Event, AllocError>
    requires open { CanOpen devices.old windows.old frame.now }
    ensures { UplinkEnds frame.now heard.now devices.old windows.old (uplink_reply devices.old windows.old frame.now) result devices.new windows.new }
{
    if let Some(addition) = windows.add_copy_of(frame, heard) {
        return Ok(Event::Quiet(copy_reply(addition)));
    }
    let view = frame.view();
    if let Some(fit) = devices.fit(Recovery::Above, &view) {
        return open(devices, windows, &fit, frame, heard);
    }
    match devices.fit(Recovery::Below, &view) {
        Some(fit) => open_again(devices, windows, &fit, frame, heard),
        None => Ok(Event::Quiet(Reply::NoSession)),
    }
}
