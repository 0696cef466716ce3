//! The closing roster of a run, from which the next run begins.

ghost use Rattle.std.specs.Prelude.{◌≡◌, ◌++◌, [], map, IfOk, OnOk, if◌then◌else◌};
ghost use Rattle.ns_roster.specs.Closing.{network_text, nonce_by, with_greatest};
ghost use Rattle.ns_runs.specs.NextRun.{greatest_among};
ghost use Rattle.ns_steps.specs.StepLines.{ended};

use ns_roster::{Device, Roster};
use ns_runs::Shards;
use ns_types::DevNonce;
use std::alloc::{AllocError, Global};

// The greatest nonces of devices after a run.
fn nonces_of(
    alloc: Global,
    devices: &[Device],
    shards: &Shards,
) -> Result<Vec<Option<DevNonce>>, AllocError>
    ensures { IfOk result (λ ns. ns.items ≡ map (nonce_by (greatest_among shards.now)) devices.now) }
{
    let mut nonces = Vec::with_capacity(alloc, devices.len())?;
    for device in devices {
        nonces.push(shards.greatest(device.eui))?;
    }
    Ok(nonces)
}

// Puts the text of the roster with its devices' greatest nonces after a run, and a line feed, at the end of a text.
fn put_roster(
    alloc: Global,
    text: &mut Vec<u8>,
    roster: &Roster,
    shards: &Shards,
) -> Result<(), AllocError>
    ensures { OnOk result (text.new.items ≡ text.old.items ++ ended (network_text (with_greatest roster.now (greatest_among shards.now)))) }
{
    let nonces = nonces_of(alloc, roster.devices(), shards)?;
    let line = roster.closing(alloc, nonces.as_slice())?;
    text.extend_from_slice(line.as_str().as_bytes())?;
    text.push(b'\n')?;
    Ok(())
}

/// Puts that line, where it is asked for.
pub fn put_closing(
    alloc: Global,
    text: &mut Vec<u8>,
    closing: bool,
    roster: &Roster,
    shards: &Shards,
) -> Result<(), AllocError>
    ensures { OnOk result (text.new.items ≡ text.old.items ++ (if closing then ended (network_text (with_greatest roster.now (greatest_among shards.now))) else [])) }
{
    if closing {
        put_roster(alloc, text, roster, shards)
    } else {
        Ok(())
    }
}
