//! The closing roster of a server that has ended, from which the next run begins.

ghost use Rattle.std.specs.Prelude.{◌≡◌, map, IfOk, string_bytes};
ghost use Rattle.ns_roster.specs.Closing.{nonce_by};
ghost use Rattle.ns_server.specs.Settled.{greatest_of};
ghost use Rattle.ns_serve_shards.specs.Closing.{roster_text};

use ns_roster::{Device, Roster};
use ns_server::{Naming, Settled};
use ns_types::DevNonce;
use std::alloc::{AllocError, Global};

// The greatest nonces of devices.
fn nonces_of<B: Naming>(
    alloc: Global,
    devices: &[Device],
    settled: &Settled<B>,
) -> Result<Vec<Option<DevNonce>>, AllocError>
    ensures { IfOk result (λ ns. ns.items ≡ map (nonce_by (greatest_of B.roster settled.now)) devices.now) }
{
    let mut nonces = Vec::with_capacity(alloc, devices.len())?;
    for device in devices {
        nonces.push(settled.greatest(device.eui))?;
    }
    Ok(nonces)
}

/// The text of the roster with its devices' greatest nonces.
pub(crate) fn closing_text<B: Naming>(
    alloc: Global,
    roster: &Roster,
    settled: &Settled<B>,
) -> Result<String, AllocError>
    requires { roster.now ≡ B.roster }
    ensures { IfOk result (λ s. string_bytes s ≡ roster_text B.roster settled.now) }
{
    let nonces = nonces_of(alloc, roster.devices(), settled)?;
    roster.closing(alloc, nonces.as_slice())
}
