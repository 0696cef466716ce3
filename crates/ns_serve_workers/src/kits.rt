//! What the workers take along.
ghost use Rattle.std.specs.Prelude.{◌≡◌, ◌+◌, ◌≤◌, All, vec_len, IfOk, IfSome, IsNone};
ghost use Rattle.ns_tally.specs.Tally.{none_made};

use crossbeam_channel::Sender;
use ns_forwarder_socket::Pending;
use ns_outside::{Calls, CloseJob};
use ns_serve_state::State;
use std::alloc::{AllocError, Global};

/// A pass with which no call was made. It is all that a join worker takes along.
#[derive(Drop)]
pub(crate) struct PassKit<S: Calls<R>, R> {
    pub pass: S::Pass,
    ghost unused: { S.made pass ≡ none_made },
}

/// What a gateway worker takes along beside its pass.
#[derive(Drop)]
pub(crate) struct GatewayEnds {
    /// The room for a message, where forwarders are heard.
    pub pending: Option<Pending>,
    pub closes: Sender<CloseJob>,
}

/// What a gateway worker takes along.
#[derive(Drop)]
pub(crate) struct GatewayKit<S: Calls<R>, R> {
    pub own: PassKit<S, R>,
    pub ends: GatewayEnds,
}

/// What all workers take along.
#[derive(Drop)]
pub(crate) struct Kits<S: Calls<R>, R> {
    pub closer: PassKit<S, R>,
    pub joins: Vec<PassKit<S, R>>,
    pub gateways: Vec<GatewayKit<S, R>>,
}

// Takes a pass, if there is one.
fn take_pass<S: Calls<R>, R>(passes: &mut Vec<S::Pass>) -> Option<PassKit<S, R>>
    requires unused { All (λ p. S.made p ≡ none_made) passes.old.items }
    ensures count { IfSome result (λ k. vec_len passes.new + 1 ≡ vec_len passes.old) }
    ensures none { IsNone result → vec_len passes.old ≡ 0 }
    ensures unused { All (λ p. S.made p ≡ none_made) passes.new.items }
{
    let pass = passes.pop()?;
    Some(PassKit { pass })
}

// Takes so many passes for join workers.
fn join_kits<S: Calls<R>, R>(
    alloc: Global,
    passes: &mut Vec<S::Pass>,
    count: usize,
) -> Result<Vec<PassKit<S, R>>, AllocError>
    requires count { count ≤ vec_len passes.old }
    requires unused { All (λ p. S.made p ≡ none_made) passes.old.items }
    ensures count { IfOk result (λ kits. (vec_len kits ≡ count) × (vec_len passes.new + count ≡ vec_len passes.old)) }
    ensures unused { All (λ p. S.made p ≡ none_made) passes.new.items }
{
    let mut kits = Vec::with_capacity(alloc, count)?;
    while kits.len() < count {
        let Some(kit) = take_pass::<S, R>(passes) else {
            return Ok(kits);
        };
        kits.push_reserved(kit);
    }
    Ok(kits)
}

/// What so many gateway workers take along beside their passes.
pub(crate) fn gateway_ends(
    alloc: Global,
    closes: &Sender<CloseJob>,
    state: &State,
    count: usize,
) -> Result<Vec<GatewayEnds>, AllocError>
    ensures { IfOk result (λ ends. vec_len ends ≡ count) }
{
    let mut ends = Vec::with_capacity(alloc, count)?;
    for place in 0..count {
        let pending = state.pending_at(place)?;
        let closes = closes.clone()?;
        ends.push_reserved(GatewayEnds { pending, closes });
    }
    Ok(ends)
}

// Gives each gateway worker a pass.
fn gateway_kits<S: Calls<R>, R>(
    alloc: Global,
    passes: &mut Vec<S::Pass>,
    mut ends: Vec<GatewayEnds>,
) -> Result<Vec<GatewayKit<S, R>>, AllocError>
    requires count { vec_len ends ≤ vec_len passes.old }
    requires unused { All (λ p. S.made p ≡ none_made) passes.old.items }
    ensures count { IfOk result (λ kits. (vec_len kits ≡ vec_len ends) × (vec_len passes.new + vec_len ends ≡ vec_len passes.old)) }
    ensures unused { All (λ p. S.made p ≡ none_made) passes.new.items }
{
    let mut kits = Vec::with_capacity(alloc, ends.len())?;
    while let Some(end) = ends.pop() {
        let Some(own) = take_pass::<S, R>(passes) else {
            return Ok(kits);
        };
        kits.push_reserved(GatewayKit { own, ends: end });
    }
    Ok(kits)
}

/// Divides the passes: one for each join worker that is asked for and each gateway worker, and one for the closer.
pub(crate) fn kits_of<S: Calls<R>, R>(
    alloc: Global,
    mut passes: Vec<S::Pass>,
    join_workers: usize,
    ends: Vec<GatewayEnds>,
) -> Result<Kits<S, R>, AllocError>
    requires count { vec_len passes ≡ vec_len ends + join_workers + 1 }
    requires unused { All (λ p. S.made p ≡ none_made) passes.items }
    ensures joins { IfOk result (λ kits. vec_len kits.joins ≡ join_workers) }
    ensures gateways { IfOk result (λ kits. vec_len kits.gateways ≡ vec_len ends) }
{
    let gateways = gateway_kits::<S, R>(alloc, &mut passes, ends)?;
    let joins = join_kits::<S, R>(alloc, &mut passes, join_workers)?;
    let Some(closer) = take_pass::<S, R>(&mut passes) else {
        return Err(AllocError);
    };
    Ok(Kits {
        closer,
        joins,
        gateways,
    })
}
