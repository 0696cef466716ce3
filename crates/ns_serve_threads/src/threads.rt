//! How threads are started, each with what it takes along, and waited for.
ghost use Rattle.std.specs.Prelude.{◌≡◌, ◌+◌, true, vec_len};

use std::alloc::{AllocError, Global};
use std::sync::Wait;
use std::thread;
use std::thread::{JoinHandle, Scope, Threads};

/// What a thread does with what it takes along, and what it brings back.
pub trait Work<K, O> {
    /// Does it.
    fn work(&self, kit: K) -> O;
}

/// What the thread takes along that starts the others: what it does with it, where all were made or not, and what it brings back.
pub trait Lead<O> {
    /// Does it.
    fn lead(self, is_whole: bool) -> O;
}

// Starts a thread, if one can be made.
fn start_thread<'s, E, A: Work<K, O> + Sync, K: Send + Drop + 's, O: Send + Drop + 's>(
    scope: &Scope<'s, E>,
    around: &'s A,
    kit: K,
) -> Option<JoinHandle<O>> {
    scope.spawn(move || around.work(kit)).ok()
}

// Starts a thread for each kit, and says whether all were made. The kits of those that were not made are dropped.
fn start_all<'s, E, A: Work<K, O> + Sync, K: Send + Drop + 's, O: Send + Drop + 's>(
    scope: &Scope<'s, E>,
    around: &'s A,
    mut kits: Vec<K>,
    handles: &mut Vec<JoinHandle<O>>,
) -> bool
    ensures { result ≡ true → vec_len handles.new ≡ vec_len handles.old + vec_len kits }
{
    while let Some(kit) = kits.pop() {
        let Some(handle) = start_thread(scope, around, kit) else {
            return false;
        };
        if handles.push(handle).is_err() {
            return false;
        }
    }
    true
}

// Starts a thread that brings nothing back, where there is a kit for it, and says whether it was made.
fn start_helper<'s, E, A: Work<H, ()> + Sync, H: Send + Drop + 's>(
    scope: &Scope<'s, E>,
    around: &'s A,
    kit: Option<H>,
    helpers: &mut Vec<JoinHandle<()>>,
) -> bool {
    let Some(kit) = kit else {
        return true;
    };
    let Some(handle) = start_thread(scope, around, kit) else {
        return false;
    };
    helpers.push(handle).is_ok()
}

/// Waits for the ends of these threads.
pub fn join_helpers<R: Threads + Wait>(rt: &R, helpers: Vec<JoinHandle<()>>) {
    for helper in helpers {
        helper.join(rt);
    }
}

/// The threads that were made, by what they bring back.
#[derive(Drop)]
pub struct Handles<O> {
    pub gateways: Vec<JoinHandle<O>>,
    pub joiners: Vec<JoinHandle<O>>,
    pub helpers: Vec<JoinHandle<()>>,
}

impl<O: Drop> Handles<O> {
    /// None, with room for so many workers.
    pub fn room(alloc: Global, gateways: usize, joiners: usize) -> Result<Handles<O>, AllocError> {
        let gateways = Vec::with_capacity(alloc, gateways)?;
        Ok(Handles {
            gateways,
            joiners: Vec::with_capacity(alloc, joiners)?,
            helpers: Vec::new(alloc),
        })
    }
}

/// What the threads take along that are to be started.
#[derive(Drop)]
pub struct Starts<J, G, H> {
    pub joins: Vec<J>,
    pub gateways: Vec<G>,
    /// That of who tells the status, where it is told.
    pub teller: Option<H>,
    /// That of who looks after the record, where there is one.
    pub keeper: Option<H>,
    /// That of who writes the record's lines in time, where there is one.
    pub writer: Option<H>,
}

// Starts a thread for each kit, and says whether all were made. What those take along that were not made is dropped: a sender among it
// would keep the closer's channel open.
fn start_threads<
    's,
    E,
    A: Work<J, O> + Work<G, O> + Work<H, ()> + Sync,
    J: Send + Drop + 's,
    G: Send + Drop + 's,
    H: Send + Drop + 's,
    O: Send + Drop + 's,
>(scope: &Scope<'s, E>, around: &'s A, starts: Starts<J, G, H>, handles: &mut Handles<O>) -> bool
    ensures joiners { result ≡ true → vec_len handles.new.joiners ≡ vec_len handles.old.joiners + vec_len starts.joins }
    ensures gateways { result ≡ true → vec_len handles.new.gateways ≡ vec_len handles.old.gateways + vec_len starts.gateways }
{
    let Starts {
        joins,
        gateways,
        teller,
        keeper,
        writer,
    } = starts;
    start_all(scope, around, joins, &mut handles.joiners)
        && start_all(scope, around, gateways, &mut handles.gateways)
        && start_helper(scope, around, teller, &mut handles.helpers)
        && start_helper(scope, around, keeper, &mut handles.helpers)
        && start_helper(scope, around, writer, &mut handles.helpers)
}

/// What the thread brings back that started the others, and these.
#[derive(Drop)]
pub struct Ran<O> {
    pub own: O,
    pub handles: Handles<O>,
    /// Whether all were made.
    pub is_whole: bool,
}

/// Starts all join workers, all gateway workers, who tells the status where it is told, and who looks after the record and who writes its
/// lines where there is one, does in this thread what is its own, and comes back when all have ended.
pub fn run_threads<
    R: Threads + Wait,
    A: Work<J, O> + Work<G, O> + Work<H, ()> + Sync,
    J: Send + Drop,
    G: Send + Drop,
    H: Send + Drop,
    L: Lead<O> + Drop,
    O: Send + Drop,
>(rt: &R, around: &A, starts: Starts<J, G, H>, own: L, handles: Handles<O>) -> Ran<O> {
    thread::scope(thread::scope_env(), rt, |scope| {
        let mut handles = handles;
        let is_whole = start_threads(scope, around, starts, &mut handles);
        let own = own.lead(is_whole);
        Ran {
            own,
            handles,
            is_whole,
        }
    })
}
