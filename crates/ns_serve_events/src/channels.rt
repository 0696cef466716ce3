//! Where the jobs of gateway workers go.

use crossbeam_channel::Sender;
use ns_outside::{AskJob, CloseJob, Job, Jobs};
use ns_serve_state::{State, closing_of, now_ms};
use ns_types::{Ticket, WindowName};
use std::alloc::AllocError;
use std::sync::Wait;
use std::time::Clock;

/// Windows go to the closer by a channel, and tickets to the queue of the join workers.
#[derive(Drop)]
pub struct IntoQueues<'a> {
    /// The closer's channel.
    pub closes: Sender<CloseJob>,
    /// What has the queue.
    pub state: &'a State,
}

impl<'a, R: Wait> Jobs<R, Job> for IntoQueues<'a> {
    fn put(&mut self, rt: &R, job: Job) -> Result<(), Job> {
        match job {
            Job::Close(job) => match self.closes.send(rt, job) {
                Ok(()) => Ok(()),
                Err(error) => Err(Job::Close(error.into_inner())),
            },
            Job::Ask(job) => match self.state.asks.put(rt, job) {
                Ok(()) => Ok(()),
                Err(job) => Err(Job::Ask(job)),
            },
        }
    }
}

/// Hands on what an earlier life left open: its windows are due once copies were waited for, and its tickets are too old to be asked
/// about. Refused where a growth was.
pub fn hand_on<R: Wait + Clock>(
    rt: &R,
    state: &State,
    windows: Vec<WindowName>,
    tickets: Vec<Ticket>,
    closes: &Sender<CloseJob>,
) -> Result<(), AllocError> {
    let due = closing_of(now_ms(rt, state), state.window_ms);
    for name in windows {
        if closes.send(rt, CloseJob { name, due }).is_err() {
            return Err(AllocError);
        }
    }
    for ticket in tickets {
        let (since, due) = (0, 0);
        if state.asks.put(rt, AskJob { ticket, since, due }).is_err() {
            return Err(AllocError);
        }
    }
    Ok(())
}
