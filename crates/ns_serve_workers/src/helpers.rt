//! Who tells the status, who looks after the record and who writes its lines in time, each from its start to its end.

use crate::around::Around;
use ns_record_files::Upkeep;
use ns_serve_state::{look_after_record, write_in_time};
use ns_serve_status::tell;
use ns_serve_threads::Work;
use std::sync::Wait;
use std::time::Clock;

/// What a thread takes along that brings nothing back.
#[derive(Drop)]
pub(crate) enum HelperKit<U> {
    /// That of who tells the status.
    Teller,
    /// That of who looks after the record.
    Keeper(U),
    /// That of who writes the record's lines in time.
    Writer,
}

impl<'a, S, R: Wait + Clock, G, M, W, U: Upkeep + Drop> Work<HelperKit<U>, ()>
    for Around<'a, S, R, G, M, W> {
    fn work(&self, kit: HelperKit<U>) {
        match kit {
            HelperKit::Teller => tell(self.rt, self.alloc, self.state),
            HelperKit::Keeper(upkeep) => look_after_record(self.rt, self.state, upkeep),
            HelperKit::Writer => write_in_time(self.rt, self.state),
        }
    }
}
