//! What workers do in whole, and what each fault leaves.
//!
//! Each case is runs, and the text that tells what came of each: the numbers of how it ended, the jobs that it put or the first four
//! windows that it closed, each with 1 where it was not open, its lines, its downlinks, and the numbers of `Around`; and then the replies
//! of shards 13 and 14.

ghost use Rattle.std.specs.Prelude.{◌<◌, ◌≤◌};

use crate::workers::around::{Asked, Faults, NONE};
use crate::workers::frames::Response::{Braces, Joined, Unopened};
use crate::workers::frames::{
    JOIN_0E, JOIN_0F, JOIN_1, JOIN_2, JOIN_SECOND, Response, UP_2, UP_3, UP_9, UP_10,
    UP_10_CONFIRMED,
};
use crate::workers::runs::Reads::{Changed, Frame, Ones};
use crate::workers::runs::Run::{At, LeaveOut, UntilAccepted};
use crate::workers::runs::Work::{Answer, Close, Serve};
use crate::workers::runs::{Due, Reads, Run};
use crate::workers::served::told;
use ns_calls::Reply;
use ns_outside::{AskJob, CloseJob, Job, MOST_AGE_MS, job_of};
use ns_types::{DevEui, Ticket, WindowName, use_stack};
use std::alloc::Global;
use std::process::Abort;
use std::sync::Wait;
use std::test::*;
use std::thread::Threads;
use std::time::Clock;

// The second device, whose DevEUI is over 2^32.
const SECOND: u64 = 0x1_0000_000e;

// Runs, and all that they tell, in two parts.
type Case = (&'static [Run], &'static str, &'static str);

// Halfway of a clock's time.
const LATE: u64 = 1 << 63;

// A source that fails at its end.
const BROKEN: Faults = Faults {
    source: true,
    ..NONE
};

// No downlink is sent.
const UNSENT: Faults = Faults {
    downlinks: true,
    ..NONE
};

// A source that fails at its end, and no downlink is sent.
const BROKEN_UNSENT: Faults = Faults {
    source: true,
    ..UNSENT
};

// No downlink is sent, and no line written.
const UNWRITTEN_UNSENT: Faults = Faults {
    writes: Some(0),
    ..UNSENT
};

// The third line is not written.
const UNWRITTEN: Faults = Faults {
    writes: Some(2),
    ..NONE
};

// All memory is taken before the third turn.
const STARVED: Faults = Faults { from: 2, ..NONE };

// All memory is taken while the first datagram comes, and given back before the second.
const STARVED_ONCE: Faults = Faults {
    from: 0,
    to: 2,
    ..NONE
};

/// The response with the worked JoinAns.
pub const ACCEPTED: Response = Joined(1, 0x0f, 0);

/// The device joins.
pub const ASKS: Run = At(7, Serve(&[Frame(&JOIN_1, 1)], 1), NONE);

/// Its join is answered.
pub const JOINS: Run = At(7, Answer(&[(&JOIN_1, 7, ACCEPTED)]), NONE);

/// Its uplinks at counters 2 and 3 are heard.
pub const HEARD: Run = At(7, Serve(&[Frame(&UP_2, 1), Frame(&UP_3, 1)], 2), NONE);

// Datagrams of four lengths that are refused, a Join-Request and an uplink.
const MIXED: [Reads; 6] = [
    Ones(0),
    Ones(1),
    Ones(512),
    Ones(65507),
    Frame(&JOIN_2, 1),
    Frame(&UP_2, 1),
];

// A Join-Request, an uplink at counter 9, a copy of it, and a confirmed uplink at counter 10 at moment 2^63.
const FOUR: [Reads; 4] = [
    Frame(&JOIN_SECOND, 1),
    Frame(&UP_9, 1),
    Changed(&UP_9, 9, 0xa2),
    Changed(&UP_10_CONFIRMED, 10, 0x80),
];

// Three tickets of two devices.
const THREE_FRAMES: [Reads; 3] = [Frame(&JOIN_1, 1), Frame(&JOIN_SECOND, 1), Frame(&JOIN_2, 1)];

const THREE: [Asked; 3] = [
    (&JOIN_1, LATE - MOST_AGE_MS, Joined(1, 1, 0)),
    (
        &JOIN_SECOND,
        LATE - MOST_AGE_MS,
        Joined(4_278_190_334, 2, 400),
    ),
    (&JOIN_2, LATE - MOST_AGE_MS, Joined(2, 3, 0)),
];

// Windows of two devices.
const TWO_DEVICES: [Due; 3] = [
    (13, 9, LATE, 1),
    (13, u32::MAX, LATE + 5, 1),
    (SECOND, 4, LATE + 3, 1),
];

// Two open windows, and then 40 times one that is not open, or that is.
const NOT_OPEN: [Due; 3] = [(13, 2, 9, 1), (13, 3, 9, 1), (13, 4, 9, 40)];

const ALL_OPEN: [Due; 3] = [(13, 2, 9, 1), (13, 3, 9, 1), (13, 10, 9, 40)];

// Three open windows, and then one that is not open.
const FOUR_WINDOWS: [Due; 4] = [(13, 2, 9, 1), (13, 3, 9, 1), (13, 10, 9, 1), (13, 4, 9, 1)];

// Windows are closed in the order of the jobs, each with its line, and a closed name has none; the limit, the source's end, a source
// that fails, and room that is refused.
const WINDOWS_ARE_CLOSED_IN_ORDER: Case = (
    &[
        ASKS,
        JOINS,
        HEARD,
        LeaveOut,
        At(7, Close(&[(13, 2, 9, 1), (13, 3, 9, 2)], &[1, 9, 9]), NONE),
        At(7, Close(&[], &[9, u32::MAX]), BROKEN),
    ],
    "\
close 13 1 2 1 0
ended 0 1
up 000000000000000d 1 2 1 plain - 74657374 1 00000000000000a1
told 9 0 0 0 0 0 0 0 0 0
close 13 1 3 1 0
close 13 1 3 1 1
ended 0 2
up 000000000000000d 1 3 1 plain - 55 1 00000000000000a1
down 00000000000000a1 2000000 868100000 5 60f17dbe492000001c0217fb
told 9 9 9 0 0 0 0 0 0 0
ended 0 0
told 9 9 9 0 0 0 0 0 0 0
ended 2 0
told 0 0 0 0 0 0 0 0 0 0
ended 1 0
told 0 0 0 0 0 0 0 0 0 0
ask 0 4 3 2 1 4 3 2 1 13 0 0 0 0 0 0 0 1 0 1 0 0 0 0 0
accepted 13 1 1237220849
opened 13 1 2 1 0
opened 13 1 3 1 0
closed 13 1 2 1 0
acknowledged 13 1 3 1 0
nowindow
",
    "",
);

// Of four windows, of which three are open, each has its receipt, and the three their lines.
const FOUR_WINDOWS_ARE_CLOSED: Case = (
    &[
        ASKS,
        JOINS,
        HEARD,
        At(7, Serve(&[Frame(&UP_10, 1)], 1), NONE),
        LeaveOut,
        At(7, Close(&FOUR_WINDOWS, &[9]), NONE),
    ],
    "\
close 13 1 2 1 0
close 13 1 3 1 0
close 13 1 10 1 0
close 13 1 4 1 1
ended 0 4
up 000000000000000d 1 2 1 plain - 74657374 1 00000000000000a1
up 000000000000000d 1 3 1 plain - 55 1 00000000000000a1
up 000000000000000d 1 10 1 plain - 55 1 00000000000000a1
down 00000000000000a1 2000000 868100000 5 60f17dbe492000001c0217fb
told 9 9 9 0 0 0 0 0 0 0
ask 0 4 3 2 1 4 3 2 1 13 0 0 0 0 0 0 0 1 0 1 0 0 0 0 0
accepted 13 1 1237220849
opened 13 1 2 1 0
opened 13 1 3 1 0
opened 13 1 10 1 0
closed 13 1 2 1 0
acknowledged 13 1 3 1 0
closed 13 1 10 1 0
nowindow
",
    "",
);

// A confirmed uplink that is heard four times gets a window each time: each is closed with an acknowledgement, and the first alone
// has a line.
const EACH_ROUND_IS_CLOSED: Case = (
    &[
        ASKS,
        JOINS,
        LeaveOut,
        At(7, Serve(&[Frame(&UP_3, 4)], 0), NONE),
    ],
    "\
served 4 0 0 0
up 000000000000000d 1 3 1 plain - 55 1 00000000000000a1
down 00000000000000a1 2000000 868100000 5 60f17dbe492000001c0217fb
down 00000000000000a1 2000000 868100000 5 60f17dbe492001003272b76e
down 00000000000000a1 2000000 868100000 5 60f17dbe49200200dce69fa8
down 00000000000000a1 2000000 868100000 5 60f17dbe49200300feadd172
told 0 8 0 0 0 0 0 7 17 17
ask 0 4 3 2 1 4 3 2 1 13 0 0 0 0 0 0 0 1 0 1 0 0 0 0 0
accepted 13 1 1237220849
opened 13 1 3 1 0
acknowledged 13 1 3 1 0
again 13 1 3 2 0
acknowledged 13 1 3 2 1
again 13 1 3 3 0
acknowledged 13 1 3 3 2
again 13 1 3 4 0
acknowledged 13 1 3 4 3
",
    "",
);

// Datagrams of every length, and where no job can be put: the gateway worker then closes the window itself and writes its line, and
// answers the ticket as failed. A source that fails, and a sink that fails.
const JOBS_THAT_CANNOT_BE_PUT: Case = (
    &[
        ASKS,
        JOINS,
        LeaveOut,
        At(7, Serve(&MIXED, 0), BROKEN_UNSENT),
        At(7, Serve(&[Frame(&UP_3, 1)], 0), UNWRITTEN_UNSENT),
    ],
    "\
served 6 4 0 2
up 000000000000000d 1 2 1 plain - 74657374 1 00000000000000a1
told 4 4 0 0 0 0 0 7 17 17
served 1 0 0 3
down 00000000000000a1 2000000 868100000 5 60f17dbe492000001c0217fb
told 0 2 0 0 1 0 0 7 17 0
ask 0 4 3 2 1 4 3 2 1 13 0 0 0 0 0 0 0 1 0 1 0 0 0 0 0
accepted 13 1 1237220849
ask 0 4 3 2 1 4 3 2 1 13 0 0 0 0 0 0 0 2 0 2 0 0 0 0 0
joinrefused
opened 13 1 2 1 0
closed 13 1 2 1 0
opened 13 1 3 1 0
acknowledged 13 1 3 1 0
",
    "",
);

// A ticket is answered with what the join server answered, and its Join-Accept goes down; a connection that is not opened, a
// response that is none and a device that is not in the roster are answered as failed.
const TICKETS_ARE_ANSWERED: Case = (
    &[
        ASKS,
        At(7, Answer(&[(&JOIN_1, 7, Unopened)]), UNSENT),
        At(7, Serve(&[Frame(&JOIN_2, 1)], 1), NONE),
        At(7, Answer(&[(&JOIN_2, 7, Braces)]), UNSENT),
        At(7, Serve(&[Frame(&JOIN_0E, 1)], 1), NONE),
        At(7, Answer(&[(&JOIN_0E, 7, ACCEPTED)]), UNSENT),
        ASKS,
        At(7, Answer(&[(&JOIN_1, 7, ACCEPTED)]), UNSENT),
    ],
    "\
served 1 0 0 0
ask 0 4 3 2 1 4 3 2 1 13 0 0 0 0 0 0 0 1 0 1 0 0 0 7 1007
told 0 1 0 0 0 0 0 7 0 0
joined 1 0
told 0 1 0 1 0 0 1 7 0 0
served 1 0 0 0
ask 0 4 3 2 1 4 3 2 1 13 0 0 0 0 0 0 0 2 0 2 0 0 0 7 1007
told 0 1 0 0 0 0 0 7 0 0
joined 1 0
told 0 1 0 1 0 0 1 7 0 0
served 1 0 0 0
told 0 1 0 0 0 0 0 7 0 0
joined 1 0
told 0 1 0 1 0 0 0 7 0 0
served 1 0 0 0
ask 0 4 3 2 1 4 3 2 1 13 0 0 0 0 0 0 0 1 0 1 0 0 0 7 1007
told 0 1 0 0 0 0 0 7 0 0
joined 1 0
down 00000000000000a1 6000000 868100000 5 20000102030405060708090a0b0c0d0e0f
told 0 1 0 0 1 0 1 7 0 0
ask 0 4 3 2 1 4 3 2 1 13 0 0 0 0 0 0 0 1 0 1 0 0 0 0 0
joinrefused
ask 0 4 3 2 1 4 3 2 1 13 0 0 0 0 0 0 0 2 0 2 0 0 0 0 0
joinrefused
ask 0 4 3 2 1 4 3 2 1 13 0 0 0 0 0 0 0 1 0 1 0 0 0 0 0
accepted 13 1 1237220849
nodevice
noticket
",
    "",
);

// A gateway worker puts one job for each ticket and window, due by the time at which the call was answered; the window whose job
// cannot be put is closed at once, and its acknowledgement goes down, whatever the gateway's moment.
const JOBS_ARE_PUT_ONCE: Case = (
    &[ASKS, JOINS, LeaveOut, At(LATE, Serve(&FOUR, 2), NONE)],
    "\
served 4 0 0 0
ask 0 4 3 2 1 4 3 2 1 14 0 0 0 1 0 0 0 80 195 254 0 0 255 9223372036854775808 9223372036854776808
close 13 1 9 1 9223372036854778818
up 000000000000000d 1 10 1 plain - 55 1 00000000000000a1
down 00000000000000a1 9223372036856775808 868100000 5 60f17dbe492000001c0217fb
told 0 5 0 0 0 0 0 9223372036854775808 9223372036854775818 9223372036854775828
ask 0 4 3 2 1 4 3 2 1 13 0 0 0 0 0 0 0 1 0 1 0 0 0 0 0
accepted 13 1 1237220849
opened 13 1 9 1 0
copied 13 1 9 1 2
opened 13 1 10 1 0
acknowledged 13 1 10 1 0
ask 0 4 3 2 1 4 3 2 1 14 0 0 0 1 0 0 0 80 195 254 0 0 255 0 0
",
    "",
);

// With memory enough no datagram is dropped, of 2,000. No job follows, so the clock is not asked.
const NO_DATAGRAM_IS_DROPPED: Case = (
    &[At(7, Serve(&[Frame(&JOIN_0F, 2_000)], 0), NONE)],
    "\
served 2000 0 0 0
told 0 2000 0 0 0 0 0 7 7 7
",
    "",
);

// A closer closes the window of each job, whatever its name, and none before its time, which has come for the last one.
const EACH_WINDOW_IN_ITS_TIME: Case = (
    &[
        ASKS,
        JOINS,
        At(7, Serve(&[Frame(&UP_9, 1)], 1), NONE),
        LeaveOut,
        At(7, Close(&TWO_DEVICES, &[9]), NONE),
    ],
    "\
close 13 1 9 1 0
close 13 1 4294967295 1 1
close 4294967310 1 4 1 1
ended 0 3
up 000000000000000d 1 9 1 plain - 55 1 00000000000000a1
told 9223372036854775808 9223372036854775813 9223372036854775813 0 0 0 0 0 0 0
ask 0 4 3 2 1 4 3 2 1 13 0 0 0 0 0 0 0 1 0 1 0 0 0 0 0
accepted 13 1 1237220849
opened 13 1 9 1 0
closed 13 1 9 1 0
nowindow
nowindow
",
    "",
);

// Three tickets of two devices in one run, 4.5 s old, are answered each with its own JoinAns, also with one of over 512 bytes, and
// their Join-Accepts go down in order.
const THREE_TICKETS_OF_TWO_DEVICES: Case = (
    &[
        At(7, Serve(&THREE_FRAMES, 3), NONE),
        LeaveOut,
        At(LATE, Answer(&THREE), NONE),
    ],
    "\
joined 3 0
down 00000000000000a1 6000000 868100000 5 20000102030405060708090a0b0c0d0e01
down 00000000000000a1 6000000 868100000 5 20000102030405060708090a0b0c0d0e02
down 00000000000000a1 6000000 868100000 5 20000102030405060708090a0b0c0d0e03
told 0 3 0 0 0 0 3 9223372036854775808 9223372036854775808 9223372036854775808
ask 0 4 3 2 1 4 3 2 1 13 0 0 0 0 0 0 0 1 0 1 0 0 0 0 0
ask 0 4 3 2 1 4 3 2 1 13 0 0 0 0 0 0 0 2 0 2 0 0 0 0 0
accepted 13 1 1237220849
accepted 13 2 1237220849
ask 0 4 3 2 1 4 3 2 1 14 0 0 0 1 0 0 0 80 195 254 0 0 255 0 0
accepted 4294967310 1 1237319687
",
    "",
);

// A ticket that is over 4.5 s old when its turn comes is answered as failed, and the join server is not asked.
const STALE_TICKET_IS_NOT_ASKED: Case = (
    &[
        ASKS,
        LeaveOut,
        At(LATE + 4_501, Answer(&[(&JOIN_1, LATE, ACCEPTED)]), NONE),
    ],
    "\
joined 1 0
told 0 1 0 0 0 1 0 9223372036854780309 0 0
ask 0 4 3 2 1 4 3 2 1 13 0 0 0 0 0 0 0 1 0 1 0 0 0 0 0
joinrefused
",
    "",
);

// What is told of a closer's first two windows, of how they were opened and closed, and of the first two closings of one not open.
const TWO_LINES: &str = "\
up 000000000000000d 1 2 1 plain - 74657374 1 00000000000000a1
up 000000000000000d 1 3 1 plain - 55 1 00000000000000a1
down 00000000000000a1 2000000 868100000 5 60f17dbe492000001c0217fb
told 9 9 9 0 0 0 0 0 0 0
ask 0 4 3 2 1 4 3 2 1 13 0 0 0 0 0 0 0 1 0 1 0 0 0 0 0
accepted 13 1 1237220849
opened 13 1 2 1 0
opened 13 1 3 1 0
closed 13 1 2 1 0
acknowledged 13 1 3 1 0
nowindow
nowindow
";

// The lines of a closer's first two windows are written before it ends where its source fails.
const LINES_BEFORE_A_FAILED_SOURCE: Case = (
    &[
        ASKS,
        JOINS,
        HEARD,
        LeaveOut,
        At(7, Close(&NOT_OPEN, &[60]), BROKEN),
    ],
    "\
close 13 1 2 1 0
close 13 1 3 1 0
close 13 1 4 1 1
close 13 1 4 1 1
ended 2 42
",
    TWO_LINES,
);

// The same where its sink fails at the third line.
const LINES_BEFORE_A_FAILED_SINK: Case = (
    &[
        ASKS,
        JOINS,
        HEARD,
        At(7, Serve(&[Frame(&UP_10, 1)], 1), NONE),
        LeaveOut,
        At(7, Close(&ALL_OPEN, &[60]), UNWRITTEN),
    ],
    "\
close 13 1 2 1 0
close 13 1 3 1 0
close 13 1 10 1 0
ended 3 3
up 000000000000000d 1 2 1 plain - 74657374 1 00000000000000a1
up 000000000000000d 1 3 1 plain - 55 1 00000000000000a1
down 00000000000000a1 2000000 868100000 5 60f17dbe492000001c0217fb
told 9 9 9 0 0 0 0 0 0 0
ask 0 4 3 2 1 4 3 2 1 13 0 0 0 0 0 0 0 1 0 1 0 0 0 0 0
accepted 13 1 1237220849
opened 13 1 2 1 0
opened 13 1 3 1 0
opened 13 1 10 1 0
closed 13 1 2 1 0
acknowledged 13 1 3 1 0
closed 13 1 10 1 0
",
    "",
);

// The same where memory is refused. The journal of the shard has room for two entries more, so two windows that are not open are told
// too.
const LINES_BEFORE_NO_MEMORY: Case = (
    &[
        ASKS,
        JOINS,
        HEARD,
        LeaveOut,
        At(7, Close(&NOT_OPEN, &[60]), STARVED),
    ],
    "\
close 13 1 2 1 0
close 13 1 3 1 0
close 13 1 4 1 1
close 13 1 4 1 1
ended 1 4
",
    TWO_LINES,
);

// A gateway worker drops the call of an uplink for which there is no memory, and goes on: heard again, its window is opened.
const DROPPED_UPLINK_IS_HEARD_AGAIN: Case = (
    &[
        ASKS,
        JOINS,
        LeaveOut,
        At(7, Serve(&[Frame(&UP_2, 2)], 0), STARVED_ONCE),
    ],
    "\
served 2 0 1 0
up 000000000000000d 1 2 1 plain - 74657374 1 00000000000000a1
told 0 2 1 0 0 0 0 7 17 0
ask 0 4 3 2 1 4 3 2 1 13 0 0 0 0 0 0 0 1 0 1 0 0 0 0 0
accepted 13 1 1237220849
opened 13 1 2 1 0
closed 13 1 2 1 0
",
    "",
);

// Blocks of memory are given back one after the other: the ticket is answered as failed, until there is memory enough for the text of a
// request, its connection and the answer's reading. Several growths may pass with one block.
const JOIN_REFUSED_UNTIL_MEMORY_IS_BACK: Case = (
    &[UntilAccepted(&[Frame(&JOIN_1, 1)], &[(&JOIN_1, 7, ACCEPTED)])],
    "\
served 1 0 0 0
ask 0 4 3 2 1 4 3 2 1 13 0 0 0 0 0 0 0 1 0 1 0 0 0 7 1007
told 0 1 0 0 0 0 0 7 0 0
joined 1 0
down 00000000000000a1 6000000 868100000 5 20000102030405060708090a0b0c0d0e0f
told 0 1 0 0 0 0 1 7 0 0
ask 0 4 3 2 1 4 3 2 1 13 0 0 0 0 0 0 0 1 0 1 0 0 0 0 0
joinrefused
accepted 13 1 1237220849
",
    "",
);

const OF_GATEWAY_WORKERS: &[Case] = &[
    EACH_ROUND_IS_CLOSED,
    JOBS_THAT_CANNOT_BE_PUT,
    JOBS_ARE_PUT_ONCE,
    NO_DATAGRAM_IS_DROPPED,
];

const OF_JOIN_WORKERS: &[Case] = &[
    TICKETS_ARE_ANSWERED,
    THREE_TICKETS_OF_TWO_DEVICES,
    STALE_TICKET_IS_NOT_ASKED,
];

const OF_CLOSERS: &[Case] = &[
    WINDOWS_ARE_CLOSED_IN_ORDER,
    FOUR_WINDOWS_ARE_CLOSED,
    EACH_WINDOW_IN_ITS_TIME,
    LINES_BEFORE_A_FAILED_SOURCE,
    LINES_BEFORE_A_FAILED_SINK,
];

const WITHOUT_MEMORY: &[Case] = &[
    LINES_BEFORE_NO_MEMORY,
    DROPPED_UPLINK_IS_HEARD_AGAIN,
    JOIN_REFUSED_UNTIL_MEMORY_IS_BACK,
];

// The first closer, held on shard 0, has ended after the one on shard 13.
const ONE_SHARD_HOLDS_UP_NO_OTHER: Case = (
    &[
        At(0, Close(&[(16, 0, 0, 1)], &[4]), NONE),
        At(0, Close(&[(13, 0, 0, 1)], &[4]), NONE),
    ],
    "\
close 16 1 0 1 1
ended 0 1
told 0 0 0 0 0 0 0 0 0 0
close 13 1 0 1 1
ended 0 1
told 0 0 0 0 0 0 0 0 0 0
late 0
nowindow
",
    "",
);

// What the first case tells that tells otherwise than it should, on a server of so many workers.
fn other_text<R: Threads + Wait + Clock + Sync>(
    rt: &R,
    alloc: Global,
    workers: usize,
    cases: &[Case],
) -> Option<String>
    requires { (0 < workers) × (workers ≤ 64) }
{
    for &(runs, front, back) in cases {
        let text = told(rt, alloc, workers, runs);
        if text.as_str().strip_prefix(front) != Some(back) {
            return Some(text);
        }
    }
    None
}

// Each case tells what it should.
fn tell_so<R: Abort + Threads + Wait + Clock + Sync>(
    rt: &R,
    alloc: Global,
    workers: usize,
    cases: &[Case],
)
    requires { (0 < workers) × (workers ≤ 64) }
{
    let other = other_text(rt, alloc, workers, cases);
    assert!(rt; other.is_none(), "{other:?}");
}

/// What gateway workers do, by the cases above.
#[test]
fn runs_of_gateway_workers(rt: HostRuntime) {
    tell_so(&rt, rt.alloc(), 1, OF_GATEWAY_WORKERS);
}

/// What join workers do, by the cases above.
#[test]
fn runs_of_join_workers(rt: HostRuntime) {
    tell_so(&rt, rt.alloc(), 1, OF_JOIN_WORKERS);
}

/// What closers do, by the cases above.
#[test]
fn runs_of_closers(rt: HostRuntime) {
    tell_so(&rt, rt.alloc(), 1, OF_CLOSERS);
}

/// What workers do without memory, by the cases above.
#[test]
fn runs_without_memory(rt: HostRuntime) {
    assert!(rt; use_stack());
    tell_so(&rt, rt.alloc(), 1, WITHOUT_MEMORY);
}

/// A closer that is held at its gate on shard 0 holds up none on shard 13.
#[test]
fn closers_on_two_shards(rt: HostRuntime) {
    tell_so(&rt, rt.alloc(), 2, &[ONE_SHARD_HOLDS_UP_NO_OTHER]);
}

// Whether a window with this counter is to be closed after the time of its copies, which a copy does not change.
fn is_closed_in_time(fcnt: u32) -> bool {
    let window = WindowName {
        eui: DevEui(SECOND),
        session: 1,
        fcnt,
        round: 1,
    };
    let due = LATE + 5_000;
    let close = Some(Job::Close(CloseJob { name: window, due }));
    job_of(&Reply::Opened { window }, LATE, 5_000) == close
        && job_of(&Reply::Again { window }, LATE, 5_000) == close
        && job_of(&Reply::Copied { window, place: 1 }, LATE, 5_000) == None
}

// Whether a ticket is to be asked for at this time, where windows are open for so long.
fn is_asked_at(window_ms: u32, due: u64) -> bool {
    let ticket = Ticket(JOIN_SECOND);
    let ask = AskJob {
        ticket,
        since: LATE,
        due,
    };
    job_of(&Reply::Ask { ticket }, LATE, window_ms) == Some(Job::Ask(ask))
}

// How long windows are open, and when a ticket is to be asked for.
const ASKED_AT: &[(u32, u64)] = &[
    (0, LATE),
    (200, LATE + 200),
    (1_000, LATE + 1_000),
    (5_000, LATE + 1_000),
];

/// The job of a reply: a window's after the time of its copies, a ticket's after at most a second, whatever the name and the time.
#[test]
fn jobs_of_replies(rt: HostRuntime) {
    for fcnt in [0u32, 4, 9, u32::MAX] {
        assert!(rt; is_closed_in_time(fcnt));
    }
    for &(window_ms, due) in ASKED_AT {
        assert!(rt; is_asked_at(window_ms, due));
    }
    assert!(rt; job_of(&Reply::JoinRefused, LATE, 5_000) == None);
}
