//! The limits of windows and tickets. Their definitions are `most_copies`, `most_windows` and `most_tickets`.

/// How many copies a window or a ticket has at most.
pub const MOST_COPIES: usize = 16;

/// How many windows of a device are open at most.
pub const MOST_WINDOWS: usize = 8;

/// How many tickets of a device are open at most.
pub const MOST_TICKETS: usize = 4;
