//! The room of entries: one that opens a window or asks for a ticket reserves room for the one that ends that.

ghost use Rattle.std.specs.Prelude.{◌≡◌, ◌+◌, [], ◌∷◌, ◌++◌};
ghost use Rattle.ns_journal.specs.State.{next_entry};
ghost use Rattle.ns_shard.specs.Private.Room.{IsRoomFor, reserved_after};

use ns_calls::{Call, Reply};
use ns_journal::Journal;

/// What an entry does to the room of those to come.
#[derive(Clone, Copy)]
pub enum Room {
    /// It takes a place that is free.
    Free,
    /// The same, and it reserves one for the entry that ends what it opens.
    Reserving,
    /// It takes a reserved place.
    Reserved,
}

/// Adds the entry of a call with this reply.
#[inline(always)]
pub fn push(journal: &mut Journal, call: &Call, reply: Reply, room: Room)
    requires { IsRoomFor room journal.old }
    ensures made { journal.new.made ≡ journal.old.made + 1 }
    ensures entries { journal.new.entries ≡ journal.old.entries ++ next_entry journal.old call.now reply ∷ [] }
    ensures reserved { journal.new.reserved ≡ reserved_after room journal.old.reserved }
{
    match room {
        Room::Free => journal.push_lent(call, reply),
        Room::Reserving => journal.push_reserving(call, reply),
        Room::Reserved => journal.push_reserved(call, reply),
    };
}
