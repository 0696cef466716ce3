//! What is known of the objects of uplinks, joins and acknowledgements.
ghost use Rattle.std.specs.Prelude.{◌≡◌, ◌<◌, ◌^◌, ℕ, Option, Some, false};
ghost use Rattle.json.specs.Json.{document};
ghost use Rattle.ns_calls.specs.declared.answer.Uplink.{Uplink};
ghost use Rattle.ns_lines.specs.Text.{has_line_feed};
ghost use Rattle.ns_output.specs.declared.times.Times.{Times};
ghost use Rattle.ns_types.specs.declared.identity.WindowName.{WindowName};
ghost use Rattle.ns_output.specs.declared.times.Utc.{Utc};
ghost use Rattle.ns_events.specs.Notice.{NameFits, ack_json, ack_value, join_json, join_value};
ghost use Rattle.ns_events.specs.Uplink.{uplink_json};
ghost use Rattle.ns_events.specs.Value.{uplink_value, UplinkFits};

/// The object of an uplink has no line feed.
pub fn uplinks_have_no_line_feed()
    ensures { (times : Option Times) → (u : Uplink) → has_line_feed (uplink_json times u) ≡ false }
{}

/// A reader of JSON (RFC 8259) finds in the object of an uplink its members in their order, each with its value.
pub fn uplinks_read_back()
    ensures { (times : Option Times) → (u : Uplink) → UplinkFits u → document (uplink_json times u) ≡ Some (uplink_value times u) }
{}

/// The object of a join and that of an acknowledgement have no line feed.
pub fn notices_have_no_line_feed()
    ensures joins { (time : Option Utc) → (eui addr session : ℕ) → has_line_feed (join_json time eui addr session) ≡ false }
    ensures acks { (time : Option Utc) → (w : WindowName) → (addr gateway : ℕ) → has_line_feed (ack_json time w addr gateway) ≡ false }
{}

/// A reader of JSON (RFC 8259) finds in the object of a join, and in that of an acknowledgement, its members, each with its value.
pub fn notices_read_back()
    ensures joins { (time : Option Utc) → (eui addr session : ℕ) → session < 2 ^ 32 → document (join_json time eui addr session) ≡ Some (join_value time eui addr session) }
    ensures acks { (time : Option Utc) → (w : WindowName) → (addr gateway : ℕ) → NameFits w → document (ack_json time w addr gateway) ≡ Some (ack_value time w addr gateway) }
{}
