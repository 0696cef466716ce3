//! The line of an uplink that goes out.
ghost use Rattle.std.specs.Prelude.{◌≡◌, ◌∷◌, ◌++◌, [], false, true, OnOk, OnErr};
ghost use Rattle.std.specs.Io.KnownBytes.{Appends};
ghost use Rattle.ns_types.specs.Streams.{AppendsFront};
ghost use Rattle.ns_lines.specs.Text.{up_text};
ghost use Rattle.ns_events.specs.Uplink.{uplink_json};
ghost use Rattle.ns_workers.specs.Lines.{AppendsLine, AppendsLineFront};

use arrayvec::ArrayString;
use ns_calls::Uplink;
use ns_events::uplink_json;
use ns_lines::{Line, put_uplink};
use ns_output::{Output, Times};
use ns_outside::Timer;
use ns_types::{Failed, Sink, write_all};

// Writes the `up` line of an uplink with its line feed.
fn write_up<W: Sink>(sink: &mut W, uplink: &Uplink) -> Result<(), Failed>
    requires { W.has_failed sink.old ≡ false }
    ensures ok { OnOk result (Appends (W.taken sink.old) (W.taken sink.new) (up_text uplink.now ++ 10 ∷ [])) }
    ensures sound { OnOk result (W.has_failed sink.new ≡ false) }
    ensures front { AppendsFront (W.taken sink.old) (W.taken sink.new) (up_text uplink.now ++ 10 ∷ []) }
    ensures failed { OnErr result (W.has_failed sink.new ≡ true) }
{
    let mut line = Line::new();
    put_uplink(&mut line, uplink);
    line.push_str("\n");
    write_all(sink, line.as_str().as_bytes())
}

// Writes the JSON object of an uplink with its line feed.
#[inline(never)]
fn write_object<W: Sink>(sink: &mut W, times: &Option<Times>, uplink: &Uplink) -> Result<(), Failed>
    requires { W.has_failed sink.old ≡ false }
    ensures ok { OnOk result (Appends (W.taken sink.old) (W.taken sink.new) (uplink_json times.now uplink.now ++ 10 ∷ [])) }
    ensures sound { OnOk result (W.has_failed sink.new ≡ false) }
    ensures front { AppendsFront (W.taken sink.old) (W.taken sink.new) (uplink_json times.now uplink.now ++ 10 ∷ []) }
    ensures failed { OnErr result (W.has_failed sink.new ≡ true) }
{
    let mut text: ArrayString<6401> = ArrayString::new();
    text.push_str(uplink_json(times, uplink).as_str());
    text.push('\n');
    write_all(sink, text.as_str().as_bytes())
}

/// Writes the line of an uplink with its line feed, if there is one, as the output asks: `due` is when its window was. It is one write
/// at a sink that takes all.
#[tactic(auto, using(crate::proofs::WrittenLines::line_none, crate::proofs::WrittenLines::front_none, crate::proofs::WrittenLines::line_up, crate::proofs::WrittenLines::front_up, crate::proofs::WrittenLines::line_object, crate::proofs::WrittenLines::front_object,))]
pub(crate) fn write_uplink<R, T: Timer<R>, W: Sink>(
    rt: &R,
    output: Output,
    timer: &T,
    due: u64,
    sink: &mut W,
    uplink: &Option<Uplink>,
) -> Result<(), Failed>
    requires { W.has_failed sink.old ≡ false }
    ensures ok { OnOk result (AppendsLine output (W.taken sink.old) (W.taken sink.new) uplink.now) }
    ensures sound { OnOk result (W.has_failed sink.new ≡ false) }
    ensures front { AppendsLineFront output (W.taken sink.old) (W.taken sink.new) uplink.now }
    ensures failed { OnErr result (W.has_failed sink.new ≡ true) }
{
    match uplink {
        None => Ok(()),
        Some(uplink) => match output {
            Output::Lines => write_up(sink, uplink),
            Output::Json => write_object(sink, &timer.times(rt, due), uplink),
        },
    }
}
