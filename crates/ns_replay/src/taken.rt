//! The lines that are written of what came of step lines.

ghost use Rattle.std.specs.Prelude.{◌≡◌, ◌≤◌, ◌++◌, None, ℕ, [], length, flat_map, option_map, OnOk};
ghost use Rattle.std.specs.Option.{option_to_list};
ghost use Rattle.ns_events.specs.Output.{line_of};
ghost use Rattle.ns_events.specs.Uplink.{uplink_json};
ghost use Rattle.ns_steps.specs.StepLines.{ended};
ghost use Rattle.ns_replay.specs.Output.{refusal_text, answer_lines, text_of};

use itoa::Buffer;
use ns_calls::LentUplink;
use ns_events::uplink_json;
use ns_lines::{Line, put_downlink, put_lent_uplink, put_reply};
use ns_output::Output;
use ns_runs::{Answers, Taken};
use ns_shard::BoxedAnswer;
use std::alloc::{AllocError, Global};

// Puts a text and a line feed at the end of a text.
#[inline(always)]
fn put_ended(text: &mut Vec<u8>, line: &str) -> Result<(), AllocError>
    ensures { OnOk result (text.new.items ≡ text.old.items ++ ended line.now) }
{
    text.extend_from_slice(line.as_bytes())?;
    text.push(b'\n')?;
    Ok(())
}

// Puts the line of a refusal: its letter or word, and its number where it has one.
fn put_refusal(
    text: &mut Vec<u8>,
    line: &mut Line,
    word: &str,
    number: Option<u8>,
) -> Result<(), AllocError>
    requires { length word.now ≤ 16 }
    ensures { OnOk result (text.new.items ≡ text.old.items ++ ended (refusal_text word.now number)) }
{
    line.clear();
    line.push_str(word);
    if let Some(number) = number {
        let mut digits = Buffer::new();
        line.push_str(digits.format(number));
    }
    put_ended(text, line.as_str())
}

// Puts the JSON object of an uplink on a line. It is kept apart from the `up` line, which needs less room.
#[inline(never)]
fn put_object(text: &mut Vec<u8>, uplink: &LentUplink) -> Result<(), AllocError>
    ensures { OnOk result (text.new.items ≡ text.old.items ++ ended (uplink_json None uplink.now)) }
{
    put_ended(text, uplink_json(&None, &uplink.to_uplink()).as_str())
}

// Puts the line of the uplink that goes out with an answer. It is kept apart from the answers with which none goes out.
#[inline(never)]
fn put_sent(
    text: &mut Vec<u8>,
    line: &mut Line,
    uplinks: Output,
    answer: &BoxedAnswer,
) -> Result<(), AllocError>
    ensures { OnOk result (text.new.items ≡ text.old.items ++ flat_map ended (option_to_list (option_map (line_of uplinks None) answer.now.uplink))) }
{
    let Some(uplink) = answer.lend_uplink() else {
        return Ok(());
    };
    match uplinks {
        Output::Lines => {
            line.clear();
            put_lent_uplink(line, &uplink);
            put_ended(text, line.as_str())
        }
        Output::Json => put_object(text, &uplink),
    }
}

// Puts the lines of an answer: that of the reply, then those of the uplink and the downlink that go out.
fn put_answer(
    text: &mut Vec<u8>,
    line: &mut Line,
    uplinks: Output,
    answer: &BoxedAnswer,
) -> Result<(), AllocError>
    ensures { OnOk result (text.new.items ≡ text.old.items ++ flat_map ended (answer_lines uplinks answer.now)) }
{
    line.clear();
    put_reply(line, &answer.reply());
    put_ended(text, line.as_str())?;
    if answer.has_uplink() {
        put_sent(text, line, uplinks, answer)?;
    }
    if let Some(downlink) = answer.downlink() {
        line.clear();
        put_downlink(line, &downlink);
        put_ended(text, line.as_str())?;
    }
    Ok(())
}

/// Puts the lines of what came of a line at the end of a text, each with a line feed, and those of uplinks as `uplinks` says. What stands
/// in `line` is lost.
#[tactic(auto, unfolding(crate::specs::Output::lines_of))]
pub fn put_taken(
    text: &mut Vec<u8>,
    line: &mut Line,
    uplinks: Output,
    taken: &Option<Taken>,
) -> Result<(), AllocError>
    ensures { OnOk result (text.new.items ≡ text.old.items ++ text_of uplinks taken.now) }
{
    match taken {
        None => put_refusal(text, line, "refused line", None),
        Some(Taken::Link(fault)) => put_refusal(text, line, "refused G", Some(fault.number())),
        Some(Taken::View(fault)) => put_refusal(text, line, "refused V", Some(fault.number())),
        Some(Taken::Made { answer, .. }) => put_answer(text, line, uplinks, answer),
    }
}

/// The text of answers, line by line.
#[derive(Drop)]
pub struct AnswerText {
    /// How uplinks are written.
    pub uplinks: Output,
    /// The lines, each with a line feed.
    pub text: Vec<u8>,
    // Room for the line that is made next.
    line: Line,
}

impl AnswerText {
    /// Before any answer.
    pub fn new(alloc: Global, uplinks: Output) -> AnswerText
        ensures text { result.text.items ≡ [] }
        ensures uplinks { result.uplinks ≡ uplinks }
    {
        AnswerText {
            uplinks,
            text: Vec::new(alloc),
            line: Line::new(),
        }
    }
}

impl Answers for AnswerText {
    ghost Piece = { ℕ };

    ghost held = { λ s. s.text.items };

    ghost pieces = { λ s. text_of s.uplinks };

    #[inline(always)]
    fn put(&mut self, _alloc: Global, taken: Option<Taken>) -> Result<Option<Taken>, AllocError> {
        put_taken(&mut self.text, &mut self.line, self.uplinks, &taken)?;
        Ok(taken)
    }
}
