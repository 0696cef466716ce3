//! Times of the wall clock, as text.
ghost use Rattle.std.specs.Prelude.{◌≡◌, ◌+◌, ◌≤◌, ◌<◌, ◌++◌};
ghost use Rattle.arrayvec.specs.ArrayString.{array_string_len};
ghost use Rattle.ns_events.specs.Times.{last_digit, two_digits, three_digits, date_text, time_text, utc_text};

use crate::put::Text;
use ns_output::Utc;

// The last digit of a number.
fn last_digit(n: u16) -> char
    ensures value { result ≡ last_digit n }
    ensures ascii { result < 128 }
{
    char::from(b'0' + (n % 10) as u8)
}

// Puts the last two digits of a number.
fn put_two(text: &mut Text, n: u16)
    requires { array_string_len text.old + 2 ≤ 6400 }
    ensures bytes { text.new.bytes ≡ text.old.bytes ++ two_digits n }
    ensures len { array_string_len text.new ≡ array_string_len text.old + 2 }
{
    text.push(last_digit(n / 10));
    text.push(last_digit(n));
}

// Puts the last three digits of a number.
fn put_three(text: &mut Text, n: u16)
    requires { array_string_len text.old + 3 ≤ 6400 }
    ensures bytes { text.new.bytes ≡ text.old.bytes ++ three_digits n }
    ensures len { array_string_len text.new ≡ array_string_len text.old + 3 }
{
    text.push(last_digit(n / 100));
    text.push(last_digit(n / 10));
    text.push(last_digit(n));
}

// Puts a day: `2026-07-18`.
fn put_date(text: &mut Text, t: &Utc)
    requires { array_string_len text.old + 10 ≤ 6400 }
    ensures bytes { text.new.bytes ≡ text.old.bytes ++ date_text t.now }
    ensures len { array_string_len text.new ≡ array_string_len text.old + 10 }
{
    put_two(text, t.year / 100);
    put_two(text, t.year);
    text.push_str("-");
    put_two(text, u16::from(t.month));
    text.push_str("-");
    put_two(text, u16::from(t.day));
}

// Puts a time of day: `09:34:15.775`.
fn put_time(text: &mut Text, t: &Utc)
    requires { array_string_len text.old + 12 ≤ 6400 }
    ensures bytes { text.new.bytes ≡ text.old.bytes ++ time_text t.now }
    ensures len { array_string_len text.new ≡ array_string_len text.old + 12 }
{
    put_two(text, u16::from(t.hour));
    text.push_str(":");
    put_two(text, u16::from(t.minute));
    text.push_str(":");
    put_two(text, u16::from(t.second));
    text.push_str(".");
    put_three(text, t.millisecond);
}

// Puts a moment: `2026-07-18T09:34:15.775Z`.
#[tactic(auto, unfolding(crate::specs::Times::utc_text))]
pub(crate) fn put_utc(text: &mut Text, t: &Utc)
    requires { array_string_len text.old + 24 ≤ 6400 }
    ensures bytes { text.new.bytes ≡ text.old.bytes ++ utc_text t.now }
    ensures len { array_string_len text.new ≡ array_string_len text.old + 24 }
{
    put_date(text, t);
    text.push_str("T");
    put_time(text, t);
    text.push_str("Z");
}
