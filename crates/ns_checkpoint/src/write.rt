//! A checkpoint, written to a sink.

ghost use Rattle.std.specs.Prelude.{◌≡◌, ℕ, ◌+◌, ◌∷◌, [], List, length, map, flat_map, IfOk, OnOk, IfSome};
ghost use Rattle.std.specs.Io.KnownBytes.{Appends};
ghost use Rattle.ns_types.specs.Identity.{shard_count};
ghost use Rattle.ns_aes_cmac.specs.CmacState.{state_of};
ghost use Rattle.ns_checkpoint.specs.Text.{sum_key, checksum, head_line, ticket_line, copy_line, end_line, device_lines, window_lines, tables_lines, shards_lines, lines_text, checkpoint_text};
ghost use Rattle.ns_checkpoint.specs.Written.{HasWritten};

use crate::lines::{
    copy_line, device_line, end_line, head_line, shard_line, ticket_line, window_line,
};
use crate::sum::{finish, new_sum};
use crate::tables::{Checkpoint, DeviceTable, Head, Tables};
use ns_aes_cmac::Cmac;
use ns_lines::Line;
use ns_sessions::OpenTicket;
use ns_types::{Heard, SHARDS};
use ns_windows::Window;
use std::io;
use std::io::Write;
use std::marker::Model;

/// A checkpoint that is being written, shard by shard. Contracts see the CMAC of the lines that were written.
#[derive(Drop)]
pub struct CheckpointWriter {
    mac: Cmac,
}

impl Model for CheckpointWriter {
    ghost use Rattle.ns_aes_cmac.specs.CmacState.{CmacState};

    ghost Value = { CmacState };

    ghost view = { λ w. w.mac };
}

impl CheckpointWriter {
    /// Writes the first line.
    pub fn begin<W: Write>(out: &mut W, head: &Head) -> Result<CheckpointWriter, io::Error>
        ensures { IfOk result (λ w. HasWritten (W.contents out.old) (W.contents out.new) (state_of sum_key []) w (head_line head.now ∷ [])) }
    {
        let mut writer = CheckpointWriter { mac: new_sum() };
        writer.put(out, &head_line(head))?;
        Ok(writer)
    }

    /// Writes the tables of a shard.
    pub fn put_tables<W: Write>(
        &mut self,
        out: &mut W,
        number: u8,
        tables: &Tables,
    ) -> Result<(), io::Error>
        ensures { OnOk result (HasWritten (W.contents out.old) (W.contents out.new) self.old self.new (tables_lines number tables.now)) }
    {
        self.put(out, &shard_line(number))?;
        self.put_devices(out, tables.devices.as_slice())?;
        self.put_windows(out, tables.windows.as_slice())?;
        Ok(())
    }

    /// Writes the last line.
    pub fn end<W: Write>(self, out: &mut W) -> Result<(), io::Error>
        ensures { OnOk result ((text : List ℕ) → self ≡ state_of sum_key text → Appends (W.contents out.old) (W.contents out.new) (lines_text (end_line (checksum text) ∷ []))) }
    {
        let line = end_line(&finish(self.mac));
        out.write_all(line.as_str().as_bytes())?;
        out.write_all(b"\n")?;
        Ok(())
    }

    // Writes a line with its line feed.
    fn put<W: Write>(&mut self, out: &mut W, line: &Line) -> Result<(), io::Error>
        ensures { OnOk result (HasWritten (W.contents out.old) (W.contents out.new) self.old self.new (line.now.bytes ∷ [])) }
    {
        let bytes = line.as_str().as_bytes();
        self.mac.update(bytes);
        self.mac.update(b"\n");
        out.write_all(bytes)?;
        out.write_all(b"\n")
    }

    // Writes a device and its tickets.
    fn put_device<W: Write>(&mut self, out: &mut W, device: &DeviceTable) -> Result<(), io::Error>
        ensures { OnOk result (HasWritten (W.contents out.old) (W.contents out.new) self.old self.new (device_lines device.now)) }
    {
        self.put(out, &device_line(device))?;
        self.put_tickets(out, device.tickets.as_slice())?;
        Ok(())
    }

    // Writes the tickets of a device.
    fn put_tickets<W: Write>(
        &mut self,
        out: &mut W,
        tickets: &[OpenTicket],
    ) -> Result<(), io::Error>
        ensures { OnOk result (HasWritten (W.contents out.old) (W.contents out.new) self.old self.new (map ticket_line tickets.now)) }
    {
        for ticket in tickets {
            self.put(out, &ticket_line(ticket))?;
        }
        Ok(())
    }

    // Writes devices.
    fn put_devices<W: Write>(
        &mut self,
        out: &mut W,
        devices: &[DeviceTable],
    ) -> Result<(), io::Error>
        ensures { OnOk result (HasWritten (W.contents out.old) (W.contents out.new) self.old self.new (flat_map device_lines devices.now)) }
    {
        for device in devices {
            self.put_device(out, device)?;
        }
        Ok(())
    }

    // Writes a window and its copies.
    fn put_window<W: Write>(&mut self, out: &mut W, window: &Window) -> Result<(), io::Error>
        ensures { OnOk result (HasWritten (W.contents out.old) (W.contents out.new) self.old self.new (window_lines window.now)) }
    {
        self.put(out, &window_line(window))?;
        self.put_copies(out, window.copies.as_slice())?;
        Ok(())
    }

    // Writes the copies of a window.
    fn put_copies<W: Write>(&mut self, out: &mut W, copies: &[Heard]) -> Result<(), io::Error>
        ensures { OnOk result (HasWritten (W.contents out.old) (W.contents out.new) self.old self.new (map copy_line copies.now)) }
    {
        for heard in copies {
            self.put(out, &copy_line(heard))?;
        }
        Ok(())
    }

    // Writes windows.
    fn put_windows<W: Write>(&mut self, out: &mut W, windows: &[Window]) -> Result<(), io::Error>
        ensures { OnOk result (HasWritten (W.contents out.old) (W.contents out.new) self.old self.new (flat_map window_lines windows.now)) }
    {
        for window in windows {
            self.put_window(out, window)?;
        }
        Ok(())
    }
}

// The number of lines of devices.
fn device_count(devices: &[DeviceTable]) -> Option<u64>
    ensures { IfSome result (λ n. n ≡ length (flat_map device_lines devices.now)) }
{
    let mut lines: u64 = 0;
    for device in devices {
        lines = lines.checked_add(1 + device.tickets.len() as u64)?;
    }
    Some(lines)
}

// The number of lines of windows.
fn window_count(windows: &[Window]) -> Option<u64>
    ensures { IfSome result (λ n. n ≡ length (flat_map window_lines windows.now)) }
{
    let mut lines: u64 = 0;
    for window in windows {
        lines = lines.checked_add(1 + window.copies.len() as u64)?;
    }
    Some(lines)
}

impl Tables {
    /// The number of lines of these tables, with that of their shard. None if it does not fit 64 bits.
    pub fn lines(&self) -> Option<u64>
        ensures { IfSome result (λ n. (number : ℕ) → n ≡ length (tables_lines number self.now)) }
    {
        let devices = device_count(self.devices.as_slice())?;
        let windows = window_count(self.windows.as_slice())?;
        devices.checked_add(windows)?.checked_add(1)
    }
}

// The sum of two numbers. None if it does not fit 64 bits.
fn sum_of(a: u64, b: u64) -> Option<u64>
    ensures { IfSome result (λ n. n ≡ a + b) }
{
    a.checked_add(b)
}

// The number of lines of the tables of shards.
fn lines_of(shards: &[Tables]) -> Option<u64>
    ensures { IfSome result (λ n. n ≡ length (shards_lines 0 shards.now)) }
{
    let mut lines: u64 = 0;
    for tables in shards {
        let more = tables.lines()?;
        lines = sum_of(lines, more)?;
    }
    Some(lines)
}

impl Checkpoint {
    /// The number of lines of its tables, without the first line and the last one. There is none of 64 bits if there are too many.
    pub fn lines(&self) -> Option<u64>
        ensures { IfSome result (λ n. n ≡ length (shards_lines 0 self.now.shards.items)) }
    {
        lines_of(self.shards.as_slice())
    }
}

/// Writes a checkpoint.
pub fn write_checkpoint<W: Write>(out: &mut W, checkpoint: &Checkpoint) -> Result<(), io::Error>
    requires sixteen { length checkpoint.now.shards.items ≡ shard_count }
    ensures { OnOk result (Appends (W.contents out.old) (W.contents out.new) (checkpoint_text checkpoint.now)) }
{
    let Some(lines) = lines_of(checkpoint.shards.as_slice()) else {
        return Err(io::ErrorKind::InvalidInput.into());
    };
    let ups = checkpoint.ups;
    let mut writer = CheckpointWriter::begin(out, &Head { lines, ups })?;
    'shards: for number in 0..SHARDS {
        writer.put_tables(out, number, &checkpoint.shards[usize::from(number)])?;
    }
    writer.end(out)?;
    Ok(())
}
