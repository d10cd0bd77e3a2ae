//! Goroutines as bytes.

ghost use Rattle.std.specs.Prelude.{◌≡◌, ◌++◌, ◌∷◌, [], OnOk};
ghost use Rattle.gr_keys.specs.ValueCodes.{channel_name_code};
ghost use Rattle.gr_goros.specs.Views.{status_of, wait_of, waits_of};
ghost use Rattle.gr_keys.specs.Codes.{list_code, option_code, number_code};
ghost use Rattle.gr_keys.specs.GoroutineCodes.{frame_code, status_code, counts_code, goroutine_code, wait_code};

use crate::lists::{Coded, write_byte, write_list, write_option};
use crate::numbers::write_number;
use gr_base::{ChName, NoMemory};
use gr_goros::{Frame, Goroutine, Status, Wait};

impl Coded for Frame {
    ghost use Rattle.gr_keys.specs.GoroutineCodes.{frame_code};

    ghost code = { frame_code };

    fn write(&self, bytes: &mut Vec<u8>) -> Result<(), NoMemory> {
        let spot = self.spot();
        write_number(u64::from(spot.function), bytes)?;
        write_number(u64::from(spot.number), bytes)?;
        write_list(self.cells(), bytes)
    }
}

impl Coded for Wait {
    ghost use Rattle.gr_goros.specs.Views.{wait_of};
    ghost use Rattle.gr_keys.specs.GoroutineCodes.{wait_code};

    ghost code = { λ w. wait_code (wait_of w) };

    fn write(&self, bytes: &mut Vec<u8>) -> Result<(), NoMemory> {
        match self {
            Wait::Send(channel, clause) => write_wait(0, channel, *clause, bytes),
            Wait::Receive(channel, clause) => write_wait(1, channel, *clause, bytes),
        }
    }
}

/// Appends a mark, a channel and a clause.
fn write_wait(
    mark: u8,
    channel: &ChName,
    clause: Option<u32>,
    bytes: &mut Vec<u8>,
) -> Result<(), NoMemory>
    ensures { OnOk result (bytes.new.items
        ≡ bytes.old.items ++ mark ∷ (channel_name_code channel.now ++ option_code number_code clause)) }
{
    write_byte(mark, bytes)?;
    channel.write(bytes)?;
    write_option(clause.as_ref(), bytes)
}

/// Appends the code of one wait, outside a select.
fn write_only_wait(mark: u8, channel: &ChName, bytes: &mut Vec<u8>) -> Result<(), NoMemory>
    ensures { OnOk result (bytes.new.items
        ≡ bytes.old.items ++ 1 ∷ 1 ∷ ((mark ∷ (channel_name_code channel.now ++ 0 ∷ [])) ++ 0 ∷ [])) }
{
    write_byte(1, bytes)?;
    write_byte(1, bytes)?;
    write_wait(mark, channel, None, bytes)?;
    write_byte(0, bytes)
}

/// Appends the code of all that a goroutine waits for.
fn write_waits(waits: &[Wait], bytes: &mut Vec<u8>) -> Result<(), NoMemory>
    ensures { OnOk result (bytes.new.items ≡ bytes.old.items ++ list_code wait_code (waits_of waits.now)) }
{
    write_list(waits, bytes)
}

impl Coded for Status {
    ghost use Rattle.gr_goros.specs.Views.{status_of};
    ghost use Rattle.gr_keys.specs.GoroutineCodes.{status_code};

    ghost code = { λ s. status_code (status_of s) };

    fn write(&self, bytes: &mut Vec<u8>) -> Result<(), NoMemory> {
        match self {
            Status::Ready => write_byte(0, bytes),
            Status::Sending(channel) => write_only_wait(0, channel, bytes),
            Status::Receiving(channel) => write_only_wait(1, channel, bytes),
            Status::Waiting(waits) => {
                write_byte(1, bytes)?;
                write_waits(waits.as_slice(), bytes)
            }
            Status::Finished => write_byte(2, bytes),
        }
    }
}

/// Appends the code of the frames, the innermost first.
fn write_frames(goroutine: &Goroutine, bytes: &mut Vec<u8>) -> Result<(), NoMemory>
    ensures { OnOk result (bytes.new.items ≡ bytes.old.items ++ list_code frame_code goroutine.now.content.frames) }
{
    for number in 0..usize::MAX {
        let Some(frame) = goroutine.frame(number) else {
            return write_byte(0, bytes);
        };
        write_byte(1, bytes)?;
        frame.write(bytes)?;
    }
    Err(NoMemory)
}

/// Appends the counts of the goroutines that it started, and of the channels that it made.
fn write_counts(goroutine: &Goroutine, bytes: &mut Vec<u8>) -> Result<(), NoMemory>
    ensures { OnOk result (bytes.new.items ≡ bytes.old.items ++ counts_code goroutine.now.content) }
{
    write_number(u64::from(goroutine.children()), bytes)?;
    write_number(u64::from(goroutine.channels()), bytes)
}

/// Appends the code of a goroutine, which leaves out how many steps it took and what it printed.
pub fn write_goroutine(goroutine: &Goroutine, bytes: &mut Vec<u8>) -> Result<(), NoMemory>
    ensures { OnOk result (bytes.new.items ≡ bytes.old.items ++ goroutine_code goroutine.now.content) }
{
    goroutine.status().write(bytes)?;
    write_frames(goroutine, bytes)?;
    write_counts(goroutine, bytes)
}
