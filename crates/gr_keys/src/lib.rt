//! Goroutines and channels as bytes. None of these codes is the beginning of another, so one text of bytes is of one value. The
//! codes leave out how many steps a goroutine took, what it printed, and how many values left the buffer of a channel.
#![tactic(auto)]

ghost use Rattle.std.specs.Prelude.{List};
ghost use Rattle.gr_keys.specs.Codes.{IsCode, IsCodeOf, number_code, list_code};
ghost use Rattle.gr_keys.specs.ValueCodes.{name_code, channel_name_code, value_code};
ghost use Rattle.gr_keys.specs.GoroutineCodes.{bare_channel, bare_goroutine, channel_code, goroutine_code};

pub mod channels;
pub mod goroutines;
pub mod lists;
pub mod numbers;
pub mod values;

/// Where the codes of two values begin one text, the values are the same, and the same follows. So it is with numbers, names and
/// values, and with goroutines and channels but for what their codes leave out.
pub fn law_of_codes()
    ensures numbers { IsCode number_code }
    ensures names { IsCode name_code }
    ensures channel_names { IsCode channel_name_code }
    ensures values { IsCode value_code }
    ensures goroutines { IsCodeOf bare_goroutine goroutine_code }
    ensures channels { IsCodeOf bare_channel channel_code }
{}
