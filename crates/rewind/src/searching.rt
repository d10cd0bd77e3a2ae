//! Searches of all schedules of a program, from its source and a script.

ghost use Rattle.std.specs.Prelude.{◌≡◌, [], length, IfOk, IfErr, OnOk, OnErr, IsErrOf};
ghost use Rattle.std.specs.Io.KnownBytes.{Consumes, IsAtEnd};
ghost use Rattle.gr_lines.specs.Devices.{change, device_of, Fails, NeverFails};
ghost use Rattle.rewind.specs.Searching.{BlamedBy, Searched, SearchLeft, ReadBoth};

use gr_lines::counted::{Counted, LineError};
use gr_serve::debug::read_source;
use gr_survey::{blame, survey};
pub use gr_survey::{
    BadEnd, BadEnds, Blamed, Limit, Limits, Schedule, Span, SurveyFault, Surveyed, Unfinished,
};
use std::alloc::Global;
use std::io::Read;

/// Why a program was not searched.
#[derive(Clone, Copy)]
pub enum SearchFault {
    /// The source failed.
    Source,
    /// The script failed.
    Script,
    /// The source is refused or a line of the script, or it is out of memory.
    Survey(SurveyFault),
}

// How many bytes of a script are read at once.
const BLOCK: usize = 8192;

/// The bytes of a script, up to its end.
fn read_script<R: Read>(script: &mut Counted<R>, text: &mut Vec<u8>) -> Result<(), LineError>
    requires { length text.old.items ≡ 0 }
    ensures ok { OnOk result
        (Consumes (R.remaining (device_of script.old)) (R.remaining (device_of script.new)) text.new.items) }
    ensures end { OnOk result (IsAtEnd (R.remaining (device_of script.new))) }
    ensures same { OnOk result (NeverFails (change R.remaining script.old script.new)) }
    ensures read { IsErrOf result LineError.Read → Fails (change R.remaining script.old script.new) }
    ensures memory { IsErrOf result LineError.Memory → NeverFails (change R.remaining script.old script.new) }
{
    let mut block = [0u8; BLOCK];
    loop {
        let Ok(count) = script.read(&mut block) else {
            return Err(LineError::Read);
        };
        if count == 0 {
            return Ok(());
        }
        if text.extend_from_slice(&block[..count]).is_err() {
            return Err(LineError::Memory);
        }
    }
}

/// The text of a source, and that of a script.
fn read_both<S: Read, R: Read>(
    source: &mut Counted<S>,
    script: &mut Counted<R>,
    program: &mut Vec<u8>,
    commands: &mut Vec<u8>,
) -> Result<(), SearchFault>
    requires program { length program.old.items ≡ 0 }
    requires commands { length commands.old.items ≡ 0 }
    ensures ok { OnOk result (ReadBoth (change S.remaining source.old source.new) (change R.remaining script.old script.new)
        program.new.items commands.new.items) }
    ensures err { IfErr result (λ fault. SearchLeft fault (change S.remaining source.old source.new)
        (change R.remaining script.old script.new)) }
{
    match read_source(source, program) {
        Ok(()) => {}
        Err(LineError::Read) => return Err(SearchFault::Source),
        Err(LineError::Memory) => return Err(SearchFault::Survey(SurveyFault::Memory)),
    }
    match read_script(script, commands) {
        Ok(()) => Ok(()),
        Err(LineError::Read) => Err(SearchFault::Script),
        Err(LineError::Memory) => Err(SearchFault::Survey(SurveyFault::Memory)),
    }
}

/// Reads the source and the script, and searches all schedules of the program from where the script leaves it, as `survey` does.
/// Of a source that is too long at most 8,192 bytes too much are read. Of the script all is read, once the source was. The fault
/// names the device that failed, if one did, and leaves the text as it was.
pub fn search<S: Read, R: Read>(
    alloc: Global,
    source: &mut Counted<S>,
    script: &mut Counted<R>,
    bad: BadEnds,
    limits: &Limits,
    text: &mut Vec<u8>,
) -> Result<Surveyed, SearchFault>
    ensures found { IfOk result (λ found. Searched (change S.remaining source.old source.new)
        (change R.remaining script.old script.new) bad limits.now found text.old.items text.new.items) }
    ensures why { IfErr result (λ fault. SearchLeft fault (change S.remaining source.old source.new)
        (change R.remaining script.old script.new)) }
    ensures err { OnErr result (text.new.items ≡ text.old.items) }
{
    let mut program = Vec::new(alloc);
    let mut commands = Vec::new(alloc);
    match read_both(source, script, &mut program, &mut commands) {
        Ok(()) => {}
        Err(fault) => return Err(fault),
    }
    let surveyed = survey(
        alloc,
        program.as_slice(),
        commands.as_slice(),
        bad,
        limits,
        text,
    );
    match surveyed {
        Ok(found) => Ok(found),
        Err(fault) => Err(SearchFault::Survey(fault)),
    }
}

/// Reads the source and the script, and finds the step of the script's run that is to blame, as `gr_survey::blame` does. It reads, and
/// fails, as `search` does.
pub fn find_blame<S: Read, R: Read>(
    alloc: Global,
    source: &mut Counted<S>,
    script: &mut Counted<R>,
    limits: &Limits,
) -> Result<Blamed, SearchFault>
    ensures blamed { IfOk result (BlamedBy (change S.remaining source.old source.new)
        (change R.remaining script.old script.new)) }
    ensures why { IfErr result (λ fault. SearchLeft fault (change S.remaining source.old source.new)
        (change R.remaining script.old script.new)) }
{
    let mut program = Vec::new(alloc);
    let mut commands = Vec::new(alloc);
    match read_both(source, script, &mut program, &mut commands) {
        Ok(()) => {}
        Err(fault) => return Err(fault),
    }
    match blame(alloc, program.as_slice(), commands.as_slice(), limits) {
        Ok(blamed) => Ok(blamed),
        Err(fault) => Err(SearchFault::Survey(fault)),
    }
}
