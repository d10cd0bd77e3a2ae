//! Readers and writers with a count of their failures, and lines of bytes.
ghost use Rattle.std.specs.Prelude.{◌≡◌, ◌≢◌, ◌↔◌, ◌+◌, ◌++◌, ◌≤◌, ◌<◌, [], length, take, Some};
ghost use Rattle.std.specs.Prelude.{IfOk, IfErr, OnOk, OnErr, IsErrOf};
ghost use Rattle.std.specs.IoError.{error_kind};
ghost use Rattle.std.specs.Io.KnownBytes.{Appends, Consumes, Keeps};
ghost use Rattle.gr_lines.specs.Bytes.{Came, Plain, BeginsNewline, with_end, Comes, Taken, LineRead, Begins};
ghost use Rattle.gr_lines.specs.declared.counted.LineEnd.TheVariants.{End};
ghost use Rattle.gr_lines.specs.Devices.{one_more, device_of, failures_of, left_of};

use gr_base::NoMemory;
use gr_command::read::LINE_LIMIT;
use std::io;
use std::io::{BufRead, ErrorKind, Read, Write};

/// A reader or a writer, with how often it failed. It may be read 18,446,744,073,709,551,615 times, and fails from
/// then on.
#[derive(Drop)]
pub struct Counted<T> {
    inner: T,
    failures: u64,
    left: u64,
}

/// Why a device was not read or written. The failure is counted.
#[derive(Clone, Copy)]
pub enum DeviceError {
    /// It was read as often as it may be.
    Spent,
    /// The device failed.
    Device,
}

impl<T> Counted<T> {
    /// The device, which has not failed yet.
    pub fn new(inner: T) -> Counted<T>
        ensures inner { device_of result ≡ inner }
        ensures failures { failures_of result ≡ 0 }
        ensures left { left_of result ≡ 0xFFFF_FFFF_FFFF_FFFF }
    {
        Counted {
            inner,
            failures: 0,
            left: u64::MAX,
        }
    }

    /// How often it failed, up to the greatest `u64`.
    pub fn failures(&self) -> u64
        ensures { result ≡ failures_of self.now }
    {
        self.failures
    }

    /// The device.
    pub fn into_inner(self) -> T
        ensures { result ≡ device_of self }
    {
        self.inner
    }

    /// Counts a failure.
    fn fail(&mut self)
        ensures inner { device_of self.new ≡ device_of self.old }
        ensures failures { failures_of self.new ≡ one_more (failures_of self.old) }
        ensures left { left_of self.new ≡ left_of self.old }
    {
        self.failures = self.failures.saturating_add(1);
    }
}

impl<R: Read> Counted<R> {
    /// Reads into these bytes, and tells how many came: none at the end. An error leaves the bytes that the reader still has.
    /// `Spent` comes just where it was read as often as it may be.
    pub fn read(&mut self, bytes: &mut [u8]) -> Result<usize, DeviceError>
        requires { 0 < length bytes.old }
        ensures bound { IfOk result (λ count. count ≤ length bytes.new) }
        ensures ok { IfOk result (λ count.
            Came (R.remaining (device_of self.old)) (R.remaining (device_of self.new)) (take count bytes.new)) }
        ensures err { OnErr result (Keeps (R.remaining (device_of self.old)) (R.remaining (device_of self.new))) }
        ensures same { OnOk result (failures_of self.new ≡ failures_of self.old) }
        ensures failures { OnErr result (failures_of self.new ≡ one_more (failures_of self.old)) }
        ensures left { OnOk result (left_of self.new + 1 ≡ left_of self.old) }
        ensures spent { IsErrOf result DeviceError.Spent ↔ (left_of self.old ≡ 0) }
        ensures stays_spent { IsErrOf result DeviceError.Spent → left_of self.new ≡ 0 }
        ensures device { IsErrOf result DeviceError.Device → left_of self.new + 1 ≡ left_of self.old }
    {
        if self.left == 0 {
            self.fail();
            return Err(DeviceError::Spent);
        }
        self.left -= 1;
        match read_some(&mut self.inner, bytes) {
            Ok(count) => Ok(count),
            Err(_) => {
                self.fail();
                Err(DeviceError::Device)
            }
        }
    }
}

/// The error of a device that is interrupted each time.
fn interrupted() -> io::Error
    ensures { error_kind result ≡ ErrorKind.TimedOut }
{
    io::Error::from(ErrorKind::TimedOut)
}

/// Reads into these bytes, and tells how many came: none at the end. Tries again where the read was interrupted.
fn read_some<R: Read>(reader: &mut R, bytes: &mut [u8]) -> io::Result<usize>
    requires { 0 < length bytes.old }
    ensures bound { IfOk result (λ count. count ≤ length bytes.new) }
    ensures ok { IfOk result (λ count. Came (R.remaining reader.old) (R.remaining reader.new) (take count bytes.new)) }
    ensures err { OnErr result (Keeps (R.remaining reader.old) (R.remaining reader.new)) }
    ensures retried { IfErr result (λ error. error_kind error ≢ ErrorKind.Interrupted) }
{
    for _ in 0..u64::MAX {
        match reader.read(bytes) {
            Ok(count) => return Ok(count),
            Err(e) => {
                if e.kind() != ErrorKind::Interrupted {
                    return Err(e);
                }
            }
        }
    }
    Err(interrupted())
}

impl<W: Write> Counted<W> {
    /// Writes the bytes. After an error a beginning of them is written, which may be none or all.
    pub fn put(&mut self, bytes: &[u8]) -> Result<(), DeviceError>
        ensures ok { OnOk result
            (Appends (W.contents (device_of self.old)) (W.contents (device_of self.new)) bytes.now) }
        ensures err { OnErr result
            (Begins (W.contents (device_of self.old)) (W.contents (device_of self.new)) bytes.now) }
        ensures same { OnOk result (failures_of self.new ≡ failures_of self.old) }
        ensures failures { OnErr result (failures_of self.new ≡ one_more (failures_of self.old)) }
        ensures device { IfErr result (λ error. error ≡ DeviceError.Device) }
        ensures left { left_of self.new ≡ left_of self.old }
    {
        match put_all(&mut self.inner, bytes) {
            Ok(()) => Ok(()),
            Err(_) => {
                self.fail();
                Err(DeviceError::Device)
            }
        }
    }
}

/// Some of the bytes, tried again where the write was interrupted. That no byte was taken is a failure.
fn put_some<W: Write>(writer: &mut W, bytes: &[u8]) -> io::Result<usize>
    ensures ok { IfOk result (λ n. Appends (W.contents writer.old) (W.contents writer.new) (take n bytes.now)) }
    ensures count { IfOk result (λ n. (0 < n) × (n ≤ length bytes.now)) }
    ensures err { OnErr result (Keeps (W.contents writer.old) (W.contents writer.new)) }
    ensures retried { IfErr result (λ error. error_kind error ≢ ErrorKind.Interrupted) }
{
    for _ in 0..u64::MAX {
        match writer.write(bytes) {
            Ok(0) => return Err(io::Error::from(ErrorKind::WriteZero)),
            Ok(n) => return Ok(n),
            Err(e) => {
                if e.kind() != ErrorKind::Interrupted {
                    return Err(e);
                }
            }
        }
    }
    Err(interrupted())
}

/// All the bytes, or a beginning of them.
fn put_all<W: Write>(writer: &mut W, bytes: &[u8]) -> io::Result<()>
    ensures ok { OnOk result (Appends (W.contents writer.old) (W.contents writer.new) bytes.now) }
    ensures err { OnErr result (Begins (W.contents writer.old) (W.contents writer.new) bytes.now) }
{
    let mut done = 0;
    while done < bytes.len() {
        done += put_some(writer, &bytes[done..])?;
    }
    Ok(())
}

/// What ended a line.
#[derive(Clone, Copy)]
pub enum LineEnd {
    /// A newline, which was read too.
    Newline,
    /// The end of the bytes.
    End,
}

/// Why no whole line was read.
#[derive(Clone, Copy)]
pub enum LineError {
    /// The reader failed, or was read as often as it may be. The failure is counted.
    Read,
    /// There was no memory for the line. No failure is counted.
    Memory,
}

/// The bytes before the first newline, and the rest.
pub fn split_line(bytes: &[u8]) -> (&[u8], &[u8])
    ensures cut { bytes.now ≡ result.0.now ++ result.1.now }
    ensures plain { Plain result.0.now }
    ensures rest { BeginsNewline result.1.now }
{
    for (i, byte) in bytes.iter().enumerate() {
        if *byte == b'\n' {
            return bytes.split_at(i);
        }
    }
    (bytes, b"")
}

/// Appends bytes of a line. Of a line over the limit one byte more than that is kept.
fn keep(line: &mut Vec<u8>, bytes: &[u8]) -> Result<(), NoMemory>
    requires { length line.old.items ≤ LINE_LIMIT + 1 }
    ensures { OnOk result (line.new.items ≡ take (LINE_LIMIT + 1) (line.old.items ++ bytes.now)) }
{
    let room = LINE_LIMIT + 1 - line.len();
    let count = bytes.len().min(room);
    Ok(line.extend_from_slice(&bytes[..count])?)
}

/// What ended the line of these bytes, which the rest followed at once, and how many bytes are read with that.
fn end_after(bytes: &[u8], rest: &[u8]) -> (Option<LineEnd>, usize)
    requires { BeginsNewline rest.now }
    ensures bound { result.1 ≤ length (bytes.now ++ rest.now) }
    ensures read { take result.1 (bytes.now ++ rest.now) ≡ with_end bytes.now result.0 }
    ensures end { result.0 ≡ Some End → length (bytes.now ++ rest.now) ≡ 0 }
{
    if let Some(_) = rest.first() {
        return (Some(LineEnd::Newline), bytes.len() + 1);
    }
    if bytes.is_empty() {
        return (Some(LineEnd::End), 0);
    }
    (None, bytes.len())
}

/// Reads the bytes of a line that the reader gives at once. Tells what ended the line, if it has ended. An interrupted read gives
/// no byte.
fn read_part<R: BufRead>(reader: &mut R, line: &mut Vec<u8>) -> Result<Option<LineEnd>, LineError>
    requires { length line.old.items ≤ LINE_LIMIT + 1 }
    ensures ok { IfOk result (λ end. Comes (R.remaining reader.old) (R.remaining reader.new) line.old.items line.new.items end) }
    ensures err { OnErr result (Keeps (R.remaining reader.old) (R.remaining reader.new)) }
{
    let ahead = match reader.fill_buf() {
        Ok(ahead) => ahead,
        Err(e) => {
            return if e.kind() == ErrorKind::Interrupted {
                Ok(None)
            } else {
                Err(LineError::Read)
            };
        }
    };
    let (bytes, rest) = split_line(ahead);
    let Ok(()) = keep(line, bytes) else {
        return Err(LineError::Memory);
    };
    let (end, used) = end_after(bytes, rest);
    reader.consume(used);
    Ok(end)
}

impl<R: BufRead> Counted<R> {
    /// Reads on in a line. Tells what ended it, if it has ended.
    fn read_on(&mut self, line: &mut Vec<u8>) -> Result<Option<LineEnd>, LineError>
        requires { length line.old.items ≤ LINE_LIMIT + 1 }
        ensures ok { IfOk result (λ end. Comes (R.remaining (device_of self.old)) (R.remaining (device_of self.new))
            line.old.items line.new.items end) }
        ensures err { OnErr result (Keeps (R.remaining (device_of self.old)) (R.remaining (device_of self.new))) }
        ensures read { IsErrOf result LineError.Read → failures_of self.new ≡ one_more (failures_of self.old) }
        ensures same { OnOk result (failures_of self.new ≡ failures_of self.old) }
        ensures memory { IsErrOf result LineError.Memory → failures_of self.new ≡ failures_of self.old }
        ensures left { OnOk result (left_of self.new + 1 ≡ left_of self.old) }
        ensures never_more { left_of self.new ≤ left_of self.old }
        ensures spent { left_of self.old ≡ 0 → IsErrOf result LineError.Read }
    {
        if self.left == 0 {
            self.fail();
            return Err(LineError::Read);
        }
        self.left -= 1;
        match read_part(&mut self.inner, line) {
            Ok(end) => Ok(end),
            Err(LineError::Memory) => Err(LineError::Memory),
            Err(LineError::Read) => {
                self.fail();
                Err(LineError::Read)
            }
        }
    }
}

/// Reads a line into `line`, which is empty, without its newline. Of a line of more than 1,048,576 bytes one byte more than that
/// is kept. After an error some bytes of the line may have been read. Each read of the device is one of those that are left, and
/// with none left the error is `LineError::Read`.
pub fn read_line<R: BufRead>(
    reader: &mut Counted<R>,
    line: &mut Vec<u8>,
) -> Result<LineEnd, LineError>
    requires { length line.old.items ≡ 0 }
    ensures ok { IfOk result (λ end.
        LineRead (R.remaining (device_of reader.old)) (R.remaining (device_of reader.new)) line.new.items end) }
    ensures err { OnErr result (Taken (R.remaining (device_of reader.old)) (R.remaining (device_of reader.new))) }
    ensures read { IsErrOf result LineError.Read → failures_of reader.new ≡ one_more (failures_of reader.old) }
    ensures same { OnOk result (failures_of reader.new ≡ failures_of reader.old) }
    ensures memory { IsErrOf result LineError.Memory → failures_of reader.new ≡ failures_of reader.old }
    ensures left { OnOk result (left_of reader.new < left_of reader.old) }
    ensures never_more { left_of reader.new ≤ left_of reader.old }
    ensures spent { left_of reader.old ≡ 0 → IsErrOf result LineError.Read }
{
    loop {
        match reader.read_on(line) {
            Err(error) => return Err(error),
            Ok(Some(end)) => return Ok(end),
            Ok(None) => {}
        }
    }
}
