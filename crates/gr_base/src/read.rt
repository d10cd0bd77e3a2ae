//! Readers of names: each reads the texts that its printer writes, and no other. They fail only where the text is a name,
//! and there is no memory for it.

ghost use Rattle.std.specs.Prelude.{◌≡◌, ◌==◌, ◌+◌, ◌<◌, ◌≤◌, IfOk, IfSome, OnErr, IsSome, length, position, is_some};
ghost use Rattle.std.specs.List.{before_first, after_first};
ghost use Rattle.gr_base.specs.Names.{with_digit, count_from, counts_from, go_named, ch_named, step_named};

use crate::memory::NoMemory;
use crate::names::{ChName, GoName, StepId};
use std::alloc::Global;

/// The goroutine that the text names, if it names one: `g0`, and for each count a dot and the count in decimal. A count
/// is from 1 to 4,294,967,295 and has no leading zero.
pub fn read_go(alloc: Global, text: &[u8]) -> Result<Option<GoName>, NoMemory>
    ensures named { IfOk result (λ name. name ≡ go_named text.now) }
    ensures memory { OnErr result (IsSome (go_named text.now)) }
{
    let Some(counts) = text.strip_prefix(b"g0") else {
        return Ok(None);
    };
    match counts.split_first() {
        None => Ok(Some(GoName::main(alloc)?)),
        Some((b'.', counts)) => read_counts(alloc, counts),
        Some(_) => Ok(None),
    }
}

/// The channel that the text names, if it names one: a goroutine, `/c` and a count in decimal, as those of goroutines.
pub fn read_ch(alloc: Global, text: &[u8]) -> Result<Option<ChName>, NoMemory>
    ensures named { IfOk result (λ name. name ≡ ch_named text.now) }
    ensures memory { OnErr result (IsSome (ch_named text.now)) }
{
    let (go, count) = parts(text, b'/');
    let Some((b'c', digits)) = count.split_first() else {
        return Ok(None);
    };
    let Some(n) = read_count(u64::from(u32::MAX), digits) else {
        return Ok(None);
    };
    let Some(go) = read_go(alloc, go)? else {
        return Ok(None);
    };
    Ok(Some(ChName { go, n: n as u32 }))
}

/// The step that the text names, if it names one: a goroutine, `#` and an ordinal in decimal, from 1 to
/// 18,446,744,073,709,551,615 and with no leading zero.
pub fn read_step(alloc: Global, text: &[u8]) -> Result<Option<StepId>, NoMemory>
    ensures named { IfOk result (λ step. step ≡ step_named text.now) }
    ensures memory { OnErr result (IsSome (step_named text.now)) }
{
    let (go, digits) = parts(text, b'#');
    let Some(n) = read_count(u64::MAX, digits) else {
        return Ok(None);
    };
    let Some(go) = read_go(alloc, go)? else {
        return Ok(None);
    };
    Ok(Some(StepId { go, n }))
}

/// What stands before and after the first mark. Without a mark nothing stands after it.
fn parts(text: &[u8], mark: u8) -> (&[u8], &[u8])
    ensures before { result.0.now ≡ before_first (λ b. b == mark) text.now }
    ensures after { result.1.now ≡ after_first (λ b. b == mark) text.now }
{
    match first_place(text, mark) {
        Some(at) => (&text[..at], &text[at + 1..]),
        None => (text, &[]),
    }
}

/// Where the first mark stands.
fn first_place(text: &[u8], mark: u8) -> Option<usize>
    ensures place { result ≡ position (λ b. b == mark) text.now }
    ensures bound { IfSome result (λ at. at < length text.now) }
{
    text.iter().position(|byte| *byte == mark)
}

/// The goroutine with the counts that the text spells, with a dot between two of them.
fn read_counts(alloc: Global, text: &[u8]) -> Result<Option<GoName>, NoMemory>
    ensures named { IfOk result (λ name. name ≡ counts_from 0 text.now) }
    ensures memory { OnErr result (IsSome (counts_from 0 text.now)) }
{
    if !spells_counts(text) {
        return Ok(None);
    }
    let mut counts = Vec::new(alloc);
    let mut count = 0;
    for byte in text {
        if *byte == b'.' {
            if count == 0 {
                return Ok(None);
            }
            counts.push(count as u32)?;
            count = 0;
        } else {
            let Some(longer) = push_digit(u64::from(u32::MAX), count, *byte) else {
                return Ok(None);
            };
            count = longer;
        }
    }
    if count == 0 {
        return Ok(None);
    }
    counts.push(count as u32)?;
    Ok(Some(GoName::from_counts(counts)?))
}

/// The text spells counts, with a dot between two of them.
fn spells_counts(text: &[u8]) -> bool
    ensures { result ≡ is_some (counts_from 0 text.now) }
{
    let mut count = 0;
    for byte in text {
        if *byte == b'.' {
            if count == 0 {
                return false;
            }
            count = 0;
        } else {
            let Some(longer) = push_digit(u64::from(u32::MAX), count, *byte) else {
                return false;
            };
            count = longer;
        }
    }
    count > 0
}

/// The number from 1 to `largest` that the digits spell, if they spell one with no leading zero.
fn read_count(largest: u64, digits: &[u8]) -> Option<u64>
    ensures value { result ≡ count_from (largest + 1) 0 digits.now }
    ensures range { IfSome result (λ n. n ≤ largest) }
{
    let mut count = 0;
    for digit in digits {
        count = push_digit(largest, count, *digit)?;
    }
    if count == 0 { None } else { Some(count) }
}

/// The number with one more digit, if it is then from 1 to `largest`.
fn push_digit(largest: u64, n: u64, byte: u8) -> Option<u64>
    ensures value { result ≡ with_digit (largest + 1) n byte }
    ensures range { IfSome result (λ longer. longer ≤ largest) }
{
    if !byte.is_ascii_digit() {
        return None;
    }
    let longer = n.checked_mul(10)?.checked_add(u64::from(byte - b'0'))?;
    if longer > 0 && longer <= largest {
        Some(longer)
    } else {
        None
    }
}
