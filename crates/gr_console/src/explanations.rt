//! What the codes mean that the program tells.
ghost use Rattle.std.specs.Prelude.{◌≡◌, IfSome, is_some};
ghost use Rattle.gr_console.specs.Explanations.{IsOn, is_told};

use crate::meanings::callers::callers;
use crate::meanings::ends::ends;
use crate::meanings::failures::failures;
use crate::meanings::faults::faults;
use crate::meanings::kinds::kinds;
use crate::meanings::replies::replies;
use crate::meanings::sources::sources;

/// The page on a code: what it means, how it comes about, and what to do. A code is that of a refusal or of a refused source,
/// or the name of a fault, a kind of step, an end of a run or a failure of the program. Each of them has a page, and nothing
/// else has one.
pub fn explain(code: &[u8]) -> Option<&'static str>
    ensures told { is_some result ≡ is_told code.now }
    ensures page { IfSome result (λ page. IsOn code.now page.now) }
{
    if let Some(page) = sources(code) {
        return Some(page);
    }
    if let Some(page) = replies(code) {
        return Some(page);
    }
    if let Some(page) = callers(code) {
        return Some(page);
    }
    if let Some(page) = kinds(code) {
        return Some(page);
    }
    if let Some(page) = ends(code) {
        return Some(page);
    }
    if let Some(page) = faults(code) {
        return Some(page);
    }
    failures(code)
}

/// What a code means: the first line of its page.
pub fn meaning_of(page: &'static str) -> &'static str {
    match page.split_once('\n') {
        Some((meaning, _)) => meaning,
        None => page,
    }
}
