//! Pages on codes that only callers of the library get. Made by words/make.py from the texts beside it: change those.
ghost use Rattle.std.specs.Prelude.{◌≡◌, IfSome, is_some};
ghost use Rattle.gr_console.specs.Explanations.{IsOn, is_among};
ghost use Rattle.gr_console.specs.Codes.{callers as names};

use crate::pages::page_in;

const PAGES: [(&[u8], &str); 2] = [
    (
        b"E1",
        "\
E1: the session has 1,000 clients

Example: the 1,001st call of 'enrol'.

What to do: Share one client among callers.
",
    ),
    (
        b"E2",
        "\
E2: there is no memory for one more client

Example: 'enrol' where a growth is refused.

What to do: Free memory and ask again: nothing has changed.
",
    ),
];

#[tactic(auto, unfolding(crate::specs::Codes::callers))]
pub(crate) fn callers(code: &[u8]) -> Option<&'static str>
    ensures told { is_some result ≡ is_among names code.now }
    ensures page { IfSome result (λ page. IsOn code.now page.now) }
{
    page_in(&PAGES, code)
}
