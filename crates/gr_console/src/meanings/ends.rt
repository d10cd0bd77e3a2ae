//! Pages on ends of a run. Made by words/make.py from the texts beside it: change those.
ghost use Rattle.std.specs.Prelude.{◌≡◌, IfSome, is_some};
ghost use Rattle.gr_console.specs.Explanations.{IsOn, is_among};
ghost use Rattle.gr_console.specs.Codes.{ends as names};

use crate::pages::page_in;

const PAGES: [(&[u8], &str); 5] = [
    (
        b"ended",
        "\
ended: the program has ended

Example: 'run 100' gives 'ok 8 ended'.

What to do: Nothing steps any more (N1) until the last step of 'g0' is taken
back.
",
    ),
    (
        b"count",
        "\
count: as many steps were taken as were asked for

Example: 'run 3' gives 'ok 3 count'.

What to do: 'run' again goes on with the next goroutine.
",
    ),
    (
        b"stuck",
        "\
stuck: no goroutine is ready: all wait, or are done

Example: 'run 10' gives 'ok 2 stuck' where 'main' receives from a nil channel.

What to do: 'show g0' has the line at which it waits, 'chan' who waits on a
channel: a deadlock. 'back' goes before it.
",
    ),
    (
        b"full",
        "\
full: the log is full: it has 1,000,000 steps

Example: 'run 1000000' twice, in a loop without end.

What to do: Take steps back, and set a breakpoint nearer to what you look for.
",
    ),
    (
        b"break",
        "\
break: the next step belongs to a statement that begins on line L, which has a breakpoint

Example: 'break 4' and 'run 100' give 'ok 9 break 4'.

What to do: 'run' goes on past it; 'clear L' removes the breakpoint.
",
    ),
];

#[tactic(auto, unfolding(crate::specs::Codes::ends))]
pub(crate) fn ends(code: &[u8]) -> Option<&'static str>
    ensures told { is_some result ≡ is_among names code.now }
    ensures page { IfSome result (λ page. IsOn code.now page.now) }
{
    page_in(&PAGES, code)
}
