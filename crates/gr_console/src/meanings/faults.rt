//! Pages on faults of a program. Made by words/make.py from the texts beside it: change those.
ghost use Rattle.std.specs.Prelude.{◌≡◌, IfSome, is_some};
ghost use Rattle.gr_console.specs.Explanations.{IsOn, is_among};
ghost use Rattle.gr_console.specs.Codes.{faults as names};

use crate::pages::page_in;

const PAGES: [(&[u8], &str); 9] = [
    (
        b"DivideByZero",
        "\
DivideByZero: a division by zero, or a remainder of one

Example: 'println(x / y)' where 'y' is 0.

What to do: 'undo' takes the fault back. 'back var g0 y' goes before the step
that gave 'y' its value.
",
    ),
    (
        b"NegativeShift",
        "\
NegativeShift: a shift by a negative count

Example: 'println(1 << s)' where 's' is -1.

What to do: 'undo' takes the fault back. 'back var g0 s' goes before the step
that gave 's' its value.
",
    ),
    (
        b"SendOnClosed",
        "\
SendOnClosed: a send on a closed channel, also as a case of a select

Example: 'c <- 1' after 'close(c)'.

What to do: 'log' shows the 'close', and 'causes' of the fault what led to it.
Let the sender close, or count senders before closing.
",
    ),
    (
        b"CloseOfClosed",
        "\
CloseOfClosed: a close of a channel that is closed

Example: 'close(c)' after 'close(c)'.

What to do: 'log' shows both 'close' steps. Let one goroutine close the
channel.
",
    ),
    (
        b"CloseOfNil",
        "\
CloseOfNil: a close of a nil channel

Example: 'var c chan int', then 'close(c)'.

What to do: Give the variable a channel by 'make' first.
",
    ),
    (
        b"BadSize",
        "\
BadSize: a channel of a size below 0 or over 1,000,000

Example: 'make(chan int, n)' where 'n' is -1.

What to do: 'undo' takes the fault back. 'back var g0 n' goes before the step
that gave 'n' its value.
",
    ),
    (
        b"CallDepth",
        "\
CallDepth: more than 1,000 frames of calls in one goroutine

Example: 'func f() { f() }'.

What to do: 'show g0' lists the frames. Let the recursion end, or write a
loop.
",
    ),
    (
        b"NameDepth",
        "\
NameDepth: more than 32 generations of goroutines

Example: 'func f() { go f() }', over and over.

What to do: Let one goroutine start the others.
",
    ),
    (
        b"NameCount",
        "\
NameCount: more than 4,294,967,295 goroutines started, or channels made, by one goroutine

Example: a loop around 'go f()' that runs as often.

What to do: A session holds fewer steps than that: this fault does not come
before its log is full.
",
    ),
];

#[tactic(auto, unfolding(crate::specs::Codes::faults))]
pub(crate) fn faults(code: &[u8]) -> Option<&'static str>
    ensures told { is_some result ≡ is_among names code.now }
    ensures page { IfSome result (λ page. IsOn code.now page.now) }
{
    page_in(&PAGES, code)
}
