//! Pages on kinds of steps. Made by words/make.py from the texts beside it: change those.
ghost use Rattle.std.specs.Prelude.{◌≡◌, IfSome, is_some};
ghost use Rattle.gr_console.specs.Explanations.{IsOn, is_among};
ghost use Rattle.gr_console.specs.Codes.{kinds as names};

use crate::pages::page_in;

const PAGES: [(&[u8], &str); 19] = [
    (
        b"pure",
        "\
pure: a statement, or an operand of one, that touches its own goroutine alone

Example: 'x := 1'.

It depends on its own goroutine's steps alone, and goes back with those after
it.
",
    ),
    (
        b"call",
        "\
call: called a function

Example: 'f(1)'.

The next step of the goroutine is in the function.
",
    ),
    (
        b"return",
        "\
return: left a function

Example: 'return 7', or the closing brace of a function without result.

The caller's statement goes on with the result; at the end of a goroutine's
first function the goroutine is done.
",
    ),
    (
        b"exit",
        "\
exit: ended the program: the outermost function of 'g0' was left

Example: the closing brace of 'main'.

Nothing steps any more (N1) until this step is taken back.
",
    ),
    (
        b"go",
        "\
go: started a goroutine

Example: 'go f(c)'.

'back go g0.1' takes back the step that started 'g0.1'.
",
    ),
    (
        b"make",
        "\
make: made a channel

Example: 'c := make(chan int, 2)'.

'chan g0/c1' shows the first channel that 'g0' made.
",
    ),
    (
        b"length",
        "\
length: took 'len' or 'cap' of a channel

Example: 'println(len(c))'.

It depends on the steps that gave the buffer its length.
",
    ),
    (
        b"hand",
        "\
hand: handed a value to a receiver that waits

Example: 'c <- 7' where a goroutine waits at '<-c'.

The receiver is ready again, and depends on this step.
",
    ),
    (
        b"meet",
        "\
meet: took the value of a sender that waits

Example: '<-c' where a goroutine waits at 'c <- 7'.

The sender is ready again, and depends on this step.
",
    ),
    (
        b"buffer",
        "\
buffer: put a value into the buffer

Example: 'c <- 7' where the buffer has room.

Whoever takes the value depends on this step.
",
    ),
    (
        b"take",
        "\
take: took a value out of the buffer

Example: '<-c' where the buffer has a value.

It depends on the step that put the value there.
",
    ),
    (
        b"closed",
        "\
closed: received the zero value of a closed, empty channel

Example: 'v, ok := <-c' after 'close(c)', where 'ok' becomes 'false'.

It depends on the 'close'.
",
    ),
    (
        b"send-wait",
        "\
send-wait: waits to send

Example: 'c <- 7' where nobody receives and the buffer is full.

The goroutine is ready again when somebody receives from the channel, or
closes it.
",
    ),
    (
        b"recv-wait",
        "\
recv-wait: waits to receive

Example: '<-c' where nobody sends and the buffer is empty.

The goroutine is ready again when somebody sends to the channel, or closes it.
",
    ),
    (
        b"pick",
        "\
pick: did the communication of case N of a select

Example: 'step g0 2' gives 'ok g0#7 pick 2' where case 2 can proceed.

To choose another case, take the step back and step again with the case's
number.
",
    ),
    (
        b"default",
        "\
default: took the default case of a select

Example: 'select' with 'default' where no other case can proceed.

It depends on the channels that it found not ready.
",
    ),
    (
        b"select-wait",
        "\
select-wait: waits on all cases of a select

Example: 'select' without 'default' where no case can proceed.

The goroutine is ready again when one of the cases can proceed.
",
    ),
    (
        b"close",
        "\
close: closed a channel

Example: 'close(c)'.

All that wait on the channel are ready again at their operations.
",
    ),
    (
        b"fault",
        "\
fault: stopped the program: F is 'DivideByZero', 'NegativeShift', 'SendOnClosed', 'CloseOfClosed', 'CloseOfNil', 'BadSize', 'CallDepth', 'NameDepth' or 'NameCount'

Example: 'ok g0#4 fault SendOnClosed'.

Nothing steps any more (N1). 'undo' takes the fault back, 'causes' shows what
led to it, and 'rewind --explain F' tells of each fault.
",
    ),
];

#[tactic(auto, unfolding(crate::specs::Codes::kinds))]
pub(crate) fn kinds(code: &[u8]) -> Option<&'static str>
    ensures told { is_some result ≡ is_among names code.now }
    ensures page { IfSome result (λ page. IsOn code.now page.now) }
{
    page_in(&PAGES, code)
}
