//! Pages on codes of refused commands. Made by words/make.py from the texts beside it: change those.
ghost use Rattle.std.specs.Prelude.{◌≡◌, IfSome, is_some};
ghost use Rattle.gr_console.specs.Explanations.{IsOn, is_among};
ghost use Rattle.gr_console.specs.Codes.{replies as names};

use crate::pages::page_in;

const PAGES: [(&[u8], &str); 14] = [
    (
        b"N1",
        "\
N1: the program has ended, or a fault stopped it

Example: 'step g0' after 'ok g0#5 exit'.

What to do: Take a step back first: 'undo', or 'back' with the step to take
back.
",
    ),
    (
        b"N2",
        "\
N2: there is no such goroutine or channel

Example: 'text g0.1' where 'g0' started none.

What to do: 'log' shows the steps that are kept: a 'go' step of 'g0' starts
'g0.1', its second one 'g0.2', and its first 'make' makes 'g0/c1'.
",
    ),
    (
        b"N3",
        "\
N3: the goroutine waits

Example: 'step g0' where 'g0' receives from a channel that nobody sends to.

What to do: Step a goroutine that it waits for. 'show g0' has its line, 'chan'
shows who waits on a channel.
",
    ),
    (
        b"N4",
        "\
N4: the goroutine is done

Example: 'step g0.1' after its last 'return'.

What to do: Step another one, or take its last step back with 'back'.
",
    ),
    (
        b"N5",
        "\
N5: the choice is not possible here

Example: 'step g0 2' where case 2 is not ready, is the 'default', or the
statement is no select whose parts are done.

What to do: Leave the number out, or give that of a case that can proceed now.
Cases are counted from 1, with 'default'.
",
    ),
    (
        b"N6",
        "\
N6: there is no memory for the step

Example: 'step g0' where a growth is refused.

What to do: Free memory and ask again: nothing has changed.
",
    ),
    (
        b"B1",
        "\
B1: no step is kept

Example: 'undo' as the first command.

What to do: Take a step first.
",
    ),
    (
        b"B2",
        "\
B2: no such step is kept

Example: 'back g0#99'.

What to do: 'log' lists the steps that are kept; those that were taken back
are not among them.
",
    ),
    (
        b"B3",
        "\
B3: these are not the kept steps, each once

Example: 'order g0#1' where two steps are kept.

What to do: Name every step that 'log' shows, each once.
",
    ),
    (
        b"B4",
        "\
B4: the order breaks dependence: step Y would come before step X on which it depends

Example: 'order g0#2 g0#1' gives 'no B4 g0#1 g0#2'.

What to do: Put X before Y. 'causes Y' shows on which steps Y depends.
",
    ),
    (
        b"B5",
        "\
B5: there is nothing to redo

Example: 'redo' after a 'step'.

What to do: Only what the last 'undo' or 'back' took back can be redone, and
only until a step is taken or another order is made.
",
    ),
    (
        b"B6",
        "\
B6: memory ran out after these steps: they are taken back, or redone, and no others

Example: 'no B6 0' of 'undo'.

What to do: Free memory and ask again: the rest follows.
",
    ),
    (
        b"Q1",
        "\
Q1: the log has 1,000,000 steps, or the journal 2,000,000 entries

Example: 'step g0' after 1,000,000 steps.

What to do: Take steps back to make room in the log. A full journal takes no
further entry.
",
    ),
    (
        b"Q2",
        "\
Q2: there is no memory for the entry or for the answer to a query

Example: 'text g0' where a growth is refused.

What to do: Free memory and ask again: nothing has changed.
",
    ),
];

#[tactic(auto, unfolding(crate::specs::Codes::replies))]
pub(crate) fn replies(code: &[u8]) -> Option<&'static str>
    ensures told { is_some result ≡ is_among names code.now }
    ensures page { IfSome result (λ page. IsOn code.now page.now) }
{
    page_in(&PAGES, code)
}
