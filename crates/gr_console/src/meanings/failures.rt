//! Pages on failures of the program itself. Made by words/make.py from the texts beside it: change those.
ghost use Rattle.std.specs.Prelude.{◌≡◌, IfSome, is_some};
ghost use Rattle.gr_console.specs.Explanations.{IsOn, is_among};
ghost use Rattle.gr_console.specs.Codes.{failures as names};

use crate::pages::page_in;

const PAGES: [(&[u8], &str); 4] = [
    (
        b"read",
        "\
read: reading the commands failed

Example: standard input is a folder.

What to do: The session stands after the last whole line. Look at where
standard input comes from.
",
    ),
    (
        b"write",
        "\
write: writing a reply failed

Example: standard output is a full disk.

What to do: The command was done, and a beginning of its reply may have gone
out. Look at where standard output goes.
",
    ),
    (
        b"threads",
        "\
threads: a thread for a worker could not be started

Example: 'rewind --workers 64 FILE' where the system allows few threads.

What to do: No command was read. Ask for fewer workers, or allow the program
more threads, and start again.
",
    ),
    (
        b"memory",
        "\
memory: there is no memory

Example: 'run 100' gives 'ok 40 memory', or the program ends with 'rewind:
memory'.

What to do: In a run the steps so far stand: free memory and go on. Else free
memory, or allow the program more, and start again.
",
    ),
];

#[tactic(auto, unfolding(crate::specs::Codes::failures))]
pub(crate) fn failures(code: &[u8]) -> Option<&'static str>
    ensures told { is_some result ≡ is_among names code.now }
    ensures page { IfSome result (λ page. IsOn code.now page.now) }
{
    page_in(&PAGES, code)
}
