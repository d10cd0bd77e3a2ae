//! What the program says in plain words. Made by words/make.py from the texts beside it: change those.

pub(crate) const VERSION: &str = "1.3.0-dev";

pub(crate) const ABOUT: &str = "\
Debugs a program in a small Go with goroutines and channels, one step at a
time, forward and back. A step goes back with all that depends on it, and with
nothing else.";

pub(crate) const USAGE: &str = "\
rewind [--workers <N>] <FILE>
       rewind --check <FILE>
       rewind --json <FILE>
       rewind --search <FILE> [--leaks] [--after <SCRIPT>] [--states <N>]
       rewind --blame <FILE> --after <SCRIPT> [--states <N>]
       rewind --explain <CODE>";

pub(crate) const HELP: &str = "\
Commands, one a line on standard input:
  step G                        take one step of a goroutine
  step G CASE                   .. of the case CASE of a select
  run N                         take up to N steps, round robin
  undo                          take the last step back
  back G#N                      take a step back with all that depends on it
  back go G                     .. the step that started a goroutine
  back send C K, back recv C K  .. the K-th send to a channel, or receive
  back var G X                  .. the step that gave a variable its value
  redo                          redo the steps that were taken back last
  order ID ..                   put the kept steps into another order
  deps ID, causes ID            show what depends on a step, or what it
                                depends on
  break LINE, clear LINE        set or remove a breakpoint for run
  free N                        grant the workers N steps
  show G                        show a goroutine: its state, line and
                                variables
  chan C                        show a channel: its items and who waits
  text G                        show what a goroutine printed
  console                       show all that was printed
  log                           show the kept steps
  quit                          end the session

'g0' is the goroutine of 'main', 'g0.2' the second that it started, 'g0/c1'
the first channel that it made, 'g0#4' its fourth step. G is a goroutine, C a
channel, ID or G#N a step, N and K numbers, X a variable.

Exit status:
  0  'quit', or the end of the commands; a source that '--check' accepts; no
     schedule ends badly for '--search'; the answer of '--blame'; '--explain',
     '--help', '--version'
  1  FILE cannot be read, or is refused
  2  the command line is refused. It has none or several of FILE, '--check',
     '--explain', '--search' and '--blame'. Its workers are not 0 to 64, or
     stand without FILE. Its CODE is none, an option is unknown or stands
     where it has no use, or an argument is not UTF-8. Or a command of SCRIPT
     is refused
  3  reading, writing or starting threads failed, or there is no memory
     (before the end of the check that is S8, P4 or C11, with status 1)
  4  '--search' found a schedule that ends badly
  5  '--search' or '--blame' met a limit

Example:
  $ printf 'step g0\\nstep g0\\nlog\\nundo\\nquit\\n' | rewind first.go
  ok g0#1 pure
  ok g0#2 pure
  | g0#1 pure
  | g0#2 pure
  ok 2
  ok g0#2
  ok

'rewind --explain CODE' tells of each code, and docs/COMMANDS.md of each
command and reply.";

pub(crate) const NOTHING_ASKED: &str = "\
one of FILE, '--check <FILE>', '--json <FILE>', '--explain <CODE>', '--search <FILE>' and '--blame <FILE>' is required";

pub(crate) const TOO_MUCH_ASKED: &str = "\
FILE, '--check <FILE>', '--json <FILE>', '--explain <CODE>', '--search <FILE>' and '--blame <FILE>' exclude each other. '--workers <N>' goes with FILE alone. '--after <SCRIPT>' and '--states <N>' go with '--search' and '--blame', '--leaks' goes with '--search' alone, and '--blame' needs '--after'";

pub(crate) const FILE_HELP: &str = "The source to debug, by the commands on standard input";

pub(crate) const WORKERS_HELP: &str = "\
The number of workers (0 to 64), which take steps on their own, as many in all as 'free' grants";

pub(crate) const CHECK_HELP: &str = "\
Only checks the source: prints nothing if it is accepted, else the line of its refusal";

pub(crate) const JSON_HELP: &str = "\
Debugs the source for a client: commands and queries in, a line of JSON for each out";

pub(crate) const SEARCH_HELP: &str = "\
Searches all schedules for one that ends badly, and writes its commands";

pub(crate) const BLAME_HELP: &str = "\
Finds the first step of SCRIPT's run after which no schedule ends well any more";

pub(crate) const LEAKS_HELP: &str = "\
With '--search', counts as a bad end that 'main' has returned and the goroutines that are left wait for ever";

pub(crate) const AFTER_HELP: &str = "\
The commands that are carried out before the search; '-' is standard input";

pub(crate) const STATES_HELP: &str = "\
The greatest number of states that a search keeps (1 to 1000000000; 1000000 without it)";

pub(crate) const EXPLAIN_HELP: &str = "\
Says what a code, a fault, a kind of step or an end of a run means, and what to do";

pub(crate) const PROMPT: &str = "(rewind) ";

pub(crate) const NO_COMMAND: &str = "\
this line is not a command (rewind --help lists the commands)
";

pub(crate) const BANNER: &str = "\
Rewind 1.3.0-dev: a command a line, such as 'run 100', 'show g0', 'undo'; 'quit' ends the session, 'rewind --help' lists them all.
(rewind) ";

/// What is said of arguments that are not UTF-8.
pub const NOT_TEXT: &str = "\
error: invalid UTF-8 was detected in one or more arguments

Usage: rewind [--workers <N>] <FILE>
       rewind --check <FILE>
       rewind --json <FILE>
       rewind --search <FILE> [--leaks] [--after <SCRIPT>] [--states <N>]
       rewind --blame <FILE> --after <SCRIPT> [--states <N>]
       rewind --explain <CODE>

For more information, try '--help'.
";

/// What is said of a code that is none.
pub const STRANGE_CODE: &str = "\
error: '--explain' knows no such code

It knows these:
  Codes of refused sources: S1, S2, S3, S4, S5, S6, S7, S8, P1, P2, P3, P4,
    C1, C2, C3, C4, C5, C6, C7, C8, C9, C10, C11
  Codes of refused commands: N1, N2, N3, N4, N5, N6, B1, B2, B3, B4, B5, B6,
    Q1, Q2
  Codes that only callers of the library get: E1, E2
  Kinds of steps: pure, call, return, exit, go, make, length, hand, meet,
    buffer, take, closed, send-wait, recv-wait, pick, default, select-wait,
    close, fault
  Ends of a run: ended, count, stuck, full, break
  Faults of a program: DivideByZero, NegativeShift, SendOnClosed,
    CloseOfClosed, CloseOfNil, BadSize, CallDepth, NameDepth, NameCount
  Failures of the program itself: read, write, threads, memory

For more information, try '--help'.
";

/// What is said of a file that is not there.
pub const MISSING: &str = "\
there is no such file
";

/// What is said of a file that is a folder.
pub const FOLDER: &str = "\
it is a folder; FILE is the source of a program, such as 'main.go'
";

/// What is said of a file that the user may not read.
pub const FORBIDDEN: &str = "\
its permissions do not let you read it
";

/// What is said of a file that cannot be read for another reason.
pub const UNREAD: &str = "\
reading it failed
";

/// What is said of a file that is empty.
pub const EMPTY: &str = "\
the file is empty; a program begins with 'package main'
";

/// What is said of a file that is not UTF-8.
pub const NOT_UTF_8: &str = "\
the file is not UTF-8 text; check that it is a Go source
";
