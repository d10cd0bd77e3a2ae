//! Pages on codes of refused sources. Made by words/make.py from the texts beside it: change those.
ghost use Rattle.std.specs.Prelude.{◌≡◌, IfSome, is_some};
ghost use Rattle.gr_console.specs.Explanations.{IsOn, is_among};
ghost use Rattle.gr_console.specs.Codes.{sources as names};

use crate::pages::page_in;

const PAGES: [(&[u8], &str); 23] = [
    (
        b"S1",
        "\
S1: a byte that is not in the language

Example: 'println(1 # 2)' is refused at 3:12, the byte (on line 3 of a file,
in the body of 'main', after a tab).

What to do: Take the byte out. Outside strings and comments a source is ASCII.
",
    ),
    (
        b"S2",
        "\
S2: a malformed number

Example: 'println(08)' is refused at 3:10, its first byte (on line 3 of a
file, in the body of 'main', after a tab).

What to do: Write digits of the base only: 0 to 7 after '0' or '0o', 0 and 1
after '0b', 0 to 9 and 'a' to 'f' after '0x', with '_' between two digits or
not.
",
    ),
    (
        b"S3",
        "\
S3: a number over 2^63

Example: 'println(9223372036854775809)' is refused at 3:10 (on line 3 of a
file, in the body of 'main', after a tab).

What to do: Write a smaller number. Each part of a constant lies in -2^63 to
2^63, and the whole has to fit 'int'.
",
    ),
    (
        b"S4",
        "\
S4: a malformed string: not closed on its line, or a bad escape

Example: 'println(\"one' is refused at 3:10, its quote (on line 3 of a file, in
the body of 'main', after a tab).

What to do: Close the string on its line. Its escapes are '\\\\', '\\\"' and '\\t'.
",
    ),
    (
        b"S5",
        "\
S5: a comment that is not closed

Example: 'println(1) /* two' is refused at 3:13, its '/*' (on line 3 of a
file, in the body of 'main', after a tab).

What to do: Close it with '*/'. A comment does not nest.
",
    ),
    (
        b"S6",
        "\
S6: a kind of literal that is left out: fractions, exponents, runes, raw strings, other escapes

Example: 'println(1.5)' is refused at 3:10 (on line 3 of a file, in the body
of 'main', after a tab).

What to do: Use whole numbers, and strings between double quotes with the
escapes '\\\\', '\\\"' and '\\t'.
",
    ),
    (
        b"S7",
        "\
S7: the text is too long

Example: a source of 1,048,577 bytes.

What to do: Shorten the source to 1,048,576 bytes.
",
    ),
    (
        b"S8",
        "\
S8: no memory for the tokens

What to do: Free memory, or allow the program more, and start again.
",
    ),
    (
        b"P1",
        "\
P1: a syntax error: the program cannot go on with this token

Example: 'println(1 2)' is refused at 3:12, the first token that does not fit
(on line 3 of a file, in the body of 'main', after a tab).

What to do: Look at the token there and the one before it: often an operator,
a comma, a bracket or a line break is missing.
",
    ),
    (
        b"P2",
        "\
P2: something of Go that is left out begins at this token: 'const defer fallthrough func goto import interface map switch type var', or one of '* & [ . ...'

Example: 'defer println(1)' is refused at 3:2 (on line 3 of a file, in the
body of 'main', after a tab).

What to do: Write it by what the language has: 'if' for 'switch', calls of
'println' without an import, a call at the end for 'defer'. docs/LANGUAGE.md
has what is left out.
",
    ),
    (
        b"P3",
        "\
P3: more than 200 levels

Example: 'println' of a number in 198 pairs of parentheses is refused where
the limit is met.

What to do: Take parentheses out, or give parts of the expression or statement
names or functions of their own.
",
    ),
    (
        b"P4",
        "\
P4: no memory for the tree

What to do: Free memory, or allow the program more, and start again.
",
    ),
    (
        b"C1",
        "\
C1: a name that is not declared; '_' as a value

Example: 'println(x)' is refused at 3:2 (on line 3 of a file, in the body of
'main', after a tab).

What to do: Declare it before its use, with ':=' or 'var', or correct its
spelling. Only the built-in functions need no declaration.
",
    ),
    (
        b"C2",
        "\
C2: a name or label declared twice, or one that may not be declared; two 'default' cases

Example: 'a, a := 1, 2' is refused at 3:2 (on line 3 of a file, in the body of
'main', after a tab).

What to do: Choose another name. The names 'int bool true false nil len cap
make close println' and a function 'init' cannot be declared.
",
    ),
    (
        b"C3",
        "\
C3: a value of the wrong type, or something of the wrong form

Example: 'println(1 + true)' is refused at 3:2 (on line 3 of a file, in the
body of 'main', after a tab).

What to do: Look at the types on both sides. There are no conversions, and
'nil' is a value of channels alone.
",
    ),
    (
        b"C4",
        "\
C4: the wrong number of values, arguments or results

Example: 'a, b := 1' is refused at 3:2 (on line 3 of a file, in the body of
'main', after a tab).

What to do: Count both sides: names and values, parameters and arguments, the
result and what 'return' gives.
",
    ),
    (
        b"C5",
        "\
C5: a channel of the wrong direction

Example: 'var c <-chan int; c <- 1' is refused at 3:20 (on line 3 of a file,
in the body of 'main', after a tab).

What to do: Use a 'chan T', or one whose arrow allows it: '<-chan T' only
receives, 'chan<- T' only sends and closes.
",
    ),
    (
        b"C6",
        "\
C6: a function with a result that can reach its end without a 'return'

Example: line 2 'func f() int { println(1) }' is refused at 2:27, the closing
brace.

What to do: End the function with a 'return', an 'if' whose branches all
return, a 'for' without condition and 'break', or a 'select' that does not go
on.
",
    ),
    (
        b"C7",
        "\
C7: a constant out of range, a divisor 0, a negative shift count or size

Example: 'println(1 / 0)' is refused at 3:2 (on line 3 of a file, in the body
of 'main', after a tab).

What to do: Choose numbers that fit 'int'. To see it happen as a fault
instead, put the number into a variable.
",
    ),
    (
        b"C8",
        "\
C8: a 'break', 'continue' or label out of place, or a label that is not used

Example: 'break' is refused at 3:2 (on line 3 of a file, in the body of
'main', after a tab).

What to do: Put it into the loop or 'select' that it means, name a label
around it, and take out a label that nothing names.
",
    ),
    (
        b"C9",
        "\
C9: the package is not 'main', or there is no 'func main()'

Example: 'package other' as line 1 is refused at 1:1, at 'package' or the
heading of 'main'.

What to do: Begin the file with 'package main', and give it a 'func main()'
without parameters and result.
",
    ),
    (
        b"C10",
        "\
C10: a ':=' that declares nothing new

Example: 'a := 1; a := 2' is refused at 3:10 (on line 3 of a file, in the body
of 'main', after a tab).

What to do: Write '=' in place of ':=', or a new name on the left.
",
    ),
    (
        b"C11",
        "\
C11: no memory for the program

What to do: Free memory, or allow the program more, and start again.
",
    ),
];

#[tactic(auto, unfolding(crate::specs::Codes::sources))]
pub(crate) fn sources(code: &[u8]) -> Option<&'static str>
    ensures told { is_some result ≡ is_among names code.now }
    ensures page { IfSome result (λ page. IsOn code.now page.now) }
{
    page_in(&PAGES, code)
}
