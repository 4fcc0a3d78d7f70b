//! What breaks the rules of spelling and of the grammar.
ghost use Rattle.std.specs.Prelude.{◌≡◌, option_map};
ghost use Rattle.diagnostics.specs.explanations.Explained.{of_spelling};

pub(crate) fn explanation(number: u64) -> Option<&'static str>
    ensures { option_map (λ text. text.now) result ≡ of_spelling number }
{
    match number {
        1 => Some(TEXT_TOO_LONG),
        2 => Some(STRAY_CHARACTER),
        3 => Some(WRONG_IDENTIFIER),
        4 => Some(WRONG_LITERAL),
        5 => Some(WRONG_LABEL),
        6 => Some(UNEXPECTED_TOKEN),
        7 => Some(TOO_MANY_LEVELS),
        _ => None,
    }
}

const TEXT_TOO_LONG: &str = "\
1 The text is too long

A text has at most 65,536 bytes.

    $ printf '%65537s' ''

fault 1 at 1:65537

The place is the first byte after them. Leave out comments, or make the program smaller; there \
are no further files that a program could be split into.
";

const STRAY_CHARACTER: &str = "\
2 No token begins here

Only the characters of tokens, white space and comments stand in a text (RM 2.1, 2.2); `**`, `<<`, \
`>>` and `<>` are no part of this language.

    package App is
       Size : constant Integer := 2 ** 3;
    end App;

fault 2 at 2:33

The place is where the token would begin. Write the product `2 * 2 * 2`.
";

const WRONG_IDENTIFIER: &str = "\
3 An identifier is misspelled

Letters, digits and single underlines between them, beginning with a letter, 40 characters at most \
(RM 2.3).

    pragma Profile (Ravenscar);
    procedure My__Main is begin null; end My__Main;

fault 3 at 2:11

The place is the beginning of the identifier. Write `My_Main`.
";

const WRONG_LITERAL: &str = "\
4 A number is misspelled

Digits with single underlines between them, up to 9223372036854775807, and no letter, `_` or `#` \
right after them (RM 2.4.1).

    package App is
       Mask : constant Integer := 16#FF#;
    end App;

fault 4 at 2:31

The place is the beginning of the number. Write `255`; there are no based literals and no \
exponents. Of a real number, `0.5`, the point is refused by 6.
";

const WRONG_LABEL: &str = "\
5 A label is misspelled

Between quotation marks on one line stand 1 to 40 printable characters without blanks and \
quotation marks.

    package body App is
       procedure Run is begin Put (\"a b\", 1); end Run;
    end App;

fault 5 at 2:32

The place is the opening quotation mark. Write `\"a_b\"`.
";

const UNEXPECTED_TOKEN: &str = "\
6 A token that cannot stand here

No text of the grammar (docs/LANGUAGE.md) has this token after those before it, or the text ends \
too early (RM 1.1.4).

    pragma Profile (Ravenscar);
    procedure Main is begin end Main;

fault 6 at 2:25

The place is the token, or the end of the last token where the text ends too early. Here a \
statement is missing: write `begin null; end Main;`.

`adarun explain 6 SRC` says what to write instead in the text SRC, where that is known, what is \
open where an `end` is wrong or missing, and what could stand at the place: each token that some \
text of the grammar has there, with at most 40 levels open at once. A reserved word that is meant \
as a name is reported too. `adarun simulate SRC` and `./run SRC` show the same. Of the text above:

hint: A statement is wanted here: write `null;` where there is nothing to do.

could stand here: an identifier, `null`
";

const TOO_MANY_LEVELS: &str = "\
7 Too many levels

At most 40 levels are open at once: of parentheses, those around arguments and formals among them, \
if expressions, `if` and `case` statements, loops and blocks. Bodies open none.

    pragma Profile (Ravenscar);
    package App is procedure Run; end App;
    package body App is
       procedure Run is begin
          Put (\"deep\", (((((((((((((((((((((((((((((((((((((((((1))))))))))))))))))))))))))))))))))))))))));
       end Run;
    end App;
    with App;
    procedure Main is begin App.Run; end Main;

fault 7 at 5:59

The place is the token that opens one more level. Compute a part before, in an object of its own.
";
