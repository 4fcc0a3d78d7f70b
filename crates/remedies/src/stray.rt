//! What to write in place of a byte with which no token begins.
ghost use Rattle.std.specs.Prelude.{◌≡◌};
ghost use Rattle.remedies.specs.Strays.{of_byte};

/// What is said of a byte with which no token begins, as one line without its line feed; code is between two marks (96).
pub fn of_byte(byte: u8) -> &'static str
    ensures { result.now ≡ of_byte byte }
{
    match byte {
        33 => BANG,
        35 => NUMBER_SIGN,
        36 => DOLLAR,
        37 => PERCENT,
        38 => AMPERSAND,
        42 => ASTERISKS,
        60 => BRACKETS,
        63 => QUESTION,
        64 => AT_SIGN,
        91 => OPENING_BRACKET,
        92 => BACKSLASH,
        93 => CLOSING_BRACKET,
        94 => CIRCUMFLEX,
        123 => OPENING_BRACE,
        125 => CLOSING_BRACE,
        126 => TILDE,
        239 => BYTE_ORDER_MARK,
        _ => OUTSIDE_ASCII,
    }
}

const BANG: &str = "\
`!` begins nothing: write `/=` for `!=`, and `not` before an operand.";

const NUMBER_SIGN: &str = "\
`#` begins nothing: numbers are decimal.";

const DOLLAR: &str = "\
`$` begins nothing: names have letters, digits and underlines.";

const PERCENT: &str = "\
`%` begins nothing: write `mod` or `rem`.";

const AMPERSAND: &str = "\
`&` begins nothing: write `and then` for `&&`. Texts are not joined: a label of Put is one, \
`\"pump_1\"`.";

const ASTERISKS: &str = "\
`**` is left out: write the product, `2 * 2 * 2`.";

const BRACKETS: &str = "\
`<<` and `<>` are left out: there are no goto and no boxes, and an array type has two bounds, \
`array (1 .. 4) of Integer`.";

const QUESTION: &str = "\
`?` begins nothing: write `(if A > B then A else B)` for a choice of two values.";

const AT_SIGN: &str = "\
`@` begins nothing: write the name of the target again, `N := N + 1;`.";

const OPENING_BRACKET: &str = "\
`[` begins nothing: an index stands in parentheses, `V (I)`.";

const BACKSLASH: &str = "\
`\\` begins nothing: write `/` to divide.";

const CLOSING_BRACKET: &str = "\
`]` begins nothing: an index stands in parentheses, `V (I)`.";

const CIRCUMFLEX: &str = "\
`^` begins nothing: write the product, `2 * 2 * 2`, or `xor` of Booleans.";

const OPENING_BRACE: &str = "\
`{` begins nothing: write `then`, `loop` or `begin`, and `end`.";

const CLOSING_BRACE: &str = "\
`}` begins nothing: write `end if;`, `end loop;` or `end` and the name.";

const TILDE: &str = "\
`~` begins nothing: write `not`.";

const BYTE_ORDER_MARK: &str = "\
The bytes EF BB BF are a byte order mark, where they begin a text: save it without one. Outside \
comments a text is ASCII.";

const OUTSIDE_ASCII: &str = "\
Outside comments a text is ASCII: letters, digits, and the delimiters of RM 2.2.";
