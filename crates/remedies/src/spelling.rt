//! What to write in place of a number or a label that is misspelled.
ghost use Rattle.std.specs.Prelude.{◌≡◌};
ghost use Rattle.remedies.specs.Misspelled.{after_digits, has_blank, is_closed, is_letter, is_of_number, of_label, of_number, of_number_byte};

fn is_of_number(byte: u8) -> bool
    ensures { result ≡ is_of_number byte }
{
    (48 <= byte && byte <= 57) || byte == 95
}

fn is_letter(byte: u8) -> bool
    ensures { result ≡ is_letter byte }
{
    (65 <= byte && byte <= 90) || (97 <= byte && byte <= 122)
}

// What follows the digits and underlines with which the text begins.
fn after_digits(text: &[u8]) -> &[u8]
    ensures { result.now ≡ after_digits text.now }
{
    let mut at = 0;
    while at < text.len() && is_of_number(text[at]) {
        at += 1;
    }
    &text[at..]
}

fn of_number_byte(byte: u8) -> &'static str
    ensures { result.now ≡ of_number_byte byte }
{
    if byte == 35 || byte == 120 || byte == 88 {
        BASED_NUMBER
    } else if byte == 101 || byte == 69 {
        EXPONENT
    } else if is_letter(byte) {
        LETTER_IN_NUMBER
    } else {
        PLAIN_NUMBER
    }
}

/// What is said of a text that begins with a number that is misspelled (RM 2.4.1), as one line without its line feed; code is between two marks (96).
pub fn of_number(text: &[u8]) -> &'static str
    ensures { result.now ≡ of_number text.now }
{
    match after_digits(text) {
        [byte, ..] => of_number_byte(*byte),
        [] => PLAIN_NUMBER,
    }
}

// Whether a quotation mark stands on the first line of the text.
fn is_closed(text: &[u8]) -> bool
    ensures { result ≡ is_closed text.now }
{
    for byte in text {
        if *byte == 34 {
            return true;
        }
        if *byte == 10 {
            return false;
        }
    }
    false
}

// Whether a blank stands before the first quotation mark of the text.
fn has_blank(text: &[u8]) -> bool
    ensures { result ≡ has_blank text.now }
{
    for byte in text {
        if *byte == 32 {
            return true;
        }
        if *byte == 34 {
            return false;
        }
    }
    false
}

/// What is said of a label that is misspelled (RM 2.6), of which this text is after the opening quotation mark: one line without its line feed; code
/// is between two marks (96).
pub fn of_label(text: &[u8]) -> &'static str
    ensures { result.now ≡ of_label text.now }
{
    if !is_closed(text) {
        OPEN_LABEL
    } else if has_blank(text) {
        BLANK_IN_LABEL
    } else {
        PLAIN_LABEL
    }
}

const BASED_NUMBER: &str = "\
Numbers are decimal: write `255` for `16#FF#` or `0xFF`.";

const EXPONENT: &str = "\
A number has no exponent: write `1_000` for `1E3`.";

const LETTER_IN_NUMBER: &str = "\
A name begins with a letter: write `Second` for `2nd`. A blank stands between a number and a word.";

const PLAIN_NUMBER: &str = "\
A number has digits with single underlines between them, as `1_000`, and is at most \
9223372036854775807.";

const OPEN_LABEL: &str = "\
A label ends on its line with a quotation mark: write `Put (\"level\", Level);`.";

const BLANK_IN_LABEL: &str = "\
A label has no blanks: write `\"pump_on\"`.";

const PLAIN_LABEL: &str = "\
A label has 1 to 40 printable characters: write `\"level\"`.";
