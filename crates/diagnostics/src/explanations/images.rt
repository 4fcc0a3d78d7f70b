//! What is wrong with an image.
ghost use Rattle.std.specs.Prelude.{◌≡◌, option_map};
ghost use Rattle.diagnostics.specs.explanations.Explained.{of_images};

pub(crate) fn explanation(number: u64) -> Option<&'static str>
    ensures { option_map (λ text. text.now) result ≡ of_images number }
{
    match number {
        40 => Some(WRONG_HEADER),
        41 => Some(SECTION_CUT_SHORT),
        42 => Some(STRAY_BYTES),
        43 => Some(OPERAND_OUT_OF_RANGE),
        44 => Some(JUMP_OUTSIDE),
        45 => Some(NAMED_THING_MISSING),
        46 => Some(DEPTHS_DISAGREE),
        47 => Some(TABLES_DISAGREE),
        _ => None,
    }
}

const WRONG_HEADER: &str = "\
40 No image of this version

An image begins with the magic `ARVN` and version 1, or 2 where it has handlers of interrupts.

    from byte 0: 00

image fault 40 at byte 0
";

const SECTION_CUT_SHORT: &str = "\
41 The image is cut short

No section ends early. The byte is how many there are.

    from byte 142: nothing

image fault 41 at byte 142
";

const STRAY_BYTES: &str = "\
42 Bytes after the image

No byte follows the last section. The byte is the first of them.

    from byte 143: 00

image fault 42 at byte 143
";

const OPERAND_OUT_OF_RANGE: &str = "\
43 An unknown operation or operand

Opcodes are known, operands that aren't named are 0, and regions and counts of words are in range. \
Here an opcode is 2f.

    from byte 104: 2f

image fault 43 at byte 104
";

const JUMP_OUTSIDE: &str = "\
44 Code leaves its subprogram

Jumps, the ends of subprograms and handlers stay in their subprogram. Here the last instruction is \
BLK, and nothing follows it.

    from byte 130: 2a

image fault 44 at byte 130
";

const NAMED_THING_MISSING: &str = "\
45 Something that isn't there

What an instruction names is there, and may be used so. Here label 1 is written, and label 0 is \
the only one.

    from byte 120: 00 01

image fault 45 at byte 120
";

const DEPTHS_DISAGREE: &str = "\
46 Depths that don't agree

The depths of operand stacks agree along all ways through the code. Here the first instruction has \
one word on it already.

    from byte 105: 00 01

image fault 46 at byte 105
";

const TABLES_DISAGREE: &str = "\
47 Tables that don't agree

The tables agree with each other, and pass no limit. Here a task has priority 31, and the highest \
is 30.

    from byte 101: 1f

image fault 47 at byte 101
";
