//! The manual of the program, and the number of its version.
#![tactic(auto)]

/// What `adarun version` writes.
pub const VERSION: &str = "adarun 1.0\n";

/// What `adarun manual` writes: the commands, what their words are, the formats in short, and the exit statuses.
pub const MANUAL: &str = "\
NAME

    adarun - compiles Ravenscar programs in a subset of Ada 2012 and runs them in virtual time

COMMANDS

    adarun simulate SRC [SCHED [LIMIT]] [--until TIME]
        compiles a source and runs it; what is wrong is reported with its line, its rule and a hint
    adarun go SRC SCHED LIMIT
        the same, and what is wrong is reported by its number and its place alone
    adarun check SRC
        reports every rule that a source breaks, with its line, its rule and a hint
    adarun format SRC
        writes a source in one layout; its line breaks and comments stay
    adarun lower FILE
        writes a text of whole Ada 2012 with fewer constructs, line for line, and reports what
        it has left out; whether the result can be run says adarun check
    adarun trace SRC SCHED LIMIT [--until TIME]
        reports the run row by row: who runs, waits, is preempted, enters and leaves objects,
        queues and is served, what is raised and where, and what is refused
    adarun trace --vcd [--time] SRC SCHED LIMIT [--until TIME]
        writes the run as a value change dump, for viewers of waveforms: over its steps, or with
        --time over virtual time
    adarun trace --chart SRC SCHED LIMIT [--until TIME]
        writes the run as a chart over virtual time: a row for each task and each object
    adarun trace --svg SRC SCHED LIMIT [--until TIME]
        writes the run as a picture that any browser opens, over virtual time and over steps
    adarun measure [--tsv] SRC SCHED LIMIT [--until TIME]
        writes what is measured of the run: jobs and steps of each task, preemptions, blocking,
        waits in queues, lateness, frames and words, calls of each object and by whom;
        as tables, or with tabs between fields
    adarun measure [--tsv] SRC CHOICES UNTIL LIMIT
        writes the greatest or the least of each of these over all schedules of a set, each run
        up to UNTIL, and which schedules give them
    adarun compile SRC IMG
        compiles a source to the file of an image
    adarun list IMG
        lists an image
    adarun run IMG SCHED LIMIT
        runs an image
    adarun search SRC CHOICES UNTIL LIMIT [unhandled | waits | line LABEL] [--part K/N]
        searches the schedules of a set for one under which an exception stops the run or it
        waits forever, or, as the word after LIMIT says, for one of these or a line with this
        label; with --part only those of the K-th of N parts, which together are the set;
        at a terminal it reports each second how far it is, not as search --quiet SRC ..
    adarun explain NUMBER [SRC]
        explains the fault of this number, and what is said of a source that has it
    adarun manual
        shows this text
    adarun version
        shows the number of this version

WORDS

    SRC     the file of a source, at most 65536 bytes: one package and a main procedure;
            - is standard input for simulate, check, format and search
    FILE    the file of a text of whole Ada 2012, at most 65536 bytes, or - for standard input
    IMG     the file of an image
    SCHED   the file of a schedule; /dev/null is the empty one, and so is none for simulate
    LIMIT   the most steps of the run, in decimal digits alone, without underlines or an
            exponent: 0 to 18446744073709551615; simulate takes 1000000 where it is left out
    CHOICES the file of a set of schedules
    UNTIL   the microsecond up to which is searched or measured: 0 to 9223372036854775807;
            the LIMIT of a search is the most steps at one time
    TIME    the microsecond up to which the run goes: 0 to 9223372036854775807; --until and
            its word come last
    NUMBER  the number of a fault

    A longer name that begins with a hyphen comes after the word --, as in
    adarun go -- -main.adb /dev/null 1000000. There are no options but --vcd, --time,
    --chart, --svg, --tsv, --part, --quiet and --until, which doesn't come after that word.

FORMATS

    A schedule has a line `TIME CHANNEL VALUE` for each change of an input: the microsecond, a
    channel from 1 to 8, and the value from then on, with single spaces, in the order of times.
        8000 1 72
    A set of schedules has such lines with alternatives; `-` is no change.
        0..40000/10000 1 20|50|60..64|-
    A search writes a schedule and a last line `found: ..`, or `none of N schedules, W worlds`.
    A run writes a line `TIME TASK LABEL VALUE` for each call of Put, with the virtual time in
    microseconds, and last how it came to its end: `ended at T`, `waits forever at T`,
    `unhandled NAME in TASK at T`, `step limit at T`, `time limit at T` or `image fault at T`.
        20000 WATCH alarm 91
    A place is LINE:COLUMN, both counted from 1, columns in bytes.

STATUSES

    0   the run ended; a source that is checked has no fault; a search found nothing; what was
        asked for is done
    1   wrong words, or a file that can't be read or written
    2   the source is refused
    3   an exception that nothing handles stopped the run
    4   the run waits forever
    5   the limit on steps was reached
    6   the image is refused, or its run was at fault
    7   the schedule or the set of schedules is refused
    8   there was not enough memory
    9   a search found the line
";
