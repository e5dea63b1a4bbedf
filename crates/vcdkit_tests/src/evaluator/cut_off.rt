// Each input is cut off after each byte.
use super::compare::{first_wrong, first_wrong_of_first, first_wrong_of_second};
use super::inputs::{
    ALIASES, EXTENDED, FAULTY, FINE, FULL, LATE, LONG_DIGITS, MARKED, MIXED, NESTED, SECTIONS, TWIN,
};
use vcd_evaluator::Command;

// Commands, and the input of each.
static ALONE: [(Command<'static>, &[u8]); 12] = [
    (Command::Check, FULL),
    (Command::List, NESTED),
    (Command::Pick(&["tb"]), LONG_DIGITS),
    // By the second name of a code.
    (Command::Pick(&["tb.u.b"]), ALIASES),
    // Of an event in a section.
    (Command::Pick(&["a", "e"]), MARKED),
    // To the time of a change, and to a time between changes.
    (
        Command::Cut {
            from: "10",
            to: "20",
        },
        MIXED,
    ),
    (
        Command::Cut {
            from: "10",
            to: "15",
        },
        MIXED,
    ),
    (
        Command::Sample {
            times: "0,1,2,3,4",
            names: &[],
        },
        EXTENDED,
    ),
    // Before a fault, and up to it.
    (
        Command::Sample {
            times: "1",
            names: &[],
        },
        FAULTY,
    ),
    (
        Command::Sample {
            times: "1,2",
            names: &[],
        },
        FAULTY,
    ),
    (Command::Edges(&[]), SECTIONS),
    (Command::Edges(&[]), MIXED),
];

#[test]
fn a_command_agrees_with_the_evaluator(rt: HostRuntime) {
    for (row, (command, text)) in ALONE.iter().enumerate() {
        let wrong = first_wrong(rt.alloc(), *command, text);
        assert!(rt; matches!(wrong, Ok(None)), "in row {row}");
    }
}

// The two inputs of a merge, of which one is cut off.
static MERGED: [(&[u8], &[u8]); 2] = [(TWIN, TWIN), (LATE, FINE)];

#[test]
fn a_merge_agrees_with_the_evaluator(rt: HostRuntime) {
    for (row, (first, second)) in MERGED.iter().enumerate() {
        let wrong = first_wrong_of_first(rt.alloc(), first, second);
        assert!(rt; matches!(wrong, Ok(None)), "of the first one, in row {row}");
        let wrong = first_wrong_of_second(rt.alloc(), first, second);
        assert!(rt;
            matches!(wrong, Ok(None)),
            "of the second one, in row {row}"
        );
    }
}
