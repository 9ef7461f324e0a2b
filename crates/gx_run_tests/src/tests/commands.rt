//! Words that are a command, and words that are none.

use gx_rows::Cut;
use gx_run_args::run_args;
use std::alloc::{AllocError, Global};

// The words of a line, owned.
fn words_of_line(alloc: Global, line: &str) -> Result<Vec<String>, AllocError> {
    let mut words = Vec::new(alloc);
    for word in line.split_ascii_whitespace() {
        words.push(String::from_str(alloc, word)?)?;
    }
    Ok(words)
}

// Whether these words run `s` with such values, or are no command if there are none.
fn runs_with(words: &[String], values: Option<(u32, Cut, u32)>) -> bool {
    match run_args(words) {
        Some(run) => { run.script == "s" && values == Some((run.parts, run.cut, run.workers)) }
        None => values.is_none(),
    }
}

#[test]
fn reads_commands(rt: HostRuntime) -> Result<(), AllocError> {
    for (line, values) in [
        ("", None),
        ("run", None),
        ("run s", Some((4, Cut::TwoD, 4))),
        ("run s --parts 1 --parts 2", None),
        ("run s --cut 3d", None),
        ("run s --parts 64", Some((64, Cut::TwoD, 4))),
        ("run s --parts 65", None),
        ("run s --parts 0", None),
        ("run --workers 2 s --cut rows", Some((4, Cut::Rows, 2))),
        ("run s t", None),
        ("run s --parts", None),
        ("run -s", None),
        ("run s --parts 007", Some((7, Cut::TwoD, 4))),
        ("run s --parts +1", None),
        ("show s", None),
        // The most digits, and one more.
        (
            "run s --parts 00000000000000000064",
            Some((64, Cut::TwoD, 4)),
        ),
        ("run s --parts 000000000000000000064", None),
        // Each option, and the value of one that looks like an option.
        (
            "run --parts 2 --cut 1d --workers 3 s",
            Some((2, Cut::OneD, 3)),
        ),
        ("run s --cut --parts", None),
    ] {
        let words = words_of_line(rt.alloc(), line)?;
        assert!(rt; runs_with(words.as_slice(), values), "at {line}");
    }
    Ok(())
}
