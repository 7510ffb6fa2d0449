// Month files and what they are answered with.
use monthfile::command::{Command, Weights, written};
use monthfile::fault::LineFault;
use monthfile::output::run;
use monthfile::read::read_line;
use monthfile::stop::Stop;
use spread::units::{Kwh, Metered};
use std::alloc::{AllocError, Global};
use std::error::Error;
use std::process::Abort;
use std::test::Fail;

const TOO_LARGE: &str =
    "1: refused 32 spread: the size of the total times the sum of the weights is over 9,000,000,000,000,000,000\n";

const NO_WEIGHT: &str = "1: refused 33 spread: the total is not 0 and the weights sum to 0\n";

const NO_KEY: &str =
    "1: refused 34 spread: over 745 places, a weight over 10,000,000,000, or a line with a gap over 8 or a reading over 2,000,000\n";

// A file's whole answer, and whether a line of it is no command.
fn answered<R: Abort + AllocGlobal>(
    rt: &R,
    file: &[u8],
    text: &str,
    mistaken: bool,
) -> Result<(), Fail> {
    let output = run(rt.alloc(), file)?;
    assert_eq!(rt; output.text.as_str(), text, "{file:?}");
    assert_eq!(rt; output.mistaken, mistaken, "{file:?}");
    Ok(())
}

// Files of one line, each with the same answer.
fn all_answered<R: Abort + AllocGlobal>(
    rt: &R,
    files: &[&str],
    text: &str,
    mistaken: bool,
) -> Result<(), Fail> {
    for file in files {
        answered(rt, file.as_bytes(), text, mistaken)?;
    }
    Ok(())
}

#[test]
fn figures(rt: HostRuntime) -> Result<(), Fail> {
    let file =
        "spread 100 flat 3\nspread -100 flat 3\nspread 7 list 0 5 0 5\nspread 0 list 0 0\nspread 75 line 4 10 20\n";
    let text = "1: ok 33 33 34\n2: ok -33 -33 -34\n3: ok 0 3 0 4\n4: ok 0 0\n5: ok 15 17 20 23\n";
    answered(&rt, file.as_bytes(), text, false)
}

#[test]
fn blank_lines_and_comments(rt: HostRuntime) -> Result<(), Fail> {
    all_answered(
        &rt,
        &["", "\n", "\n\n  \t\n# spread 1 flat 1\n", "#"],
        "",
        false,
    )?;
    answered(
        &rt,
        b"\n\tspread  -1\tflat 1#2\r\n\nspread 2 flat 1",
        "2: ok -1\n4: ok 2\n",
        false,
    )?;
    answered(
        &rt,
        b"# \xff\xfe\nspread 2 flat 1 # \xff",
        "2: ok 2\n",
        false,
    )
}

#[test]
fn the_run_goes_on(rt: HostRuntime) -> Result<(), Fail> {
    let file = "spread 1 flat 1\nspread\nspread 1 list 0\nspread 2 flat 1\n";
    let text =
        "1: ok 1\n2: error: too few words\n3: refused 33 spread: the total is not 0 and the weights sum to 0\n4: ok 2\n";
    answered(&rt, file.as_bytes(), text, true)
}

#[test]
fn lines_not_understood(rt: HostRuntime) -> Result<(), Fail> {
    answered(&rt, b"\xff\xfe\x00", "1: error: unknown command\n", true)?;
    all_answered(
        &rt,
        &["shred 1", "Spread 1 flat 1", "spread1 flat 1"],
        "1: error: unknown command\n",
        true,
    )?;
    all_answered(
        &rt,
        &["spread 1 round 1", "spread 1 Flat 1"],
        "1: error: unknown key\n",
        true,
    )?;
    all_answered(
        &rt,
        &["spread", "spread 1", "spread 1 flat", "spread 1 line 1 2"],
        "1: error: too few words\n",
        true,
    )?;
    all_answered(
        &rt,
        &["spread 1 flat 1 1", "spread 1 line 1 2 3 4"],
        "1: error: too many words\n",
        true,
    )
}

#[test]
fn words_that_are_no_number(rt: HostRuntime) -> Result<(), Fail> {
    let text = "1: error: not a number\n";
    all_answered(
        &rt,
        &[
            "spread one flat 1",
            "spread - flat 1",
            "spread --1 flat 1",
            "spread +1 flat 1",
        ],
        text,
        true,
    )?;
    all_answered(
        &rt,
        &[
            "spread 1.5 flat 1",
            "spread 1 flat -1",
            "spread 1 list 1 2 x",
            "spread 99999999999999999999x flat 1",
        ],
        text,
        true,
    )
}

#[test]
fn numbers_at_the_edges(rt: HostRuntime) -> Result<(), Fail> {
    let over = &[
        "spread 9223372036854775808 flat 1",
        "spread -9223372036854775809 flat 1",
        "spread 1 flat 18446744073709551616",
    ];
    all_answered(&rt, over, "1: error: a number that does not fit\n", true)?;
    answered(&rt, b"spread -0 flat 2", "1: ok 0 0\n", false)?;
    answered(
        &rt,
        b"spread 007 flat 00000000000000000000000002",
        "1: ok 3 4\n",
        false,
    )?;
    answered(
        &rt,
        b"spread 9000000000000000000 flat 1",
        "1: ok 9000000000000000000\n",
        false,
    )?;
    answered(
        &rt,
        b"spread -9000000000000000000 flat 1",
        "1: ok -9000000000000000000\n",
        false,
    )?;
    answered(&rt, b"spread 0 list", "1: ok\n", false)
}

#[test]
fn refusals(rt: HostRuntime) -> Result<(), Fail> {
    all_answered(
        &rt,
        &[
            "spread 9000000000000000001 flat 1",
            "spread 9223372036854775807 flat 1",
            "spread -9223372036854775808 flat 1",
        ],
        TOO_LARGE,
        false,
    )?;
    all_answered(
        &rt,
        &[
            "spread -9223372036854775808 flat 0",
            "spread 1 list",
            "spread 1 list 0 0",
            "spread 1 line 0 5 5",
        ],
        NO_WEIGHT,
        false,
    )?;
    all_answered(
        &rt,
        &[
            "spread 1 flat 746",
            "spread 1 flat 18446744073709551615",
            "spread 1 list 10000000001",
            "spread 1 line 9 1 1",
        ],
        NO_KEY,
        false,
    )
}

#[test]
fn long_lines(rt: HostRuntime) -> Result<(), Fail> {
    let heap = rt.alloc();
    let word = vec![in heap; b'x'; 100_000]?;
    answered(&rt, word.as_slice(), "1: error: unknown command\n", true)?;
    let blanks = vec![in heap; b' '; 100_000]?;
    answered(&rt, blanks.as_slice(), "", false)?;
    let noise = vec![in heap; 255; 100_000]?;
    answered(&rt, noise.as_slice(), "1: error: unknown command\n", true)
}

// What an error is written as.
fn error_text<E: Error>(heap: Global, error: &E) -> Result<String, AllocError> {
    format!(in heap; "{error}")
}

#[test]
fn stops(rt: HostRuntime) -> Result<(), Fail> {
    let heap = rt.alloc();
    match read_line(heap, b"spread 1 flat x") {
        Ok(_) => return Err(Fail::new("read")),
        Err(stop) => assert_eq!(rt; error_text(heap, &stop)?.as_str(), "not a number"),
    }
    let wanting: Stop<LineFault> = Stop::NoMemory(AllocError);
    assert_eq!(rt;
        error_text(heap, &wanting)?.as_str(),
        "memory allocation failed"
    );
    Ok(())
}

// The line of a command, and whether it is read again as one.
fn written_as<R: Abort + AllocGlobal>(
    rt: &R,
    total: Kwh,
    over: Weights,
    line: &str,
) -> Result<(), Fail> {
    let heap = rt.alloc();
    let text = written(heap, &Command::Spread { total, over })?;
    assert_eq!(rt; text.as_str(), line);
    match read_line(heap, text.as_bytes())? {
        Some(again) => {
            assert_eq!(rt; written(heap, &again)?.as_str(), line);
            Ok(())
        },
        None => Err(Fail::new("blank")),
    }
}

#[test]
fn written_commands(rt: HostRuntime) -> Result<(), Fail> {
    let heap = rt.alloc();
    written_as(
        &rt,
        Kwh(i64::MIN),
        Weights::Flat(u64::MAX),
        "spread -9223372036854775808 flat 18446744073709551615",
    )?;
    let list = [0, 5, u64::MAX].to_vec(heap)?;
    written_as(
        &rt,
        Kwh(0),
        Weights::List(list),
        "spread 0 list 0 5 18446744073709551615",
    )?;
    written_as(
        &rt,
        Kwh(i64::MAX),
        Weights::List(Vec::new(heap)),
        "spread 9223372036854775807 list",
    )?;
    let (before, after) = (Metered(10), Metered(20));
    written_as(
        &rt,
        Kwh(75),
        Weights::Line {
            gap: 4,
            before,
            after,
        },
        "spread 75 line 4 10 20",
    )
}
