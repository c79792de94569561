// What is printed for the shipped settings file, for that file with one byte changed, and for staircases with a fault.
use report::answers::report_with_answers;
use report::report;
use std::process::Abort;
use std::test::Fail;

const SHIPPED: [u8; 114] = [
    3, 0, 0, 0, 2, 0, 0, 0, 5, 0, 0, 0, 3, 0, 0, 0, 10, 0, 0, 0, 4, 0, 0, 0, 8, 3, 0, 0, 0, 0, 0,
    0, 0, 0, 0, 0, 0, 0, 0, 0, 0, 20, 0, 0, 0, 0, 0, 0, 0, 20, 0, 0, 0, 0, 0, 0, 0, 0, 0, 0, 0, 0,
    0, 0, 0, 30, 0, 0, 0, 0, 0, 0, 0, 30, 0, 0, 0, 10, 0, 0, 0, 0, 0, 0, 0, 10, 0, 0, 0, 0, 0, 0,
    0, 0, 0, 0, 0, 0, 0, 2, 2, 0, 10, 0, 0, 0, 90, 2, 0, 0, 0, 0, 0, 0,
];

// One task with staircases: points 1 and 5 that repeat after 9 ticks, and no overload.
const STAIRS: [u8; 32] = [
    1, 0, 0, 0, 1, 0, 0, 0, 1, 0, 1, 0, 2, 0, 0, 0, 9, 0, 0, 0, 1, 0, 0, 0, 5, 0, 0, 0, 0, 0, 0, 0,
];

// Holds what is printed for a file, with the byte at `at` changed to `value`, to a line.
fn prints(
    rt: &(impl Abort + AllocGlobal),
    file: &[u8],
    at: usize,
    value: u8,
    line: &str,
) -> Result<(), Fail> {
    let mut file = file.to_vec(rt.alloc())?;
    assert!(rt; at < file.len());
    file[at] = value;
    let text = report(rt.alloc(), file.as_slice())?;
    assert_eq!(rt; text.as_str(), line);
    Ok(())
}

#[test]
fn one_byte_changed(rt: HostRuntime) -> Result<(), Fail> {
    for (at, value, line) in [
        (0, 3, "tasks 3\n"),
        (0, 0, "refused 12 section 1 entry 0 byte 0\n"),
        (0, 33, "refused 12 section 1 entry 0 byte 0\n"),
        (12, 0, "refused 13 section 1 entry 2 byte 9\n"),
        (25, 4, "refused 14 section 2 entry 0 byte 25\n"),
        (49, 21, "refused 15 section 2 entry 1 byte 26\n"),
        (98, 1, "refused 16 section 3 entry 0 byte 98\n"),
        (99, 17, "refused 19 section 4 entry 0 byte 99\n"),
        (99, 3, "refused 11 section 4 entry 3 byte 114\n"),
        (99, 1, "refused 20 section 5 entry 0 byte 107\n"),
    ] {
        prints(&rt, &SHIPPED, at, value, line)?;
    }
    Ok(())
}

#[test]
fn staircase_faults(rt: HostRuntime) -> Result<(), Fail> {
    for (at, value, line) in [
        (0, 1, "tasks 1\n"),
        (12, 65, "refused 17 section 3 entry 1 byte 11\n"),
        (12, 64, "refused 11 section 3 entry 1 byte 11\n"),
        (20, 2, "refused 18 section 3 entry 1 byte 11\n"),
        (24, 1, "refused 18 section 3 entry 1 byte 11\n"),
        (24, 10, "refused 18 section 3 entry 1 byte 11\n"),
        (30, 1, "refused 17 section 3 entry 2 byte 25\n"),
    ] {
        prints(&rt, &STAIRS, at, value, line)?;
    }
    Ok(())
}

#[test]
fn cut_short(rt: HostRuntime) -> Result<(), Fail> {
    assert_eq!(rt;
        report(rt.alloc(), &SHIPPED[0..0])?.as_str(),
        "refused 11 section 1 entry 0 byte 0\n"
    );
    assert_eq!(rt;
        report(rt.alloc(), &SHIPPED[0..1])?.as_str(),
        "refused 11 section 1 entry 1 byte 1\n"
    );
    Ok(())
}

#[test]
fn with_answers(rt: HostRuntime) -> Result<(), Fail> {
    assert_eq!(rt;
        report_with_answers(rt.alloc(), &SHIPPED)?.as_str(),
        "tasks 3\n2 10 90 misses 4\n2 0 0 refused 32\n"
    );
    Ok(())
}
