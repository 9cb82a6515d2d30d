//! The text of bars.

use std::test::Fail;
use timed_runs::Bar;

/// How many times a row has, and how many marks beside a fullest row of 200 times: 0.3 times as
/// many, rounded up.
const ROWS: [(usize, usize); 8] = [
    (0, 0),
    (1, 1),
    (3, 1),
    (4, 2),
    (100, 30),
    (101, 31),
    (199, 60),
    (200, 60),
];

#[test]
fn marks_are_in_proportion_and_rounded_up(rt: HostRuntime) -> Result<(), Fail> {
    for (count, marks) in ROWS {
        let bar = Bar {
            least: 512,
            count,
            most: 200,
        };
        let text = format!(in rt.alloc(); "{bar}")?;
        let mut expected = format!(in rt.alloc(); "             512 ns {count:>10} ")?;
        for _mark in 0..marks {
            expected.push_str("#")?;
        }
        expected.push_str("\n")?;
        assert_eq!(rt; text.as_str(), expected.as_str());
    }
    Ok(())
}
