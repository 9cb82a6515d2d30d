//! What the program prints about itself.

pub const HELP: &str = "\
usage: historian < READINGS   keeps the last 40 readings on a heap, and prints after each the least,
                              the greatest and the mean of them, and how many are alarms

The first line has the low and the high limit, each other line one reading; all are below 2^32. A
refusal is the last line of the output: docs/TOOLS.md, \"historian\".
";

pub const VERSION: &str = "historian 0.1.0-dev\n";
