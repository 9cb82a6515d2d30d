//! What the program prints about itself.

pub const HELP: &str = "\
usage: ordercheck < JOB_AND_ORDER   checks whether the order is that of a run of the job

The input is a job and, behind its line `end`, the lines of an order, as `rtheap replay` prints it:
docs/FORMAT.md, \"Replays and orders\".
";

pub const VERSION: &str = "ordercheck 0.1.0-dev\n";
