//! What the program prints about itself.

pub const HELP: &str = "\
usage: mailrun < JOB   runs a job of one or two threads, sends each number that a thread says to a
                       second heap, which keeps the last eight of each thread, and prints these

Jobs and lines are described in docs/TOOLS.md, \"mailrun\"; examples/ has a job to begin with.
";

pub const VERSION: &str = "mailrun 0.1.0-dev\n";
