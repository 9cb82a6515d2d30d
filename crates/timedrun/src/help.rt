//! What the program prints about itself.

pub const HELP: &str = "\
usage: timedrun < JOB         runs a job on real threads, as `rtheap run` does, and prints how long
                              its commands took: by kind and by blocks, of all threads and of each
       timedrun --csv < JOB   prints the rows of its tables as comma separated values

Times are what the clock read, in nanoseconds: measured, not proved. The clock of processor time is
read just before the other one, so `cpu ns` may exceed the longest time by as long as a reading
takes. The last column is the most turns that the command of the longest time takes, by a theorem,
if no other thread has turns. The program runs only once it is built (--build), since an unproved
build takes up to 280 times as long.
Jobs and the report are described in docs/TOOLS.md, \"timedrun\".
";

pub const VERSION: &str = "timedrun 0.1.0-dev\n";
