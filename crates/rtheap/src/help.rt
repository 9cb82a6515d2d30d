//! What the program prints about itself.

pub const HELP: &str = "\
usage: rtheap run < JOB              runs a job on real threads, and prints what each command
                                     answered, thread by thread
       rtheap replay robin T < JOB   runs it in at most T turns, each thread in turn, and prints
                                     what was answered in the order of the commands
       rtheap replay serial T < JOB  the same, one thread after the other
       rtheap replay KEY T < JOB     the same, each turn drawn by a generator with this key
       rtheap plan < JOB             prints the rate of the job's heap
       rtheap make KEY LINES         prints a job of four threads with LINES commands each
       rtheap trial KEY LINES        runs that job, and prints the totals

T is at most 1,000,000,000, LINES at most 131,072, and a KEY a number of at most 19 digits. Jobs,
replies and refusals are described in docs/FORMAT.md; examples/ has jobs to begin with.
";

pub const VERSION: &str = "rtheap 0.1.0-dev\n";
