//! What the program prints about itself.

pub const HELP: &str = "\
usage: livelimit < JOB             prints the live limit and the numbers of blocks that the job
                                   needs if its threads run one after the other
       livelimit < JOB_AND_ORDER   the same for the order of commands that follows the job

For a job of one thread `enough` is a live limit with which no allocation is answered `full`. For
several threads it is the most in this one order of their commands: another order may need more. The
job's own live limit and number of blocks are not used. docs/TOOLS.md, \"livelimit\".
";

pub const VERSION: &str = "livelimit 0.1.0-dev\n";
