//! What the program prints about itself.

pub const HELP: &str = "\
usage: plantrun TICKS PERIOD < READINGS   runs a plant of four threads on one table of tags for
                                          TICKS ticks, PERIOD microseconds from one to the next

TICKS is at most 1,048,576, PERIOD at most 1,000,000. Each line of the input is a reading: the tick
from which on it holds, a tag (0 to 3 a sensor, 4 the set point, 5 to 8 the acknowledgement of an
alarm), its value below 2^32, and 1 if it is good, else 0. The output is what the threads did, in
one order, then their figures. bench/plantrun makes readings, and judges the output line by line.
A refusal is the one line of the output: docs/TOOLS.md, \"plantrun\".
";

pub const VERSION: &str = "plantrun 0.1.0-dev\n";
