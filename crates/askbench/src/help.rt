//! What the program prints about itself.

pub const HELP: &str = "\
usage: askbench REQUESTS TICKS   times REQUESTS requests of each kind, and TICKS ticks of a loop of
                                 1 kHz, on a heap of one thread
       askbench steps            prints the rate of that heap, and the most operations of each
                                 command
       askbench steps BLOCKS LIVE OBJECT SHARED   the same of a heap of these sizes
       askbench make KIND TIMES  makes so many requests of one kind; a line of steps has its name
       askbench day SAVES RENEWALS   keeps the last 1,000 readings of its input, each a line `sensor
                                 value`, on a heap, and answers each by a line; saves the heap each
                                 SAVES readings, and renews it each RENEWALS
       askbench shared TAIL WARM TIMES < JOB   does the job on a heap that its threads ask beside
                                 each other, then the last TAIL commands of each thread again and
                                 again: WARM times, and TIMES times that are timed
       askbench shared tags THREADS WARM TIMES   so many threads write and read the places of a
                                 table of tags in turn: WARM times, and TIMES times that are timed
       askbench examples         prints what the examples of docs/CONTROL.md give

The numbers are decimal. The program runs only once it is built (--build), since an unproved build
takes up to 280 times as long. Scripts of bench/ run it.
";

pub const VERSION: &str = "askbench 0.1.0-dev\n";
