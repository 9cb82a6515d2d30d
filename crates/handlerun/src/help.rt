//! What the program prints about itself.

pub const HELP: &str = "\
usage: handlerun < SCRIPT   keeps handles in slots of a heap that the script's threads share, and
                            prints what each operation answered, thread by thread

Scripts are described in docs/TOOLS.md, \"handlerun\"; examples/ has one to begin with.
";

pub const VERSION: &str = "handlerun 0.1.0-dev\n";
