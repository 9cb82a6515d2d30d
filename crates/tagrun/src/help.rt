//! What the program prints about itself.

pub const HELP: &str = "\
usage: tagrun < SCRIPT   keeps a table of tags on a heap that the script's threads share, and prints
                         what each operation answered, thread by thread

Scripts are described in docs/TOOLS.md, \"tagrun\"; examples/ has one to begin with.
";

pub const VERSION: &str = "tagrun 0.1.0-dev\n";
