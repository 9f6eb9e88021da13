//! What the program says of itself.

pub const HELP: &[u8] = b"\
Usage: gdrv-write-specs [--force] [-o X.specs] GCC [OPTION..]
       gdrv-write-specs --add X.specs OPTION..
       gdrv-write-specs --row X.specs OPTION..

Writes a spec file, by which gdrv-cc does the work of GCC, which is the name or
the path of a gcc. It asks this gcc for its spec texts, its folders, programs
and options, and compares plans with it: if one differs, it writes nothing and
shows the lines. --force writes the file all the same. Without -o the file is
TARGET.specs for TARGET-gcc, or host.specs for gcc, in the current folder.

Beside X.specs it writes X.gcc and X.options, which gdrv-cc reads too. X.gcc has
the words that GCC makes of options for its machine. The file must serve lines
with the OPTIONs, which are such options. --add asks for the words of these
OPTIONs of one line later, and --row prints them.
";
