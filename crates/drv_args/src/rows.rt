//! The rows of the option table, by their second byte. A row is an option, its form, and its effect
//! on the line. The first row that fits a word decides.

use crate::option_table::Effect::{
    Jobs, JoinedSwitch, Language, Library, Output, Piece, Pieces, Prefix, Specs, Switch,
    SwitchWithArgument, TurnsOn,
};
use crate::option_table::Form::{Either, Exact, Joined, Separate};
use crate::option_table::Setting::{Dry, Dump, PassCodes, Pipe, Verbose};
use crate::option_table::Tool::{Assembler, Linker, Preprocessor};
use crate::option_table::{Effect, Form};

/// Options that begin with `-W`.
#[rattlefmt::skip]
pub const PASSING: [(&[u8], Form, Effect); 3] = [
    (b"-Wl,", Joined, Pieces(Linker)),
    (b"-Wa,", Joined, Pieces(Assembler)),
    (b"-Wp,", Joined, Pieces(Preprocessor)),
];

/// Other options whose second byte is a capital letter or a sign.
#[rattlefmt::skip]
pub const CAPITALS: [(&[u8], Form, Effect); 22] = [
    (b"-###", Exact, TurnsOn(Dry)),
    (b"-S", Exact, Switch),
    (b"-E", Exact, Switch),
    (b"--specs=", Joined, Specs),
    (b"-B", Either, Prefix),
    (b"-L", Either, JoinedSwitch),
    (b"-D", Either, SwitchWithArgument),
    (b"-U", Either, SwitchWithArgument),
    (b"-I", Either, SwitchWithArgument),
    (b"-A", Separate, SwitchWithArgument),
    (b"-T", Separate, SwitchWithArgument),
    (b"-Tbss", Separate, SwitchWithArgument),
    (b"-Tdata", Separate, SwitchWithArgument),
    (b"-Ttext", Separate, SwitchWithArgument),
    (b"-MF", Separate, SwitchWithArgument),
    (b"-MT", Separate, SwitchWithArgument),
    (b"-MQ", Separate, SwitchWithArgument),
    (b"--param", Separate, SwitchWithArgument),
    (b"-Xassembler", Separate, Piece(Assembler)),
    (b"-Xpreprocessor", Separate, Piece(Preprocessor)),
    (b"-Xlinker", Separate, Piece(Linker)),
    (b"--jobs", Joined, Jobs),
];

/// Options whose second byte is a small letter.
#[rattlefmt::skip]
pub const SMALL_LETTERS: [(&[u8], Form, Effect); 22] = [
    (b"-dumpspecs", Exact, TurnsOn(Dump)),
    (b"-pass-exit-codes", Exact, TurnsOn(PassCodes)),
    (b"-pipe", Exact, TurnsOn(Pipe)),
    (b"-v", Exact, TurnsOn(Verbose)),
    (b"-c", Exact, Switch),
    (b"-specs=", Joined, Specs),
    (b"-x", Either, Language),
    (b"-o", Either, Output),
    (b"-l", Either, Library),
    (b"-e", Separate, SwitchWithArgument),
    (b"-u", Separate, SwitchWithArgument),
    (b"-z", Separate, SwitchWithArgument),
    (b"-include", Separate, SwitchWithArgument),
    (b"-imacros", Separate, SwitchWithArgument),
    (b"-idirafter", Separate, SwitchWithArgument),
    (b"-iprefix", Separate, SwitchWithArgument),
    (b"-iquote", Separate, SwitchWithArgument),
    (b"-isysroot", Separate, SwitchWithArgument),
    (b"-isystem", Separate, SwitchWithArgument),
    (b"-iwithprefix", Separate, SwitchWithArgument),
    (b"-iwithprefixbefore", Separate, SwitchWithArgument),
    (b"-aux-info", Separate, SwitchWithArgument),
];
