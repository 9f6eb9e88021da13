//! The option table: forms and effects of options.

ghost use Rattle.drv_args.specs.Lines.{is_switch_too};
ghost use Rattle.drv_args.specs.Code.Lookup.{is_in, part_of};
ghost use Rattle.drv_args.specs.Options.{option_table, row};
ghost use Rattle.std.specs.List.{filter};
ghost use Rattle.std.specs.Prelude.{◌≡◌, map};

use crate::rows::{CAPITALS, PASSING, SMALL_LETTERS};

/// How a word or two contain an option and its argument.
#[derive(Clone, Copy)]
pub enum Form {
    /// The word is the option.
    Exact,
    /// The word begins with the option, and its rest is the argument.
    Joined,
    /// The word is the option, and the next word is the argument.
    Separate,
    /// Either of `Joined` and `Separate`.
    Either,
}

/// A setting of the call.
#[derive(Clone, Copy)]
pub enum Setting {
    /// The plan is printed, and nothing is started.
    Dry,
    /// The plan is printed, and then run.
    Verbose,
    /// The specs are printed.
    Dump,
    /// The status is the greatest one of the commands.
    PassCodes,
    /// Commands are piped.
    Pipe,
}

impl Setting {
    /// Whether the option is also a switch.
    pub(crate) fn is_switch_too(self) -> bool
        ensures { result ≡ is_switch_too self }
    {
        matches!(self, Setting::Pipe | Setting::Verbose)
    }
}

/// A tool to which the line can pass words.
#[derive(Clone, Copy)]
pub enum Tool {
    /// `as`.
    Assembler,
    /// `cpp`.
    Preprocessor,
    /// `ld`.
    Linker,
}

/// The effect of an option.
#[derive(Clone, Copy)]
pub enum Effect {
    /// It turns a setting on.
    TurnsOn(Setting),
    /// It is a switch of this name.
    Switch,
    /// It is a switch with this argument.
    SwitchWithArgument,
    /// It is a switch with the argument in its name.
    JoinedSwitch,
    /// It names a spec file, and is also a switch.
    Specs,
    /// It is a prefix, and also a switch with the argument in its name.
    Prefix,
    /// It names the output, and is also a switch with this argument.
    Output,
    /// It is the language of the files that follow.
    Language,
    /// It is a library.
    Library,
    /// It gives pieces to a tool, separated by commas.
    Pieces(Tool),
    /// It gives one piece to a tool.
    Piece(Tool),
    /// It says how many sources may be under way at once.
    Jobs,
    /// It is an input file.
    File,
}

/// A row of the option table.
pub(crate) type Row = (&'static [u8], Form, Effect);

/// The rows that may fit a word with this second byte.
pub(crate) fn rows_after(letter: u8) -> &'static [Row]
    ensures { map (λ r. row r.0.now r.1 r.2) result.now
        ≡ filter (is_in (part_of letter)) option_table }
{
    match letter {
        b'W' => &PASSING,
        0..=b'Z' => &CAPITALS,
        _ => &SMALL_LETTERS,
    }
}
