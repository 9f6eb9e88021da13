//! The options that take an argument, and how a word begins.

// In clauses: `start_shown` is what definitions see of a start.
ghost use Rattle.drv_c99.specs.Code.Building.{start_shown};
ghost use Rattle.drv_c99.specs.Front.{name_of, option_start, options, start_before, start_after};
ghost use Rattle.drv_c99.specs.Front.{start_of, with_argument};
ghost use Rattle.drv_words.specs.Bytes.{hyphen};
ghost use Rattle.std.specs.Cmp.Lexicographic.{pointwise};
ghost use Rattle.std.specs.Map.{lookup};
ghost use Rattle.std.specs.Prelude.{◌≡◌, ◌∷◌, [], nat_eq};

/// An option that takes an argument (POSIX, c99, OPTIONS).
#[derive(Clone, Copy, Debug)]
pub(crate) enum Taking {
    /// `-D`: defines a macro.
    Define,
    /// `-U`: undefines a macro.
    Undefine,
    /// `-I`: a folder of header files.
    IncludeFolder,
    /// `-L`: a folder of libraries.
    LibraryFolder,
    /// `-o`: the output.
    Output,
    /// `-O`: the level of optimization.
    Level,
    /// `-l`: a library, which is an operand.
    Library,
}

/// The option's name.
pub(crate) fn name(option: Taking) -> &'static [u8]
    ensures { result.now ≡ name_of option }
{
    match option {
        Taking::Define => b"-D",
        Taking::Undefine => b"-U",
        Taking::IncludeFolder => b"-I",
        Taking::LibraryFolder => b"-L",
        Taking::Output => b"-o",
        Taking::Level => b"-O",
        Taking::Library => b"-l",
    }
}

/// The option with this letter.
fn option_of(letter: u8) -> Option<Taking>
    ensures { result ≡ lookup (pointwise nat_eq (hyphen ∷ letter ∷ [])) options }
{
    match letter {
        b'D' => Some(Taking::Define),
        b'U' => Some(Taking::Undefine),
        b'I' => Some(Taking::IncludeFolder),
        b'L' => Some(Taking::LibraryFolder),
        b'o' => Some(Taking::Output),
        b'O' => Some(Taking::Level),
        b'l' => Some(Taking::Library),
        _ => None,
    }
}

/// How a word begins.
#[derive(Clone, Copy)]
pub(crate) enum Start<'a> {
    /// It is an option without an argument.
    Flag,
    /// It is an operand, which gets this prefix.
    Operand { prefix: &'static [u8] },
    /// It is an option with its argument.
    Joined { option: Taking, argument: &'a [u8] },
    /// It is an option that needs the next word as its argument.
    Wants { option: Taking },
    /// It ends the options.
    Ends,
    /// It is none of these.
    Unknown,
}

/// An option with the text after its letter.
fn with_argument<'a>(option: Taking, rest: &'a [u8]) -> Start<'a>
    ensures { start_shown result ≡ with_argument option rest.now }
{
    if rest.is_empty() {
        Start::Wants { option }
    } else {
        Start::Joined {
            option,
            argument: rest,
        }
    }
}

/// How a word that begins with a hyphen and another byte begins, before the end of the options.
fn option_start<'a>(word: &[u8], letter: u8, rest: &'a [u8]) -> Start<'a>
    requires { word.now ≡ hyphen ∷ letter ∷ rest.now }
    ensures { start_shown result ≡ option_start letter rest.now }
{
    match word {
        b"--" => Start::Ends,
        b"-c" | b"-E" | b"-g" | b"-s" | b"-###" => Start::Flag,
        _ => match option_of(letter) {
            Some(option) => with_argument(option, rest),
            None => Start::Unknown,
        },
    }
}

/// How a word begins before the end of the options.
fn start_before<'a>(word: &'a [u8]) -> Start<'a>
    ensures { start_shown result ≡ start_before word.now }
{
    match word {
        [b'-', letter, rest @ ..] => option_start(word, *letter, rest),
        _ => Start::Operand { prefix: b"" },
    }
}

/// How a word begins after the end of the options.
fn start_after<'a>(word: &'a [u8]) -> Start<'a>
    ensures { start_shown result ≡ start_after word.now }
{
    match word {
        [b'-', b'l', rest @ ..] => with_argument(Taking::Library, rest),
        [b'-', ..] => Start::Operand { prefix: b"./" },
        _ => Start::Operand { prefix: b"" },
    }
}

/// The sides of the word that ends the options of a line.
#[derive(Clone, Copy)]
pub(crate) enum Side {
    /// Before that word.
    BeforeEnd,
    /// After it.
    AfterEnd,
}

/// How a word on this side begins.
pub(crate) fn start_of<'a>(side: Side, word: &'a [u8]) -> Start<'a>
    ensures { start_shown result ≡ start_of side word.now }
{
    match side {
        Side::BeforeEnd => start_before(word),
        Side::AfterEnd => start_after(word),
    }
}
