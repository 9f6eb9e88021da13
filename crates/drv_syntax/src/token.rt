//! The parts of a spec text, as a flat list.

/// How the name of a temporary file is chosen.
#[derive(Clone, Copy, Debug)]
pub enum TempKind {
    /// `%g`: the one name for its suffix in a job.
    Shared,
    /// `%u`: a new name.
    New,
    /// `%U`: the last name of `%u` or `%U` with its suffix.
    Last,
    /// `%|`: as `%g`, but `-` where commands are piped.
    PipedOut,
    /// `%m`: as `%g`, but nothing where commands are piped.
    PipedIn,
}

/// What a test asks.
#[derive(Clone, Copy, Debug)]
pub enum TestKind {
    /// A switch: `PATTERN`.
    Switch,
    /// The suffix of the input: `.WORD`.
    Suffix,
    /// The language of the input: `,WORD`.
    Language,
    /// The result of a function: `%:NAME(ARGUMENTS)`.
    Result,
}

/// A directive that is whole with its byte: nothing is inside it.
#[derive(Clone, Copy, Debug)]
pub enum Leaf {
    /// `%%`.
    Percent,
    /// `%i`.
    InputName,
    /// `%b`.
    BaseStem,
    /// `%B`.
    BaseName,
    /// `%d`.
    Removed,
    /// `%w`.
    Output,
    /// `%V`.
    NoOutput,
    /// `%o`.
    Outputs,
    /// `%O`.
    ObjectSuffix,
    /// `%s`.
    FoundFile,
    /// `%T`.
    FoundScript,
    /// `%X`.
    Accumulated,
    /// `%Y`.
    AssemblerOptions,
    /// `%Z`.
    PreprocessorOptions,
    /// `%D`.
    Directories,
}

/// What a part of a spec text is.
#[derive(Clone, Copy, Debug)]
pub enum TokenKind {
    /// A plain byte.
    Plain,
    /// A backslash and the byte that it makes plain.
    Escape,
    /// A space or a tab, or a newline in arguments.
    Blank,
    /// The end of a command.
    Newline,
    /// `|`.
    Pipe,
    /// A directive that is whole with its byte.
    Leaf(Leaf),
    /// `%g`, `%u`, `%U`, `%|` or `%m` and a suffix.
    TempName(TempKind),
    /// `%x{OPTION}`.
    Accumulate,
    /// `%eTEXT`.
    UserError,
    /// `%nTEXT`.
    Notice,
    /// `%(NAME)`.
    NamedText,
    /// `%a`, `%A`, `%l`, `%L`, `%G`, `%S`, `%E`, `%C`, `%1` or `%2`.
    BuiltinText,
    /// `%<PATTERN` or `%>PATTERN`.
    Hide,
    /// `%:NAME(ARGUMENTS)`.
    Function,
    /// `%{PATTERN}` or `%{PATTERN&PATTERN..}`.
    Emit,
    /// `%{TESTS:X;..}`.
    Choose,
    /// `%*`.
    Star,
    /// `%W{..}`.
    FailureFile,
    /// `%@{..}`.
    ArgumentsFile,
    /// One of the alternatives of braces.
    Alternative,
    /// One of the tests of an alternative.
    Test,
    /// One of the patterns of braces without a colon.
    Pattern,
}

/// A part of a spec text.
#[derive(Clone, Copy, Debug)]
pub struct Token {
    /// What it is.
    pub kind: TokenKind,
    /// Where it begins, in bytes from the start of the text.
    pub start: u32,
    /// Where it ends: the place of the first byte after it.
    pub end: u32,
    /// The place in the list of the first token that isn't inside this one.
    pub next: usize,
}
