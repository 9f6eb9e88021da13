//! The directives of spec texts, by the byte after their `%`.

ghost use Rattle.drv_syntax.specs.Directives as directives;
ghost use Rattle.std.specs.Prelude.{◌≡◌};

use crate::descent::ListContext;
use crate::token::{Leaf, TempKind};

/// The named texts that one letter denotes.
#[derive(Clone, Copy)]
pub enum BuiltinName {
    /// `%a`.
    Assembler,
    /// `%A`.
    AssemblerFinal,
    /// `%l`.
    Linker,
    /// `%L`.
    Libraries,
    /// `%G`.
    Support,
    /// `%S`.
    StartFiles,
    /// `%E`.
    EndFiles,
    /// `%C`.
    Preprocessor,
    /// `%1`.
    Compiler,
    /// `%2`.
    CompilerPlus,
}

/// The three braces.
#[derive(Clone, Copy)]
pub enum BraceKind {
    /// `%{..}`.
    InPlace,
    /// `%W{..}`.
    IntoFailureFile,
    /// `%@{..}`.
    IntoArgumentsFile,
}

/// A text for the user.
#[derive(Clone, Copy)]
pub enum SayKind {
    /// `%e`.
    AsError,
    /// `%n`.
    AsNotice,
}

/// What a directive goes on with after its byte.
#[derive(Clone, Copy)]
pub enum Directive {
    /// No such directive.
    Nowhere,
    /// Nothing more.
    Whole(Leaf),
    /// Nothing more: the text of this name.
    Named(BuiltinName),
    /// A suffix, or none.
    WithSuffix(TempKind),
    /// A text in braces.
    WithOption,
    /// A text up to the end of the line.
    WithSaying(SayKind),
    /// The name of a text.
    WithName,
    /// A pattern.
    WithPattern,
    /// Nothing, in an X with the right tests.
    OfStar,
    /// A function's name and its arguments.
    WithCall,
    /// The inside of braces.
    WithBraces,
    /// A brace and the inside of braces.
    WithMarkedBraces(BraceKind),
}

/// What the directive of this byte goes on with: the table of directives.
pub fn directive_of(b: u8) -> Directive
    ensures { result ≡ directives.directive_of b }
{
    match b {
        b'%' => Directive::Whole(Leaf::Percent), // %%
        b'i' => Directive::Whole(Leaf::InputName), // %i
        b'b' => Directive::Whole(Leaf::BaseStem), // %b
        b'B' => Directive::Whole(Leaf::BaseName), // %B
        b'd' => Directive::Whole(Leaf::Removed), // %d
        b'g' => Directive::WithSuffix(TempKind::Shared), // %gSUFFIX
        b'u' => Directive::WithSuffix(TempKind::New), // %uSUFFIX
        b'U' => Directive::WithSuffix(TempKind::Last), // %USUFFIX
        b'|' => Directive::WithSuffix(TempKind::PipedOut), // %|SUFFIX
        b'm' => Directive::WithSuffix(TempKind::PipedIn), // %mSUFFIX
        b'w' => Directive::Whole(Leaf::Output), // %w
        b'V' => Directive::Whole(Leaf::NoOutput), // %V
        b'o' => Directive::Whole(Leaf::Outputs), // %o
        b'O' => Directive::Whole(Leaf::ObjectSuffix), // %O
        b's' => Directive::Whole(Leaf::FoundFile), // %s
        b'T' => Directive::Whole(Leaf::FoundScript), // %T
        _ => text_directive(b),
    }
}

/// What a byte after `%` says among the directives that are none of files and their names.
#[inline(always)]
fn text_directive(b: u8) -> Directive
    ensures { result ≡ directives.text_directive_of b }
{
    match b {
        b'e' => Directive::WithSaying(SayKind::AsError), // %eTEXT
        b'n' => Directive::WithSaying(SayKind::AsNotice), // %nTEXT
        b'x' => Directive::WithOption, // %x{OPTION}
        b'X' => Directive::Whole(Leaf::Accumulated), // %X
        b'Y' => Directive::Whole(Leaf::AssemblerOptions), // %Y
        b'Z' => Directive::Whole(Leaf::PreprocessorOptions), // %Z
        b'a' => Directive::Named(BuiltinName::Assembler), // %a
        b'A' => Directive::Named(BuiltinName::AssemblerFinal), // %A
        b'l' => Directive::Named(BuiltinName::Linker), // %l
        b'D' => Directive::Whole(Leaf::Directories), // %D
        b'L' => Directive::Named(BuiltinName::Libraries), // %L
        b'G' => Directive::Named(BuiltinName::Support), // %G
        b'S' => Directive::Named(BuiltinName::StartFiles), // %S
        b'E' => Directive::Named(BuiltinName::EndFiles), // %E
        b'C' => Directive::Named(BuiltinName::Preprocessor), // %C
        b'1' => Directive::Named(BuiltinName::Compiler), // %1
        b'2' => Directive::Named(BuiltinName::CompilerPlus), // %2
        b'*' => Directive::OfStar, // %*
        b'(' => Directive::WithName, // %(NAME)
        b'<' => Directive::WithPattern, // %<PATTERN
        b'>' => Directive::WithPattern, // %>PATTERN
        b':' => Directive::WithCall, // %:NAME(ARGUMENTS)
        b'{' => Directive::WithBraces, // %{..}
        b'W' => Directive::WithMarkedBraces(BraceKind::IntoFailureFile), // %W{..}
        b'@' => Directive::WithMarkedBraces(BraceKind::IntoArgumentsFile), // %@{..}
        _ => Directive::Nowhere,
    }
}

/// The directive of this byte is allowed in a list with this context.
pub fn allows(c: ListContext, b: u8) -> bool
    ensures { result ≡ directives.is_allowed c.in_arguments b }
{
    if c.in_arguments {
        b == b'%'
            || b == b'i'
            || b == b'b'
            || b == b'B'
            || b == b'O'
            || b == b's'
            || b == b'*'
            || b == b'{'
            || b == b':'
    } else {
        true
    }
}
