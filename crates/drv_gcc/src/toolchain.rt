//! What is known of a gcc.

use drv_words::{Listing, Word};

/// A text for libraries in a folder of their own.
#[derive(Debug, Drop)]
pub struct ForMachine {
    /// The test of the switch that names the folder.
    pub test: Word,
    /// The text.
    pub text: Word,
}

/// A text for the gcc's own libraries, and those for others.
#[derive(Debug, Drop)]
pub struct Choice {
    /// The text for its own.
    pub own: Word,
    /// The others.
    pub others: Listing<ForMachine>,
}

/// A text with a name.
#[derive(Debug, Drop)]
pub struct NamedText {
    /// Its name.
    pub name: Word,
    /// The text.
    pub choice: Choice,
}

/// A spec file that the texts of a gcc include.
#[derive(Debug, Drop)]
pub struct Included {
    /// Its name.
    pub name: Word,
    /// Whether gcc finds it.
    pub is_there: bool,
    /// Its texts in this driver's language.
    pub texts: Word,
}

/// Where a gcc finds a program that it starts.
#[derive(Clone, Copy, Debug)]
pub enum Finding {
    /// In a folder of its own, unless the line names a folder that has it.
    Own,
    /// Along PATH, unless the line names a folder that has it.
    Along,
    /// At one place, whatever the line names.
    Fixed,
}

/// A program of a gcc.
#[derive(Debug, Drop)]
pub struct Program {
    /// Where it is.
    pub path: Word,
    /// Where the gcc finds it.
    pub finding: Finding,
}

/// A linker that `-fuse-ld=` names, in a folder of the gcc.
#[derive(Debug, Drop)]
pub struct Linker {
    /// How the option names it.
    pub name: Word,
    /// Where it is.
    pub path: Word,
}

/// The programs of a gcc. The last three are empty where it lacks them.
#[derive(Debug, Drop)]
pub struct Programs {
    /// The compiler of C.
    pub compiler: Program,
    /// The assembler.
    pub assembler: Program,
    /// What takes debug information out of an object.
    pub objcopy: Program,
    /// The linker.
    pub linker: Program,
    /// The linkers of `-fuse-ld=` in its own folders. It looks for others along PATH.
    pub linkers: Listing<Linker>,
    /// The plugin of the linker.
    pub plugin: Word,
    /// What compiles again for the plugin.
    pub lto_wrapper: Word,
    /// The folder of the plugins of the compiler.
    pub plugin_folder: Word,
}

/// How texts name side files.
#[derive(Clone, Copy, Debug)]
pub enum SideFiles {
    /// By what the front hands on.
    Front,
    /// By the name of the source, as a gcc before release 11 does.
    Source,
}

/// What a line without the front gets.
#[derive(Debug, Drop)]
pub enum Alone {
    /// These words for the gcc's own machine.
    Served(Listing<Word>),
    /// A refusal.
    Refused,
}

/// What a spec file for a gcc is made of.
#[derive(Debug, Drop)]
pub struct Toolchain {
    /// The texts of its dump in this driver's language.
    pub texts: Word,
    /// The copies of those texts for the linker's plugin.
    pub passed: Word,
    /// The texts that they name, but for the following.
    pub named: Listing<NamedText>,
    /// The spec files that they include.
    pub included: Listing<Included>,
    /// The folders in which this gcc looks for programs and files.
    pub folders: Listing<Word>,
    /// What the linker gets first for gcc's own root; empty if nothing.
    pub sysroot: Word,
    /// Whether a line may name another root.
    pub is_rooted: bool,
    /// What the compiler gets for the folders of headers.
    pub include_words: Choice,
    /// What the linker gets for the folders of libraries.
    pub link_folders: Choice,
    /// Its programs.
    pub programs: Programs,
    /// The options that its spec file refuses, each as a pattern names it, with the hyphen.
    pub refused: Listing<Word>,
    /// What a line without the front gets.
    pub alone: Alone,
    /// The text of the folder of a line's library; `.` where all are in the gcc's own.
    pub library: Word,
    /// How its texts name side files.
    pub side_files: SideFiles,
}
