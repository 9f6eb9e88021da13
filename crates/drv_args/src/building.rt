//! A line that is built item by item.

// In clauses: `item effect option argument` is what an option adds to the line. `noted` is a line
// with one more item.
ghost use Rattle.drv_args.specs.Code.Building.{begun, noted, with_inputs, with_jobs, with_pieces};
ghost use Rattle.drv_args.specs.Code.Building.{with_setting, with_switch};
ghost use Rattle.drv_args.specs.Fronts.{item};
ghost use Rattle.drv_args.specs.Lines.{language_of, pieces_of};
ghost use Rattle.drv_args.specs.declared.line.Input.TheVariants as input;
ghost use Rattle.drv_args.specs.declared.option_table.Effect.TheVariants as given;
ghost use Rattle.std.specs.Prelude.{◌≡◌, ◌∷◌, ◌++◌, [], IfOk, None, OnOk, Some, drop};

use crate::jobs::{Jobs, jobs_named};
use crate::option_table::{Effect, Setting, Tool};
use crate::{Input, Line, Settings, Switch};
use drv_words::{Listing, Word, copy_word};
use std::alloc::{AllocError, Global};

/// A line so far, and the language of the last `-x`.
#[derive(Drop)]
pub(crate) struct LineBuilder {
    pub(crate) line: Line,
    language: Option<Word>,
}

/// An item whose words are lent: an option with its argument, and what they add.
#[derive(Clone, Copy)]
pub(crate) struct LentItem<'a> {
    pub(crate) effect: Effect,
    pub(crate) option: &'a [u8],
    pub(crate) argument: &'a [u8],
}

/// A word of two parts.
fn join(alloc: Global, front: &[u8], back: &[u8]) -> Result<Word, AllocError>
    ensures { IfOk result (λ word. word ≡ front.now ++ back.now) }
{
    let mut word = Word::from_bytes(alloc, front)?;
    word.extend_from_slice(back)?;
    Ok(word)
}

/// An option's name: the option without its first `-`.
fn name_of(option: &[u8]) -> &[u8]
    ensures { result.now ≡ drop 1 option.now }
{
    match option {
        [] => option,
        [_, name @ ..] => name,
    }
}

/// A word of an option's name and an argument.
fn joined_name(alloc: Global, option: &[u8], argument: &[u8]) -> Result<Word, AllocError>
    ensures { IfOk result (λ word. word ≡ drop 1 (option.now ++ argument.now)) }
{
    match option {
        [] => Word::from_bytes(alloc, name_of(argument)),
        [_, name @ ..] => join(alloc, name, argument),
    }
}

/// The language that the argument of `-x` names: `none` ends it.
fn language_for(alloc: Global, argument: &[u8]) -> Result<Option<Word>, AllocError>
    ensures { IfOk result (λ language. language ≡ language_of argument.now) }
{
    if argument == b"none".as_slice() {
        return Ok(None);
    }
    Ok(Some(Word::from_bytes(alloc, argument)?))
}

impl LineBuilder {
    /// A line without items; `from_file` says whether words of a response file are in it. It has
    /// room for a number of switches and inputs, so that short lists are never copied to grow.
    pub(crate) fn new(
        alloc: Global,
        room: usize,
        from_file: bool,
    ) -> Result<LineBuilder, AllocError>
        ensures { IfOk result (λ made. made ≡ begun from_file) }
    {
        let settings = Settings {
            dry: false,
            verbose: false,
            dump: false,
            pass_codes: false,
            pipe: false,
            from_file,
            output: None,
            specs: Listing::new(alloc),
            prefixes: Listing::new(alloc),
            jobs: Jobs::one(),
        };
        let line = Line {
            switches: Listing::from_vec(Vec::with_capacity(alloc, room)?),
            inputs: Listing::from_vec(Vec::with_capacity(alloc, room)?),
            asm_opts: Listing::new(alloc),
            cpp_opts: Listing::new(alloc),
            settings,
        };
        Ok(LineBuilder {
            line,
            language: None,
        })
    }

    /// Adds a switch.
    fn add_switch(&mut self, name: Word, arg: Option<Word>) -> Result<(), AllocError>
        ensures { OnOk result (self.new ≡ with_switch self.old name arg) }
    {
        self.line.switches.push(Switch { name, arg })?;
        Ok(())
    }

    /// Adds a switch with an option's name.
    fn add_name(&mut self, alloc: Global, option: &[u8]) -> Result<(), AllocError>
        ensures { OnOk result (self.new ≡ with_switch self.old (drop 1 option.now) None) }
    {
        self.add_switch(Word::from_bytes(alloc, name_of(option))?, None)
    }

    /// Adds a switch with an option's name and an argument in one word.
    fn add_joined_name(
        &mut self,
        alloc: Global,
        option: &[u8],
        argument: &[u8],
    ) -> Result<(), AllocError>
        ensures { OnOk result
            (self.new ≡ with_switch self.old (drop 1 (option.now ++ argument.now)) None) }
    {
        self.add_switch(joined_name(alloc, option, argument)?, None)
    }

    /// Adds a switch with an option's name, and the next word as its argument.
    fn add_switch_with(
        &mut self,
        alloc: Global,
        option: &[u8],
        argument: &[u8],
    ) -> Result<(), AllocError>
        ensures { OnOk result
            (self.new ≡ with_switch self.old (drop 1 option.now) (Some argument.now)) }
    {
        let name = Word::from_bytes(alloc, name_of(option))?;
        self.add_switch(name, Some(Word::from_bytes(alloc, argument)?))
    }

    /// Adds an input.
    fn add_input(&mut self, input: Input) -> Result<(), AllocError>
        ensures { OnOk result (self.new ≡ with_inputs self.old (input ∷ [])) }
    {
        self.line.inputs.push(input)?;
        Ok(())
    }

    /// Adds a file with the language of the last `-x`.
    fn add_file(&mut self, alloc: Global, name: &[u8]) -> Result<(), AllocError>
        ensures { OnOk result
            (self.new ≡ with_inputs self.old (input.File name.now self.old.language ∷ [])) }
    {
        let name = Word::from_bytes(alloc, name)?;
        let lang = copy_word(&self.language)?;
        self.add_input(Input::File { name, lang })
    }

    /// Turns a setting on. No option turns one off.
    fn turn_on(&mut self, setting: Setting)
        ensures { self.new ≡ with_setting self.old setting }
    {
        let settings = &mut self.line.settings;
        match setting {
            Setting::Dry => settings.dry = true,
            Setting::Verbose => settings.verbose = true,
            Setting::Dump => settings.dump = true,
            Setting::PassCodes => settings.pass_codes = true,
            Setting::Pipe => settings.pipe = true,
        }
    }

    /// Sets the number of jobs that an argument names.
    fn set_jobs(&mut self, argument: &[u8])
        ensures { self.new ≡ with_jobs self.old argument.now }
    {
        let jobs = jobs_named(argument).unwrap_or(self.line.settings.jobs);
        self.line.settings.jobs = jobs;
    }

    /// Adds a piece for a tool.
    fn add_piece(&mut self, alloc: Global, tool: Tool, piece: &[u8]) -> Result<(), AllocError>
        ensures { OnOk result (self.new ≡ with_pieces self.old tool (piece.now ∷ [])) }
    {
        let piece = Word::from_bytes(alloc, piece)?;
        match tool {
            Tool::Assembler => self.line.asm_opts.push(piece)?,
            Tool::Preprocessor => self.line.cpp_opts.push(piece)?,
            Tool::Linker => self.line.inputs.push(Input::LinkWord(piece))?,
        }
        Ok(())
    }

    /// Adds the pieces of a text between its commas for a tool, including empty ones.
    fn add_pieces(&mut self, alloc: Global, tool: Tool, text: &[u8]) -> Result<(), AllocError>
        ensures { OnOk result (self.new ≡ with_pieces self.old tool (pieces_of text.now)) }
    {
        for piece in text.split(|byte| *byte == b',') {
            self.add_piece(alloc, tool, piece)?;
        }
        Ok(())
    }

    /// Turns a setting on, and adds its switch if its option is also a switch.
    fn add_setting(
        &mut self,
        alloc: Global,
        setting: Setting,
        option: &[u8],
    ) -> Result<(), AllocError>
        ensures { OnOk result
            (self.new ≡ noted self.old (item (given.TurnsOn setting) option.now [])) }
    {
        self.turn_on(setting);
        // The setting alone counts; spec texts don't ask for it.
        if !setting.is_switch_too() {
            return Ok(());
        }
        self.add_name(alloc, option)
    }

    /// Adds a spec file, and its switch.
    fn add_specs(&mut self, alloc: Global, argument: &[u8]) -> Result<(), AllocError>
        ensures { OnOk result (self.new ≡ noted self.old (item given.Specs [] argument.now)) }
    {
        let specs = Word::from_bytes(alloc, argument)?;
        self.line.settings.specs.push(specs)?;
        self.add_switch(join(alloc, b"specs=", argument)?, None)
    }

    /// Adds a prefix, and its switch.
    fn add_prefix(
        &mut self,
        alloc: Global,
        option: &[u8],
        argument: &[u8],
    ) -> Result<(), AllocError>
        ensures { OnOk result
            (self.new ≡ noted self.old (item given.Prefix option.now argument.now)) }
    {
        let prefix = Word::from_bytes(alloc, argument)?;
        self.line.settings.prefixes.push(prefix)?;
        self.add_joined_name(alloc, option, argument)
    }

    /// Sets the output, and adds its switch.
    fn set_output(
        &mut self,
        alloc: Global,
        option: &[u8],
        argument: &[u8],
    ) -> Result<(), AllocError>
        ensures { OnOk result
            (self.new ≡ noted self.old (item given.Output option.now argument.now)) }
    {
        self.line.settings.output = Some(Word::from_bytes(alloc, argument)?);
        self.add_switch_with(alloc, option, argument)
    }

    /// Sets the language of the files after it.
    fn set_language(&mut self, alloc: Global, argument: &[u8]) -> Result<(), AllocError>
        ensures { OnOk result (self.new ≡ noted self.old (item given.Language [] argument.now)) }
    {
        self.language = language_for(alloc, argument)?;
        Ok(())
    }

    /// Adds a library.
    fn add_library(
        &mut self,
        alloc: Global,
        option: &[u8],
        argument: &[u8],
    ) -> Result<(), AllocError>
        ensures { OnOk result
            (self.new ≡ noted self.old (item given.Library option.now argument.now)) }
    {
        self.add_input(Input::Library(join(alloc, option, argument)?))
    }

    /// Adds a switch that is a word of its own.
    pub(crate) fn note_switch(&mut self, alloc: Global, option: &[u8]) -> Result<(), AllocError>
        ensures { OnOk result (self.new ≡ noted self.old (item given.Switch option.now [])) }
    {
        self.add_name(alloc, option)
    }

    /// Adds an item whose option and argument are this one word. The word of a library is copied
    /// whole.
    pub(crate) fn note_whole(
        &mut self,
        alloc: Global,
        word: &[u8],
        whole: LentItem<'_>,
    ) -> Result<(), AllocError>
        requires { whole.option.now ++ whole.argument.now ≡ word.now }
        ensures { OnOk result (self.new
            ≡ noted self.old (item whole.entry.effect whole.entry.option.now whole.entry.argument.now)) }
    {
        match whole.effect {
            Effect::Library => self.add_input(Input::Library(Word::from_bytes(alloc, word)?)),
            effect => self.note(alloc, effect, whole.option, whole.argument),
        }
    }

    /// Adds an item.
    pub(crate) fn note(
        &mut self,
        alloc: Global,
        effect: Effect,
        option: &[u8],
        argument: &[u8],
    ) -> Result<(), AllocError>
        ensures { OnOk result (self.new ≡ noted self.old (item effect option.now argument.now)) }
    {
        match effect {
            Effect::TurnsOn(setting) => self.add_setting(alloc, setting, option),
            Effect::Switch => self.add_name(alloc, option),
            Effect::SwitchWithArgument => self.add_switch_with(alloc, option, argument),
            Effect::JoinedSwitch => self.add_joined_name(alloc, option, argument),
            Effect::Specs => self.add_specs(alloc, argument),
            Effect::Prefix => self.add_prefix(alloc, option, argument),
            Effect::Output => self.set_output(alloc, option, argument),
            Effect::Language => self.set_language(alloc, argument),
            Effect::Library => self.add_library(alloc, option, argument),
            Effect::Pieces(tool) => self.add_pieces(alloc, tool, argument),
            Effect::Piece(tool) => self.add_piece(alloc, tool, argument),
            Effect::Jobs => {
                self.set_jobs(argument);
                Ok(())
            }
            Effect::File => self.add_file(alloc, option),
        }
    }
}
