//! What a text is run for: a line, and an input of it or the link.

ghost use Rattle.drv_machine.specs.Context.{argument, names, site_of, text_named};
ghost use Rattle.std.specs.Option.{option_map};
ghost use Rattle.std.specs.Prelude.{◌≡◌, ◌<◌, [], IfOk, None, get_or, length, map};

use drv_args::{Line, Switch};
use drv_funcs::Site;
use drv_match::Switches;
use drv_search::Prefixes;
use drv_specs::SpecSet;
use drv_syntax::SpecTree;
use drv_words::{Listing, Word};
use std::alloc::{AllocError, Global};
use std::marker::Model;

/// An input that a text is run for. It borrows its names.
#[derive(Drop)]
pub struct Source<'a> {
    pub name: &'a [u8],
    /// The name of its language, if it has one.
    pub language: Option<&'a [u8]>,
}

impl<'a> Model for Source<'a> {
    ghost use Rattle.drv_machine.specs.Context as specs;
    ghost use Rattle.std.specs.Option.{option_map};

    ghost Value = { specs.Source };

    ghost view = { λ s. record { name = s.name.now; language = option_map (λ name. name.now) s.language } };
}

/// What is given for all texts of a line, which it lends.
#[derive(Drop)]
pub struct Given<'a> {
    pub switches: &'a [Switch],
    /// The pieces for the assembler.
    pub assembler: &'a [Word],
    /// The pieces for the preprocessor.
    pub preprocessor: &'a [Word],
    /// The named texts.
    pub texts: &'a SpecSet,
    /// Where programs and files are looked for.
    pub prefixes: &'a Prefixes,
    /// Whether commands are piped: `-pipe`.
    pub is_piping: bool,
    /// Whether words come from a response file.
    pub from_file: bool,
    /// The seed of the names of temporaries.
    pub seed: u32,
}

/// What a text is run for: what is given for all texts, what goes on from one text to the next, and
/// an input or the link.
#[derive(Drop)]
pub struct Context<'a> {
    given: Given<'a>,
    /// The switches, ready for patterns, by their names.
    matcher: Switches<'a>,
    number: usize,
    accumulated: Listing<Word>,
    input: Option<Source<'a>>,
    outputs: Listing<Word>,
}

impl<'a> Model for Context<'a> {
    ghost use Rattle.drv_machine.specs.Context as specs;
    ghost use Rattle.std.specs.Prelude.{◌≡◌, map};

    ghost Value = { specs.Context };

    ghost view = { λ c. record {
      switches = c.given.switches.now;
      assembler = c.given.assembler.now;
      preprocessor = c.given.preprocessor.now;
      texts = c.given.texts.now.named;
      prefixes = c.given.prefixes.now;
      is_piping = c.given.is_piping;
      from_file = c.given.from_file;
      seed = c.given.seed;
      number = c.number;
      accumulated = c.accumulated;
      input = c.input;
      outputs = c.outputs;
    } };

    ghost invariant = { λ c. c.matcher ≡ map (λ switch. switch.name) c.given.switches.now };
}

/// The argument of the switch at this place of a line.
fn argument_at(switches: &[Switch], i: usize) -> &Option<Word>
    requires { i < length switches.now }
    ensures { result.now ≡ get_or (map (λ s. s.arg) switches.now) i None }
{
    &switches[i].arg
}

impl<'a> Context<'a> {
    /// What the first text is run for, with what is given, as it would be for a link without
    /// outputs: no option was added, and the names of temporaries are numbered from 1. Lack of
    /// memory is the only error.
    pub fn of(alloc: Global, given: Given<'a>) -> Result<Context<'a>, AllocError>
        ensures { IfOk result (λ made. made ≡ record {
          switches = given.entry.switches.now;
          assembler = given.entry.assembler.now;
          preprocessor = given.entry.preprocessor.now;
          texts = given.entry.texts.now.named;
          prefixes = given.entry.prefixes.now;
          is_piping = given.entry.is_piping;
          from_file = given.entry.from_file;
          seed = given.entry.seed;
          number = 1;
          accumulated = [];
          input = None;
          outputs = [];
        }) }
    {
        let matcher = Switches::new(alloc, given.switches)?;
        Ok(Context {
            given,
            matcher,
            number: 1,
            accumulated: Listing::new(alloc),
            input: None,
            outputs: Listing::new(alloc),
        })
    }

    /// What the first text of a line is run for, as it would be for a link without outputs: no
    /// option was added, and the names of temporaries are numbered from 1. Lack of memory is the
    /// only error.
    pub fn new(
        alloc: Global,
        line: &'a Line,
        texts: &'a SpecSet,
        prefixes: &'a Prefixes,
        seed: u32,
    ) -> Result<Context<'a>, AllocError>
        ensures { IfOk result (λ made. made ≡ record {
          switches = line.now.switches;
          assembler = line.now.asm_opts;
          preprocessor = line.now.cpp_opts;
          texts = texts.now.named;
          prefixes = prefixes.now;
          is_piping = line.now.settings.pipe;
          from_file = line.now.settings.from_file;
          seed = seed;
          number = 1;
          accumulated = [];
          input = None;
          outputs = [];
        }) }
    {
        let given = Given {
            switches: line.switches.as_slice(),
            assembler: line.asm_opts.as_slice(),
            preprocessor: line.cpp_opts.as_slice(),
            texts,
            prefixes,
            is_piping: line.settings.pipe,
            from_file: line.settings.from_file,
            seed,
        };
        Context::of(alloc, given)
    }

    /// The texts are run for this input from here on, or for the link. The call allocates nothing.
    pub fn set_input(&mut self, input: Option<Source<'a>>)
        ensures { self.new ≡ record self.old { input = input.entry } }
    {
        self.input = input;
    }

    /// The next text goes on from one that was run: with the options that were added so far, and the
    /// number of the next name that is drawn. The call allocates nothing.
    pub fn go_on(&mut self, accumulated: Listing<Word>, number: usize)
        ensures { self.new ≡ record self.old { accumulated = accumulated; number = number } }
    {
        self.accumulated = accumulated;
        self.number = number;
    }

    /// The next text has these outputs of the jobs so far. The call allocates nothing.
    pub fn set_outputs(&mut self, outputs: Listing<Word>)
        ensures { self.new ≡ record self.old { outputs = outputs } }
    {
        self.outputs = outputs;
    }

    /// The switches, ready for patterns.
    pub(crate) fn switches(&self) -> &Switches<'a>
        ensures { result.now ≡ names self.now }
    {
        &self.matcher
    }

    /// The argument of the switch at this place, if it takes one as a word of its own.
    pub(crate) fn argument(&self, i: usize) -> &'a Option<Word>
        requires { i < length self.now.switches }
        ensures { result.now ≡ argument self.now i }
    {
        argument_at(self.given.switches, i)
    }

    /// Whether the switch at this place takes a word of its own.
    pub(crate) fn takes_word(&self, i: usize) -> bool {
        match self.given.switches.get(i) {
            Some(switch) => switch.arg.is_some(),
            None => false,
        }
    }

    /// Whether the line has `-pipe`.
    pub(crate) fn is_piping(&self) -> bool
        ensures { result ≡ self.now.is_piping }
    {
        self.given.is_piping
    }

    /// The line's pieces for the assembler.
    pub(crate) fn assembler(&self) -> &'a [Word]
        ensures { result.now ≡ self.now.assembler }
    {
        self.given.assembler
    }

    /// The line's pieces for the preprocessor.
    pub(crate) fn preprocessor(&self) -> &'a [Word]
        ensures { result.now ≡ self.now.preprocessor }
    {
        self.given.preprocessor
    }

    /// The tree of the text of a name, if the set has one.
    pub(crate) fn text_named(&self, name: &[u8]) -> Option<&'a SpecTree>
        ensures { option_map (λ tree. tree.now) result ≡ text_named self.now name.now }
    {
        self.given.texts.tree(name)
    }

    /// Whether words of the line come from a response file.
    pub(crate) fn from_file(&self) -> bool
        ensures { result ≡ self.now.from_file }
    {
        self.given.from_file
    }

    /// Where programs and files are looked for.
    pub(crate) fn prefixes(&self) -> &'a Prefixes
        ensures { result.now ≡ self.now.prefixes }
    {
        self.given.prefixes
    }

    /// The seed of the names of temporaries.
    pub(crate) fn seed(&self) -> u32
        ensures { result ≡ self.now.seed }
    {
        self.given.seed
    }

    /// The number of the next name that is drawn.
    pub(crate) fn number(&self) -> usize
        ensures { result ≡ self.now.number }
    {
        self.number
    }

    /// The options that `%x` accumulated so far.
    pub(crate) fn accumulated(&self) -> &[Word]
        ensures { result.now ≡ self.now.accumulated }
    {
        self.accumulated.as_slice()
    }

    /// The outputs of the jobs so far.
    pub(crate) fn outputs(&self) -> &[Word]
        ensures { result.now ≡ self.now.outputs }
    {
        self.outputs.as_slice()
    }

    /// The input, or none for the link.
    pub(crate) fn input(&self) -> &Option<Source<'a>>
        ensures { result.now ≡ self.now.input }
    {
        &self.input
    }

    /// Where functions are called: in the text of a source, or of the link.
    pub(crate) fn site(&self) -> Site
        ensures { result ≡ site_of self.now }
    {
        match &self.input {
            Some(_) => Site::Source,
            None => Site::Link,
        }
    }
}
