//! What a call asks of its machine beside what a driver asks.

ghost use Rattle.drv_compile.specs.declared.host.HostEvent.TheVariants.{Resolved, Set, Stamped, Tried, Worded};
ghost use Rattle.std.specs.Prelude.{◌≡◌, ◌∷◌, ◌++◌, [], IfOk, List, OnErr, OnOk, length};

use drv_cc::Variable;
use drv_system::System;
use drv_words::Word;
use std::alloc::AllocError;

/// One call of a host: its argument, then its answer.
#[derive(Drop)]
pub enum HostEvent {
    /// The call asked for the path of the file that a name leads to; the answer is none if there is
    /// no file.
    Resolved(Word, Option<Word>),
    /// The call asked whether a name is that of a folder in which files can be made.
    Tried(Word, bool),
    /// The call asked the compiler of a spec file for the words that it makes of options for its
    /// machine, a blank between two; the answer has them as a row.
    Worded(Word, Word, Word),
    /// The call asked for the stamp of the file at a path.
    Stamped(Word, Word),
    /// After this many events of the system the call set this variable for the children that it
    /// starts from then on.
    Set(usize, Variable),
}

/// What a call of `gdrv-cc` asks of its machine beside what a driver asks of a system.
///
/// Each call adds one event. A call that answers `AllocError` adds none, and has set nothing.
pub trait Host<S: System> {
    ghost use Rattle.drv_compile.specs.declared.host.HostEvent.{HostEvent};

    // the events so far, the first one first
    ghost notes: { Self → List HostEvent };

    /// Asks for the path of the file that a name leads to, links followed: two names of one file
    /// have one path.
    fn resolve(&mut self, name: &Word) -> Result<Option<Word>, AllocError>
        ensures event { IfOk result (λ path. notes self.new
            ≡ notes self.old ++ Resolved name.now path ∷ []) }
        ensures memory { OnErr result (notes self.new ≡ notes self.old) };

    /// Asks whether a name is that of a folder in which this process can make and find files.
    fn is_usable(&mut self, name: &Word) -> Result<bool, AllocError>
        ensures event { IfOk result (λ usable. notes self.new
            ≡ notes self.old ++ Tried name.now usable ∷ []) }
        ensures memory { OnErr result (notes self.new ≡ notes self.old) };

    /// Asks the compiler of the spec file at a path for the words that it makes of these options for
    /// its machine, a blank between two. The answer is a row, as the file beside the spec file has
    /// them, and empty where there is none. No file is changed.
    fn row_of(&mut self, specs: &Word, options: &Word) -> Result<Word, AllocError>
        ensures event { IfOk result (λ row. notes self.new
            ≡ notes self.old ++ Worded specs.now options.now row ∷ []) }
        ensures memory { OnErr result (notes self.new ≡ notes self.old) };

    /// Asks for the stamp of the file at a path, links followed, which has no blank: its size in bytes
    /// and the time of its last change, as `gdrv-write-specs` writes them, or a minus where it is
    /// missing.
    fn stamp_of(&mut self, path: &Word) -> Result<Word, AllocError>
        ensures event { IfOk result (λ stamp. notes self.new
            ≡ notes self.old ++ Stamped path.now stamp ∷ []) }
        ensures memory { OnErr result (notes self.new ≡ notes self.old) };

    /// Sets a variable for the children that the system starts from now on.
    fn set_for_children(&mut self, sys: &mut S, variable: &Variable) -> Result<(), AllocError>
        ensures event { OnOk result (notes self.new
            ≡ notes self.old ++ Set (length (S.events sys.old)) variable.now ∷ []) }
        ensures memory { OnErr result (notes self.new ≡ notes self.old) }
        ensures unchanged { S.events sys.new ≡ S.events sys.old };
}
