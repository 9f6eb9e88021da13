//! Names of temporaries.

ghost use Rattle.drv_system.specs.Code.Asked.{Asked};
ghost use Rattle.drv_machine.specs.Atoms.{draw, draw_with, drawn_or_new, name_step, new_name_step};
ghost use Rattle.drv_machine.specs.Atoms.{temp_step};
ghost use Rattle.drv_machine.specs.Code.Running.{Does, reached, run};
ghost use Rattle.drv_machine.specs.Temps.{folder, hex, hex_digit, is_drawn, is_same, last_drawn};
ghost use Rattle.drv_machine.specs.Temps.{temp_name};
ghost use Rattle.drv_system.specs.Asking.{Extends};
ghost use Rattle.drv_system.specs.Facts.{Facts};
ghost use Rattle.drv_system.specs.Gives.{GivesKnown};
ghost use Rattle.drv_system.specs.Known.{Is};
ghost use Rattle.std.specs.Option.{option_copied, option_map};
ghost use Rattle.std.specs.Prelude.{◌≡◌, ◌<◌, ◌++◌, IfOk, OnOk, length, ℕ};

use super::Machine;
use crate::{Context, MachineFault};
use drv_syntax::TempKind;
use drv_system::{Outside, System};
use drv_words::Word;
use itoa::Buffer;
use std::alloc::{AllocError, Global};

/// How a name is drawn for a temporary.
#[derive(Clone, Copy)]
pub(crate) enum Drawing {
    /// Once for each suffix: the name of `%g`, and of `%|` and `%m`.
    Once,
    /// A new name each time: that of `%u`, whose last one is `%U`, and that of the file of a `%@`.
    Anew,
}

impl Drawing {
    /// Whether two names are drawn alike.
    fn is_same(self, other: Drawing) -> bool
        ensures { result ≡ is_same self other }
    {
        matches!(
            (self, other),
            (Drawing::Once, Drawing::Once) | (Drawing::Anew, Drawing::Anew)
        )
    }
}

/// A name that was drawn for a temporary.
#[derive(Drop)]
pub(crate) struct Drawn {
    /// How it was drawn.
    pub(crate) drawing: Drawing,
    pub(crate) suffix: Word,
    pub(crate) path: Word,
    /// What its file holds.
    pub(crate) contents: Word,
}

/// A temporary that a name is drawn for.
#[derive(Drop)]
pub(crate) struct Temporary<'a> {
    /// How the name is drawn.
    pub(crate) drawing: Drawing,
    pub(crate) suffix: &'a [u8],
    /// What its file holds.
    pub(crate) contents: Word,
}

/// A digit of a number in base 16.
fn hex_digit(digit: u8) -> u8
    requires { digit < 16 }
    ensures { result ≡ hex_digit digit }
{
    if digit < 10 {
        b'0' + digit
    } else {
        b'a' + (digit - 10)
    }
}

/// A number in base 16, with eight digits.
fn hex(number: u32) -> [u8; 8]
    ensures { result ≡ hex 8 number }
{
    let mut digits = [0; 8];
    let mut rest = number;
    let mut at = 8;
    while at > 0 {
        at -= 1;
        digits[at] = hex_digit((rest % 16) as u8);
        rest /= 16;
    }
    digits
}

/// Adds the folder of temporaries, with a slash at its end, by the value of TMPDIR.
fn push_folder(path: &mut Word, dir: Option<&Word>) -> Result<(), AllocError>
    ensures { OnOk result (path.new ≡ path.old ++ folder (option_copied dir.entry)) }
{
    let folder = match dir {
        Some(dir) if !dir.is_empty() => dir.as_bytes(),
        _ => b"/tmp",
    };
    path.extend_from_slice(folder)?;
    if !folder.ends_with(b"/") {
        path.push(b'/')?;
    }
    Ok(())
}

/// The name of a temporary with this seed, number and suffix.
fn temp_name<S: System>(
    alloc: Global,
    seed: u32,
    number: usize,
    suffix: &[u8],
    outside: &mut Outside<'_, S>,
) -> Result<Word, AllocError>
    ensures asks { Asked S.events outside.old outside.new }
    ensures name { (F : Facts) → Extends outside.new.facts.now F
        → IfOk result (λ path. temp_name F seed number suffix.now ≡ Is path) }
{
    let variable = Word::from_bytes(alloc, b"TMPDIR")?;
    outside.facts.variable(outside.sys, &variable)?;
    let mut path = Word::empty(alloc);
    push_folder(&mut path, outside.facts.variable_answer(&variable))?;
    path.extend_from_slice(b"cc")?;
    path.extend_from_slice(&hex(seed))?;
    path.push(b'_')?;
    path.extend_from_slice(Buffer::new().format(number).as_bytes())?;
    path.extend_from_slice(suffix)?;
    Ok(path)
}

/// Whether a name was drawn so with this suffix.
fn is_drawn(name: &Drawn, drawing: Drawing, suffix: &[u8]) -> bool
    ensures { result ≡ is_drawn drawing suffix.now name.now }
{
    name.drawing.is_same(drawing) && name.suffix.as_bytes() == suffix
}

/// The last of these names that was drawn so with this suffix.
fn last_drawn<'a>(drawn: &'a [Drawn], drawing: Drawing, suffix: &[u8]) -> Option<&'a [u8]>
    ensures { option_map (λ path. path.now) result ≡ last_drawn drawing suffix.now drawn.now }
{
    let mut i = drawn.len();
    while i > 0 {
        i -= 1;
        let name = &drawn[i];
        if is_drawn(name, drawing, suffix) {
            return Some(name.path.as_bytes());
        }
    }
    None
}

impl Machine {
    /// A name is drawn for a temporary, which is one of the job.
    pub(crate) fn draw_with<S: System>(
        &mut self,
        temporary: Temporary<'_>,
        context: &Context<'_>,
        outside: &mut Outside<'_, S>,
    ) -> Result<Word, MachineFault>
        ensures asks { Asked S.events outside.old outside.new }
        ensures does { (n : ℕ) (F : Facts) → Extends outside.new.facts.now F
            → GivesKnown MachineFault.Memory (λ path. (path, reached n self.new)) result
            (run F context.now (reached n self.old) (draw_with F context.now
            temporary.entry.contents temporary.entry.drawing temporary.entry.suffix.now)) }
    {
        let suffix = temporary.suffix;
        let path = temp_name(self.alloc, context.seed(), self.number, suffix, outside)?;
        let Some(next) = self.number.checked_add(1) else {
            return Err(MachineFault::Memory);
        };
        self.drawn.push(Drawn {
            drawing: temporary.drawing,
            suffix: Word::from_bytes(self.alloc, suffix)?,
            path: path.clone()?,
            contents: temporary.contents,
        })?;
        self.number = next;
        Ok(path)
    }

    /// A name is drawn so for a file that is empty.
    fn draw<S: System>(
        &mut self,
        drawing: Drawing,
        suffix: &[u8],
        context: &Context<'_>,
        outside: &mut Outside<'_, S>,
    ) -> Result<Word, MachineFault>
        ensures asks { Asked S.events outside.old outside.new }
        ensures does { (n : ℕ) (F : Facts) → Extends outside.new.facts.now F
            → GivesKnown MachineFault.Memory (λ path. (path, reached n self.new)) result
            (run F context.now (reached n self.old) (draw F context.now drawing suffix.now)) }
    {
        let temporary = Temporary {
            drawing,
            suffix,
            contents: Word::empty(self.alloc),
        };
        self.draw_with(temporary, context, outside)
    }

    /// The last name that was drawn so with this suffix, or else a new one.
    #[tactic(auto, using(drv_system::proofs::AskedCalls::asked_none))]
    fn drawn_or_new<S: System>(
        &mut self,
        drawing: Drawing,
        suffix: &[u8],
        context: &Context<'_>,
        outside: &mut Outside<'_, S>,
    ) -> Result<Word, MachineFault>
        ensures asks { Asked S.events outside.old outside.new }
        ensures does { (n : ℕ) (F : Facts) → Extends outside.new.facts.now F
            → GivesKnown MachineFault.Memory (λ path. (path, reached n self.new)) result
            (run F context.now (reached n self.old) (drawn_or_new F context.now drawing suffix.now)) }
    {
        if let Some(path) = last_drawn(self.drawn.as_slice(), drawing, suffix) {
            return Ok(Word::from_bytes(self.alloc, path)?);
        }
        self.draw(drawing, suffix, context, outside)
    }

    /// The name of `%g`, `%u` or `%U` is put.
    fn put_name<S: System>(
        &mut self,
        drawing: Drawing,
        suffix: &[u8],
        context: &Context<'_>,
        outside: &mut Outside<'_, S>,
    ) -> Result<(), MachineFault>
        ensures asks { Asked S.events outside.old outside.new }
        ensures does { (n : ℕ) (F : Facts) → Extends outside.new.facts.now F
            → Does F context.now n self.old self.new result (name_step F context.now drawing suffix.now) }
    {
        let path = self.drawn_or_new(drawing, suffix, context, outside)?;
        self.put(path.as_bytes())
    }

    /// A new name is put.
    fn put_new_name<S: System>(
        &mut self,
        suffix: &[u8],
        context: &Context<'_>,
        outside: &mut Outside<'_, S>,
    ) -> Result<(), MachineFault>
        ensures asks { Asked S.events outside.old outside.new }
        ensures does { (n : ℕ) (F : Facts) → Extends outside.new.facts.now F
            → Does F context.now n self.old self.new result (new_name_step F context.now suffix.now) }
    {
        let path = self.draw(Drawing::Anew, suffix, context, outside)?;
        self.put(path.as_bytes())
    }

    /// The name of a temporary with this suffix is put; where commands are piped, `-` or nothing
    /// may take its place.
    #[tactic(auto, using(drv_system::proofs::AskedCalls::asked_none))]
    pub(crate) fn put_temp<S: System>(
        &mut self,
        kind: TempKind,
        suffix: &[u8],
        context: &Context<'_>,
        outside: &mut Outside<'_, S>,
    ) -> Result<(), MachineFault>
        ensures asks { Asked S.events outside.old outside.new }
        ensures does { (n : ℕ) (F : Facts) → Extends outside.new.facts.now F
            → Does F context.now n self.old self.new result (temp_step F context.now kind suffix.now) }
    {
        match kind {
            TempKind::Shared => self.put_name(Drawing::Once, suffix, context, outside),
            TempKind::New => self.put_new_name(suffix, context, outside),
            TempKind::Last => self.put_name(Drawing::Anew, suffix, context, outside),
            TempKind::PipedOut if context.is_piping() => self.put(b"-"),
            TempKind::PipedIn if context.is_piping() => Ok(()),
            TempKind::PipedOut | TempKind::PipedIn => {
                self.put_name(Drawing::Once, suffix, context, outside)
            }
        }
    }
}
