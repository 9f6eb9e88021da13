//! The refusals of a whole line.

// In clauses: `Finds` says that a test finds the defined refusal, or none.
ghost use Rattle.drv_args.specs.Lines.{has_many, has_switch, is_bare_stdin, is_file_input};
ghost use Rattle.drv_args.specs.Lines.{input_fault, inputs_fault, is_file_named, is_input, is_sink};
ghost use Rattle.drv_args.specs.Lines.{items_fault, line_fault, needs_language, output_fault};
ghost use Rattle.drv_args.specs.Lines.{stops};
ghost use Rattle.drv_args.specs.Code.Judging.{Finds};
ghost use Rattle.std.specs.List.{list_any};
ghost use Rattle.std.specs.Prelude.{◌≡◌, Some, count_by};

use crate::{ArgsFault, Input, Line};
use drv_words::Word;

/// Whether the line has a switch of this name.
fn has_switch(line: &Line, name: &[u8]) -> bool
    ensures { result ≡ has_switch name.now line.now }
{
    line.switches
        .as_slice()
        .iter()
        .any(|switch| switch.name.as_bytes() == name)
}

/// Whether the driver stops before the link: by `-c`, `-S` or `-E`.
pub fn stops(line: &Line) -> bool
    ensures { result ≡ stops line.now }
{
    has_switch(line, b"c") || has_switch(line, b"S") || has_switch(line, b"E")
}

/// Whether an input is standard input without a language.
fn is_bare_stdin(input: &Input) -> bool
    ensures { result ≡ is_bare_stdin input.now }
{
    match input {
        Input::File { name, lang: None } => name.as_bytes() == b"-".as_slice(),
        _ => false,
    }
}

/// Whether standard input is an input without a language.
fn has_bare_stdin(inputs: &[Input]) -> bool
    ensures { result ≡ list_any is_bare_stdin inputs.now }
{
    inputs.iter().any(is_bare_stdin)
}

/// Whether standard input is an input, and neither a language nor `-E` says how to read it.
fn needs_language(line: &Line) -> bool
    ensures { result ≡ needs_language line.now }
{
    has_bare_stdin(line.inputs.as_slice()) && !has_switch(line, b"E")
}

/// Whether an input is a file.
fn is_file_input(input: &Input) -> bool
    ensures { result ≡ is_file_input input.now }
{
    matches!(input, Input::File { .. })
}

/// How many inputs are files.
fn file_count(inputs: &[Input]) -> usize
    ensures { result ≡ count_by is_file_input inputs.now }
{
    inputs.iter().filter(|input| is_file_input(input)).count()
}

/// Whether one output is named for several files.
fn has_many(line: &Line) -> bool
    ensures { result ≡ has_many line.now }
{
    stops(line) && file_count(line.inputs.as_slice()) > 1
}

/// Whether an input is the file of this name.
fn is_file_named(output: &[u8], input: &Input) -> bool
    ensures { result ≡ is_file_named output.now input.now }
{
    match input {
        Input::File { name, .. } => name.as_bytes() == output,
        _ => false,
    }
}

/// Whether an output is no file of its own: standard output, or `/dev/null`.
fn is_sink(output: &[u8]) -> bool
    ensures { result ≡ is_sink output.now }
{
    output == b"-".as_slice() || output == b"/dev/null".as_slice()
}

/// Whether one of the inputs is the file of this name.
fn has_file(inputs: &[Input], name: &[u8]) -> bool
    ensures { result ≡ list_any (is_file_named name.now) inputs.now }
{
    inputs.iter().any(|input| is_file_named(name, input))
}

/// Whether the output is also an input.
fn is_input(output: &[u8], line: &Line) -> bool
    ensures { result ≡ is_input output.now line.now }
{
    !is_sink(output) && has_file(line.inputs.as_slice(), output)
}

/// The refusal of an output that is also an input.
fn input_fault(line: &Line, output: &Word) -> Result<(), ArgsFault>
    ensures { Finds result (input_fault (Some output.now) line.now) }
{
    if is_input(output.as_bytes(), line) {
        return Err(ArgsFault::OutputIsInput(output.clone()?));
    }
    Ok(())
}

/// The refusal that an output causes.
fn output_fault(line: &Line, output: &Word) -> Result<(), ArgsFault>
    ensures { Finds result (output_fault (Some output.now) line.now) }
{
    if has_many(line) {
        return Err(ArgsFault::OutputWithMany);
    }
    input_fault(line, output)
}

/// The first refusal that inputs cause.
fn inputs_fault(line: &Line) -> Result<(), ArgsFault>
    ensures { Finds result (inputs_fault line.now) }
{
    if line.inputs.is_empty() {
        return Err(ArgsFault::NoInputs);
    }
    if needs_language(line) {
        return Err(ArgsFault::StdinNeedsLanguage);
    }
    Ok(())
}

/// The first refusal of a line; there is none if the specs are dumped.
pub(crate) fn line_fault(line: &Line) -> Result<(), ArgsFault>
    ensures { Finds result (line_fault line.now) }
{
    if line.settings.dump {
        return Ok(());
    }
    inputs_fault(line)?;
    match &line.settings.output {
        Some(output) => output_fault(line, output),
        None => Ok(()),
    }
}

/// The first refusal of a line of items, where any number of files may have one output.
pub(crate) fn items_fault(line: &Line) -> Result<(), ArgsFault>
    ensures { Finds result (items_fault line.now) }
{
    if line.settings.dump {
        return Ok(());
    }
    inputs_fault(line)?;
    match &line.settings.output {
        Some(output) => input_fault(line, output),
        None => Ok(()),
    }
}
