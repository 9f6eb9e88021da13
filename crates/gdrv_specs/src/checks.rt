//! Prints what is found in spec files.

use crate::colouring::Style;
use crate::forms::Form;
use crate::printing::Printer;
use crate::requesting::Request;
use crate::warning_names::{is_off_by, warning_name, warning_text};
use drv_check::{
    FileCheck, Finding, MOST_FAULTS, Note, Place, Report, Source, Spot, Told, Warning, check_files,
    is_fault, is_full, place_in, push_back, push_front, report_json, report_text,
};
use drv_place::{line_after, line_before};
use drv_run::{Refusal, refusal_text};
use drv_system::{FactTable, System};
use drv_words::{Listing, Word};
use std::alloc::{AllocError, Global};

/// The most files that include one another.
const MOST_LEVELS: usize = 16;

/// The most findings that are printed.
const MOST_TOLD: usize = 100;

/// What is said of a spot.
fn note_text(alloc: Global, note: Note) -> Result<Word, AllocError> {
    match note {
        Note::Fault(fault) => refusal_text(alloc, &Refusal::Specs(fault)),
        Note::Warned(warning) => warning_text(alloc, warning),
    }
}

/// Adds where a source is included, where that source is included, and so on.
fn push_places(
    places: &mut Listing<Place>,
    sources: &[Source],
    from: Option<Spot>,
) -> Result<(), AllocError> {
    let mut next = from;
    for _ in 0..MOST_LEVELS {
        let Some(spot) = next else {
            return Ok(());
        };
        let Some(source) = sources.get(spot.source) else {
            return Ok(());
        };
        places.push(place_in(source, spot.at)?)?;
        next = source.from;
    }
    Ok(())
}

/// Adds the place of what a check prints, a window of its line, and where its file is included.
fn fill(told: &mut Told, sources: &[Source], source: &Source, at: usize) -> Result<(), AllocError> {
    let text = source.text.as_bytes();
    push_front(&mut told.before, line_before(text, at))?;
    push_back(&mut told.after, line_after(text, at))?;
    push_places(&mut told.from, sources, source.from)?;
    told.place = Some(place_in(source, at)?);
    Ok(())
}

/// The name of a warning.
fn name_of(alloc: Global, note: &Note) -> Result<Option<Word>, AllocError> {
    match note {
        Note::Fault(_) => Ok(None),
        Note::Warned(warning) => Ok(Some(Word::from_bytes(alloc, warning_name(*warning))?)),
    }
}

/// What a check prints of one finding.
fn told_of(alloc: Global, sources: &[Source], finding: Finding) -> Result<Told, AllocError> {
    let spot = finding.spot;
    let mut told = Told {
        place: None,
        is_error: is_fault(&finding.note),
        name: name_of(alloc, &finding.note)?,
        message: note_text(alloc, finding.note)?,
        before: Word::empty(alloc),
        after: Word::empty(alloc),
        from: Listing::new(alloc),
    };
    if let Some(spot) = spot
        && let Some(source) = sources.get(spot.source)
    {
        fill(&mut told, sources, source, spot.at)?;
    }
    Ok(told)
}

/// Whether a check prints this.
fn is_on(request: &Request, note: &Note) -> bool {
    match note {
        Note::Fault(_) => true,
        Note::Warned(warning) => {
            let off = request.off.as_slice();
            !off.iter()
                .any(|option| is_off_by(option.as_bytes(), *warning))
        }
    }
}

/// What a check prints of findings: of the first ones, as many as are printed.
fn all_told(
    alloc: Global,
    sources: &[Source],
    findings: Vec<Finding>,
) -> Result<Listing<Told>, AllocError> {
    let mut all = Listing::new(alloc);
    for finding in findings {
        if all.len() < MOST_TOLD {
            all.push(told_of(alloc, sources, finding)?)?;
        }
    }
    Ok(all)
}

/// The exit status for what a check finds.
fn verdict(request: &Request, findings: &[Finding]) -> u8 {
    if findings.iter().any(|finding| is_fault(&finding.note)) {
        return 2;
    }
    if request.strict && !findings.is_empty() {
        1
    } else {
        0
    }
}

/// Writes the faults of spec files to standard output and what is surely not meant, 100 of them at
/// most, each with its place (GCC manual, "Spec Files"). It reads the files and those that they include, and does
/// nothing else: it starts no program and makes, changes and removes no file. Answers the exit status.
pub fn tell_check<S: System>(
    alloc: Global,
    sys: &mut S,
    printer: &Printer,
    request: &Request,
) -> Result<u8, AllocError> {
    let check = FileCheck {
        whose: request.whose,
        over: request.over.as_slice(),
        names: request.files.as_slice(),
    };
    let checking = check_files(alloc, &check, sys, &mut FactTable::new(alloc))?;
    let ended = is_full(&checking, MOST_FAULTS);
    let mut findings = checking.findings.into_vec(alloc)?;
    findings.retain(|finding| is_on(request, &finding.note));
    let status = verdict(request, findings.as_slice());
    let more = findings.len().saturating_sub(MOST_TOLD);
    let report = Report {
        told: all_told(alloc, checking.sources.as_slice(), findings)?,
        unshown: if ended { None } else { Some(more) },
    };
    let (style, text) = match request.form {
        Form::Json => (Style::Plain, report_json(alloc, &report)?),
        _ => (Style::Findings, report_text(alloc, &report)?),
    };
    match printer.put(alloc, sys, style, &text)? {
        0 => Ok(status),
        failed => Ok(failed),
    }
}
