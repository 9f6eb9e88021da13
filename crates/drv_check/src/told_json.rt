//! What a check prints of findings, as JSON.

use crate::told::{Place, Report, Told, kind_text};
use drv_forms::{put_number, put_word};
use drv_words::Word;
use json::{Pretty, Token};
use std::alloc::{AllocError, Global};

/// Writes a place as an object.
fn put_place(out: &mut Pretty, place: &Place) -> Result<(), AllocError> {
    out.token(Token::BeginObject)?;
    out.token(Token::Key("file"))?;
    put_word(out, &place.file)?;
    out.token(Token::Key("line"))?;
    put_number(out, place.line)?;
    out.token(Token::Key("column"))?;
    put_number(out, place.column)?;
    out.token(Token::EndObject)
}

/// Writes one finding as an object.
fn put_told(out: &mut Pretty, told: &Told) -> Result<(), AllocError> {
    out.token(Token::BeginObject)?;
    out.token(Token::Key("place"))?;
    match &told.place {
        Some(place) => put_place(out, place)?,
        None => out.token(Token::Null)?,
    }
    out.token(Token::Key("kind"))?;
    out.token(Token::String(kind_text(told.is_error)))?;
    out.token(Token::Key("warning"))?;
    match &told.name {
        Some(name) => put_word(out, name)?,
        None => out.token(Token::Null)?,
    }
    out.token(Token::Key("message"))?;
    put_word(out, &told.message)?;
    out.token(Token::Key("included_from"))?;
    out.token(Token::BeginArray)?;
    for place in told.from.as_slice() {
        put_place(out, place)?;
    }
    out.token(Token::EndArray)?;
    out.token(Token::EndObject)
}

/// A report as JSON: an object with an array of an object for each finding, and how many more there
/// are, with a newline at its end. A word is a string, or the list of its bytes where these aren't
/// UTF-8.
pub fn report_json(alloc: Global, report: &Report) -> Result<Word, AllocError> {
    let mut out = Pretty::new(alloc);
    out.token(Token::BeginObject)?;
    out.token(Token::Key("findings"))?;
    out.token(Token::BeginArray)?;
    for told in report.told.as_slice() {
        put_told(&mut out, told)?;
    }
    out.token(Token::EndArray)?;
    out.token(Token::Key("unshown"))?;
    match report.unshown {
        Some(more) => put_number(&mut out, more)?,
        None => out.token(Token::Null)?,
    }
    out.token(Token::EndObject)?;
    let mut text = Word::from_vec(out.into_inner());
    text.push(b'\n')?;
    Ok(text)
}
