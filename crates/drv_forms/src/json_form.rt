//! A plan as JSON.

ghost use Rattle.drv_forms.specs.Fits.{IsPlan};
ghost use Rattle.drv_forms.specs.PlanJson.{command_json, group_json, items_json, job_files, job_json};
ghost use Rattle.drv_forms.specs.PlanJson.{list_json, number_json, option_json, temp_json};
ghost use Rattle.drv_forms.specs.PlanJson.{plan_json as json_of_plan, word_json, words_json};
ghost use Rattle.drv_forms.specs.PlanOfJson.{plan_of};
ghost use Rattle.json.specs.Json.{document};
ghost use Rattle.json.specs.Layout.{pretty};
ghost use Rattle.json.specs.Token.{key};
ghost use Rattle.json.specs.Tree.{items_tokens, json_tokens, members_tokens};
ghost use Rattle.std.specs.Prelude.{◌≡◌, ◌∷◌, ◌++◌, [], IfOk, OnOk, Some, option_and_then};

use drv_words::{Command, Group, Job, Listing, Plan, Temp, Word};
use itoa::Buffer;
use json::{Pretty, Token};
use std::alloc::{AllocError, Global};
use std::str::from_utf8;

/// Writes a number.
pub fn put_number(out: &mut Pretty, number: usize) -> Result<(), AllocError>
    ensures { OnOk result (out.new ≡ out.old ++ json_tokens (number_json number)) }
{
    let mut buffer = Buffer::new();
    out.token(Token::Number(buffer.format(number)))
}

/// Writes bytes as an array.
fn put_bytes(out: &mut Pretty, bytes: &[u8]) -> Result<(), AllocError>
    ensures { OnOk result (out.new ≡ out.old ++ json_tokens (list_json number_json bytes.now)) }
{
    out.token(Token::BeginArray)?;
    for &byte in bytes {
        put_number(out, usize::from(byte))?;
    }
    out.token(Token::EndArray)
}

/// Writes a word: a string, or the list of its bytes where these aren't UTF-8.
pub fn put_word(out: &mut Pretty, word: &Word) -> Result<(), AllocError>
    ensures { OnOk result (out.new ≡ out.old ++ json_tokens (word_json word.now)) }
{
    match from_utf8(word.as_bytes()) {
        Ok(text) => out.token(Token::String(text)),
        Err(_) => put_bytes(out, word.as_bytes()),
    }
}

/// Writes words as the items of an array that was begun, and ends it.
fn put_last_words(out: &mut Pretty, words: &[Word]) -> Result<(), AllocError>
    ensures { OnOk result (out.new ≡ out.old ++ items_tokens (items_json word_json words.now)) }
{
    for word in words {
        put_word(out, word)?;
    }
    out.token(Token::EndArray)
}

/// Writes words as an array.
pub fn put_words(out: &mut Pretty, words: &[Word]) -> Result<(), AllocError>
    ensures { OnOk result (out.new ≡ out.old ++ json_tokens (words_json words.now)) }
{
    out.token(Token::BeginArray)?;
    put_last_words(out, words)
}

/// Writes a command as the array of its words.
pub(crate) fn put_command(out: &mut Pretty, command: &Command) -> Result<(), AllocError>
    ensures { OnOk result (out.new ≡ out.old ++ json_tokens (command_json command.now)) }
{
    out.token(Token::BeginArray)?;
    put_word(out, &command.program)?;
    put_last_words(out, command.words.as_slice())
}

/// Writes a group as the array of its commands.
fn put_group(out: &mut Pretty, group: &Group) -> Result<(), AllocError>
    ensures { OnOk result (out.new ≡ out.old ++ json_tokens (group_json group.now)) }
{
    out.token(Token::BeginArray)?;
    for command in group.as_slice() {
        put_command(out, command)?;
    }
    out.token(Token::EndArray)
}

/// Writes groups as an array.
fn put_groups(out: &mut Pretty, groups: &[Group]) -> Result<(), AllocError>
    ensures { OnOk result (out.new ≡ out.old ++ json_tokens (list_json group_json groups.now)) }
{
    out.token(Token::BeginArray)?;
    for group in groups {
        put_group(out, group)?;
    }
    out.token(Token::EndArray)
}

/// Writes a temporary file as an object.
fn put_temp(out: &mut Pretty, temp: &Temp) -> Result<(), AllocError>
    ensures { OnOk result (out.new ≡ out.old ++ json_tokens (temp_json temp.now)) }
{
    out.token(Token::BeginObject)?;
    out.token(Token::Key("path"))?;
    put_word(out, &temp.path)?;
    out.token(Token::Key("contents"))?;
    put_word(out, &temp.contents)?;
    out.token(Token::EndObject)
}

/// Writes temporary files as an array.
fn put_temps(out: &mut Pretty, temps: &[Temp]) -> Result<(), AllocError>
    ensures { OnOk result (out.new ≡ out.old ++ json_tokens (list_json temp_json temps.now)) }
{
    out.token(Token::BeginArray)?;
    for temp in temps {
        put_temp(out, temp)?;
    }
    out.token(Token::EndArray)
}

/// Writes the place of a source, or `null`.
fn put_source(out: &mut Pretty, source: Option<usize>) -> Result<(), AllocError>
    ensures { OnOk result (out.new ≡ out.old ++ json_tokens (option_json number_json source)) }
{
    match source {
        Some(number) => put_number(out, number),
        None => out.token(Token::Null),
    }
}

/// Writes the name of an output, or `null`.
fn put_output(out: &mut Pretty, output: &Option<Word>) -> Result<(), AllocError>
    ensures { OnOk result (out.new ≡ out.old ++ json_tokens (option_json word_json output.now)) }
{
    match output {
        Some(word) => put_word(out, word),
        None => out.token(Token::Null),
    }
}

/// Writes a member whose value is an array of words.
fn put_named_words(out: &mut Pretty, name: &str, words: &Listing<Word>) -> Result<(), AllocError>
    ensures { OnOk result (out.new
        ≡ out.old ++ key name.now ∷ json_tokens (words_json words.now)) }
{
    out.token(Token::Key(name))?;
    put_words(out, words.as_slice())
}

/// Writes the members of a job that name files, and ends it.
fn put_job_files(out: &mut Pretty, job: &Job) -> Result<(), AllocError>
    ensures { OnOk result (out.new ≡ out.old ++ members_tokens (job_files job.now)) }
{
    out.token(Token::Key("temps"))?;
    put_temps(out, job.temps.as_slice())?;
    put_named_words(out, "marked", &job.marked)?;
    put_named_words(out, "on_failure", &job.on_failure)?;
    out.token(Token::Key("output"))?;
    put_output(out, &job.output)?;
    out.token(Token::EndObject)
}

/// Writes a job as an object.
fn put_job(out: &mut Pretty, job: &Job) -> Result<(), AllocError>
    ensures { OnOk result (out.new ≡ out.old ++ json_tokens (job_json job.now)) }
{
    out.token(Token::BeginObject)?;
    out.token(Token::Key("source"))?;
    put_source(out, job.source)?;
    out.token(Token::Key("groups"))?;
    put_groups(out, job.groups.as_slice())?;
    put_job_files(out, job)
}

/// Writes jobs as an array.
fn put_jobs(out: &mut Pretty, jobs: &[Job]) -> Result<(), AllocError>
    ensures { OnOk result (out.new ≡ out.old ++ json_tokens (list_json job_json jobs.now)) }
{
    out.token(Token::BeginArray)?;
    for job in jobs {
        put_job(out, job)?;
    }
    out.token(Token::EndArray)
}

/// Writes the link, or `null`.
fn put_link(out: &mut Pretty, link: &Option<Job>) -> Result<(), AllocError>
    ensures { OnOk result (out.new ≡ out.old ++ json_tokens (option_json job_json link.now)) }
{
    match link {
        Some(job) => put_job(out, job),
        None => out.token(Token::Null),
    }
}

/// Writes a plan as an object.
fn put_plan(out: &mut Pretty, plan: &Plan) -> Result<(), AllocError>
    ensures { OnOk result (out.new ≡ out.old ++ json_tokens (json_of_plan plan.now)) }
{
    out.token(Token::BeginObject)?;
    put_named_words(out, "notices", &plan.notices)?;
    out.token(Token::Key("jobs"))?;
    put_jobs(out, plan.jobs.as_slice())?;
    out.token(Token::Key("link"))?;
    put_link(out, &plan.link)?;
    out.token(Token::EndObject)
}

/// The text of a plan in JSON, with a line for each item and member, which ends without a newline.
/// A word is a string, or the list of its bytes where these aren't UTF-8. Read as JSON it gives
/// the plan back.
pub fn plan_json(alloc: Global, plan: &Plan) -> Result<Word, AllocError>
    ensures text { IfOk result (λ text. text ≡ pretty (json_tokens (json_of_plan plan.now))) }
    ensures document { IfOk result (λ text. document text ≡ Some (json_of_plan plan.now)) }
    ensures reads_back { IfOk result (λ text. IsPlan plan.now
        → option_and_then plan_of (document text) ≡ Some plan.now) }
{
    let mut out = Pretty::new(alloc);
    put_plan(&mut out, plan)?;
    Ok(Word::from_vec(out.into_inner()))
}
