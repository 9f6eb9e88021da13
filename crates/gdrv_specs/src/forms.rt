//! The forms in which a plan is printed.

ghost use Rattle.gdrv_specs.specs.Forms.{form_text};
ghost use Rattle.gdrv_specs.specs.declared.forms.Form.TheVariants.{Json};
ghost use Rattle.std.specs.Prelude.{◌≡◌, IfOk};

use drv_forms::{plan_json, script};
use drv_words::{Plan, Word, render_plan};
use std::alloc::{AllocError, Global};

/// A form in which a plan is printed.
#[derive(Clone, Copy)]
pub enum Form {
    /// Its commands as `-###` prints them.
    Lines,
    /// JSON.
    Json,
    /// A script of the shell.
    Script,
}

/// A plan as JSON, with a newline at its end.
fn json_line(alloc: Global, plan: &Plan) -> Result<Word, AllocError>
    ensures { IfOk result (λ text. text ≡ form_text Json plan.now) }
{
    let mut text = plan_json(alloc, plan)?;
    text.push(b'\n')?;
    Ok(text)
}

/// The text of a plan in a form.
pub fn form_text(alloc: Global, form: Form, plan: &Plan) -> Result<Word, AllocError>
    ensures { IfOk result (λ text. text ≡ form_text form plan.now) }
{
    match form {
        Form::Lines => render_plan(alloc, plan),
        Form::Json => json_line(alloc, plan),
        Form::Script => script(alloc, plan),
    }
}
