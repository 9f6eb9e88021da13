//! What a call does.

ghost use Rattle.drv_run.specs.Drives.{telling_of, work_with};
ghost use Rattle.std.specs.Prelude.{◌≡◌};

use drv_args::Settings;
use drv_core::Window;
use drv_words::{Plan, Word};

/// What is said of a plan before it is carried out.
#[derive(Clone, Copy)]
pub enum Telling {
    /// Its notices.
    Notices,
    /// Its notices, and its commands.
    Commands,
}

/// How a plan is carried out.
#[derive(Clone, Copy)]
pub struct Manner {
    /// What is said of it first.
    pub telling: Telling,
    /// The exit status where a command failed.
    pub pass_codes: bool,
    /// How many sources are under way at once, at most.
    pub window: Window,
}

/// What a call does once it is not refused.
#[derive(Drop)]
pub enum Work {
    /// It writes this dump of the specs to standard output.
    Dump(Word),
    /// It says this plan, and starts nothing.
    Show(Plan),
    /// It carries this plan out.
    CarryOut { plan: Plan, manner: Manner },
}

/// What is said of a plan: with `-v` its commands too.
fn telling_of(settings: &Settings) -> Telling
    ensures { result ≡ telling_of settings.now }
{
    if settings.verbose {
        Telling::Commands
    } else {
        Telling::Notices
    }
}

/// What is done with the plan of a line: with `-###` it is shown, and otherwise it is carried out.
pub(crate) fn work_with(settings: &Settings, plan: Plan) -> Work
    ensures { result ≡ work_with settings.now plan }
{
    if settings.dry {
        return Work::Show(plan);
    }
    let manner = Manner {
        telling: telling_of(settings),
        pass_codes: settings.pass_codes,
        window: Window::new(settings.jobs.number()),
    };
    Work::CarryOut { plan, manner }
}
