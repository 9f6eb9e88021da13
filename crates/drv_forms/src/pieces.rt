//! The fixed texts of a script.

ghost use Rattle.drv_forms.specs.Pieces.{text};
ghost use Rattle.std.specs.Prelude.{◌≡◌, ◌++◌, OnOk};

use std::alloc::AllocError;

/// A fixed text of a script.
#[derive(Clone, Copy, Debug)]
pub enum Piece {
    /// The head of the script: its functions, and what is removed at its end. The positional
    /// parameters are those files; 4 is standard output, which a pipe's last command gets back.
    /// A command is a program, looked for along PATH as `exec` does, and no word, function or
    /// utility of the shell's own. A signal is noted, and the script ends outside of functions,
    /// which have other parameters.
    Opening,
    /// The stem of temporaries is.
    Stem,
    /// A private folder is made beside them, by this template.
    Folder,
    /// Where it is made, the stem is its name between slashes.
    NewStem,
    /// A notice is said.
    Say,
    /// Who says it.
    Driver,
    /// It is said on standard error.
    ToError,
    /// A file is put among those that are removed at the end.
    Keep,
    /// A temporary is claimed.
    Claim,
    /// What follows is done where that was.
    Then,
    /// So is the next line.
    ThenNext,
    /// A command that is in no pipe is run.
    Run,
    /// The first command of a pipe is looked for.
    Start,
    /// A pipe begins.
    Pipe,
    /// A further command of a pipe.
    Into,
    /// A pipe ends, and fails where a command of it did.
    EndPipe,
    /// A job begins, unless a signal has come. No command of it was started yet.
    NotStarted,
    /// What a fault of a job does: its failure files are removed if a command of it was started.
    Fault,
    /// That ends.
    EndFault,
    /// The link is run where no source failed.
    Unless,
    /// The status.
    Status,
}

const OPENING: &[u8] = b"#!/bin/sh
set -e
{ command exec 4>&1; } 2>/dev/null || exec 4>/dev/null
set --
gdrv_failed= gdrv_started= gdrv_stopped= gdrv_pipe= gdrv_file= gdrv_folder= gdrv_stem=
remove() { for gdrv_file; do if test -f \"$gdrv_file\" && ! test -L \"$gdrv_file\"; then rm -f -- \"$gdrv_file\"; fi; done; }
claim() { (umask 077; set -C; printf %s \"$2\" >\"$1\"); }
is_program() { test -f \"$1\" && test -x \"$1\"; }
is_found() (
case $1 in -*) exit 1 ;; */*) is_program \"$1\" && exit 0 || exit 1 ;; esac
set -f; IFS=:; gdrv_file=$PATH:
for gdrv_file in $gdrv_file; do if is_program \"${gdrv_file:-.}/$1\"; then exit 0; fi; done; exit 1
)
starts() { test -z \"$gdrv_stopped\" && is_found \"$1\" && gdrv_started=yes; }
run() { starts \"$1\" && (exec \"$@\" 4>&-) && test -z \"$gdrv_stopped\"; }
member() { (exec \"$@\" 3>&- 4>&-) || echo failed >&3; }
trap 'remove \"$@\" || :; test -z \"$gdrv_folder\" || rmdir -- \"$gdrv_folder\" || :' EXIT
trap gdrv_stopped=yes HUP INT TERM
";

/// The text of a piece.
#[tactic(auto, unfolding(crate::specs::Pieces::text))]
fn bytes(piece: Piece) -> &'static [u8]
    ensures { result.now ≡ text piece }
{
    match piece {
        Piece::Opening => OPENING,
        Piece::Stem => b"gdrv_stem=",
        Piece::Folder => b"\ngdrv_folder=$(mktemp -d --",
        Piece::NewStem => b") && gdrv_stem=/${gdrv_folder##*/}/\n",
        Piece::Say => b"printf '%s\\n'",
        Piece::Driver => b"gdrv: ",
        Piece::ToError => b" >&2 || :\n",
        Piece::Keep => b"set -- \"$@\"",
        Piece::Claim => b"claim",
        Piece::Then => b" && ",
        Piece::ThenNext => b" &&\n",
        Piece::Run => b"run",
        Piece::Start => b"starts",
        Piece::Pipe => b" && gdrv_pipe=$({ member",
        Piece::Into => b" | member",
        Piece::EndPipe => b" >&4; } 3>&1) && test -z \"$gdrv_pipe$gdrv_stopped\" &&\n",
        Piece::NotStarted => b"test -z \"$gdrv_stopped\" || exit 1\ngdrv_started=\n",
        Piece::Fault => b": || {\ngdrv_failed=yes\ntest -z \"$gdrv_started\" || remove",
        Piece::EndFault => b" || :\n}\n",
        Piece::Unless => b"test -z \"$gdrv_failed\" || exit 1\n",
        Piece::Status => b"test -z \"$gdrv_failed\"\n",
    }
}

/// Adds a piece.
pub(crate) fn push_piece(script: &mut Vec<u8>, piece: Piece) -> Result<(), AllocError>
    ensures { OnOk result (script.new.items ≡ script.old.items ++ text piece) }
{
    script.extend_from_slice(bytes(piece))
}
