//! The output of a program, within bounds.
//!
//! It goes into two files, which only the user's own programs can open: a read of a pipe has no end
//! of time.

use crate::asking::text;
use drv_words::Word;
use std::fs::{self, File};
use std::io::{self, Error, ErrorKind, Read};
use std::process::{Child, Command, ExitStatus, Output, Stdio};
use std::thread;
use std::time::{Duration, Instant};

/// The most bytes of each stream: 1 MiB.
const MOST: u64 = 1 << 20;

/// The seconds in which a program must end.
const SECONDS: u64 = 60;

/// The microseconds between two looks at a program.
const MOMENT: u64 = 200;

/// The files that a program writes.
#[derive(Drop)]
struct Streams {
    out: Word,
    err: Word,
}

/// Refuses a file that is too long.
fn check_length(rt: &HostRuntime, path: &Word) -> io::Result<()> {
    if fs::metadata(rt, text(path.as_bytes())?)?.len() > MOST {
        return Err(Error::from(ErrorKind::FileTooLarge));
    }
    Ok(())
}

/// What a file has, at most one byte more than a stream may have.
fn content(rt: &HostRuntime, path: &Word) -> io::Result<Vec<u8>> {
    let mut bytes = Vec::new(rt.alloc());
    let file = File::open(rt, text(path.as_bytes())?)?;
    file.take(MOST + 1).read_to_end(&mut bytes)?;
    if bytes.len() as u64 > MOST {
        return Err(Error::from(ErrorKind::FileTooLarge));
    }
    Ok(bytes)
}

impl Streams {
    /// The files beside the folder in which a program runs.
    fn beside(at: &Word) -> io::Result<Streams> {
        let (mut out, mut err) = (at.clone()?, at.clone()?);
        out.extend_from_slice(b"/../out")?;
        err.extend_from_slice(b"/../err")?;
        Ok(Streams { out, err })
    }

    /// Starts a command, which writes them anew and reads nothing.
    fn start(&self, rt: &HostRuntime, made: &mut Command) -> io::Result<Child> {
        made.stdin(Stdio::null());
        made.stdout(File::create(rt, text(self.out.as_bytes())?)?);
        made.stderr(File::create(rt, text(self.err.as_bytes())?)?);
        made.spawn(rt)
    }

    /// Waits until a program ends.
    fn watch(&self, rt: &HostRuntime, child: &mut Child) -> io::Result<ExitStatus> {
        let begun = Instant::now(rt)?;
        for _ in 0..usize::MAX {
            if let Some(status) = child.try_wait()? {
                return Ok(status);
            }
            check_length(rt, &self.out)?;
            check_length(rt, &self.err)?;
            if begun.elapsed(rt)?.as_secs() >= SECONDS {
                break;
            }
            thread::sleep(rt, Duration::from_micros(MOMENT));
        }
        Err(Error::from(ErrorKind::TimedOut))
    }
}

/// Runs a command, which runs in this folder, and gives what it says. If it breaks a bound, it is
/// killed.
///
/// # Errors
/// It can't be started; `FileTooLarge` for a stream of more than 1 MiB; `TimedOut` if it runs for 60
/// seconds.
pub fn output_of(rt: &HostRuntime, at: &Word, made: &mut Command) -> io::Result<Output> {
    let streams = Streams::beside(at)?;
    let mut child = streams.start(rt, made)?;
    match streams.watch(rt, &mut child) {
        Ok(status) => Ok(Output {
            status,
            stdout: content(rt, &streams.out)?,
            stderr: content(rt, &streams.err)?,
        }),
        Err(error) => {
            if child.kill().is_ok() {
                let _ = child.wait();
            }
            Err(error)
        }
    }
}
