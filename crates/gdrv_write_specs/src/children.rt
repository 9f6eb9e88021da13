//! What a gcc gives its children: variables. A line `child` has one, after the options of a line by
//! which it is given or not.

use crate::asking::Gcc;
use crate::choosing::add_option;
use crate::fault::Fault;
use crate::rows::{SHOWING, multilibs};
use crate::texts::add_all;
use drv_gcc::values;
use drv_words::Word;

/// The variables that are the same for each machine.
const VARIABLES: [&[u8]; 4] = [
    b"COLLECT_LTO_WRAPPER=",
    b"OFFLOAD_TARGET_NAMES=",
    b"OFFLOAD_TARGET_DEFAULT=",
    b"COMPILER_PATH=",
];

/// The variable of the folders of libraries.
const LIBRARIES: &[u8] = b"LIBRARY_PATH=";

/// Adds the line for the folders of libraries of a gcc with its options, if it names some. Lines with
/// other options have others.
fn push_path(gcc: Gcc<'_>, text: &mut Word, others: &[u8]) -> Result<(), Fault> {
    let shown = gcc.ask(SHOWING)?;
    if let Some(path) = values(gcc.alloc(), LIBRARIES, shown.err.as_bytes())?.pop() {
        add_all(text, &[b"child ", gcc.options, b"\t", others, b"\t"])?;
        add_all(text, &[LIBRARIES, path.as_bytes(), b"\n"])?;
    }
    Ok(())
}

/// Adds the lines for what a gcc says of itself and gives its children, the folders of libraries
/// also for each option of one word that has libraries of its own.
pub fn push_children(gcc: Gcc<'_>, text: &mut Word, said: &[Word]) -> Result<(), Fault> {
    for line in said {
        if VARIABLES
            .iter()
            .any(|name| line.as_bytes().starts_with(name))
        {
            add_all(text, &[b"child \t\t", line.as_bytes(), b"\n"])?;
        }
    }
    let mut others = Word::empty(gcc.alloc());
    for option in multilibs(gcc)?.as_slice() {
        if !option.as_bytes().contains(&b' ') {
            push_path(gcc.with(option.as_bytes()), text, b"")?;
            add_option(&mut others, option.as_bytes())?;
        }
    }
    push_path(gcc, text, others.as_bytes())
}
