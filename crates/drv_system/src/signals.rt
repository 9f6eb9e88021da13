//! The signals that end a command.

/// The signal that ends a process which writes into a pipe without a reader.
pub const PIPE: i32 = 13;

/// What `strsignal` of the C library says of the signals from 1 on.
const NAMES: [&str; 31] = [
    "Hangup",
    "Interrupt",
    "Quit",
    "Illegal instruction",
    "Trace/breakpoint trap",
    "Aborted",
    "Bus error",
    "Floating point exception",
    "Killed",
    "User defined signal 1",
    "Segmentation fault",
    "User defined signal 2",
    "Broken pipe",
    "Alarm clock",
    "Terminated",
    "Stack fault",
    "Child exited",
    "Continued",
    "Stopped (signal)",
    "Stopped",
    "Stopped (tty input)",
    "Stopped (tty output)",
    "Urgent I/O condition",
    "CPU time limit exceeded",
    "File size limit exceeded",
    "Virtual timer expired",
    "Profiling timer expired",
    "Window changed",
    "I/O possible",
    "Power failure",
    "Bad system call",
];

/// The name of a signal, as gcc prints it.
pub fn signal_name(signal: i32) -> &'static str {
    match usize::try_from(signal) {
        Ok(number) if 1 <= number && number <= NAMES.len() => NAMES[number - 1],
        _ => "Unknown",
    }
}

/// Whether a signal says that the command itself failed. INT, QUIT, KILL and TERM are sent by a user
/// or the system (`execute` of gcc's driver), and PIPE follows from the failure of another command.
pub fn is_crash(signal: i32) -> bool {
    !matches!(signal, 2 | 3 | 9 | PIPE | 15)
}
