// The command line.
use clap::{Arg, ArgAction, Command};
use std::alloc::{AllocError, Global};

/// What `stage` takes from its command line, by the names `echo` and `FILE`.
pub(crate) fn command<'a>(heap: Global) -> Result<Command<'a>, AllocError> {
    let echo = Arg::new(heap, "echo")
        .long("echo")
        .action(ArgAction::SetTrue)
        .help("Prints each line with its number before its outcome");
    let file = Arg::new(heap, "FILE").help("The script, in place of standard input");
    Command::new(heap, "stage")
        .version("1.0")
        .about("Makes the calls of a script on one hub, and prints what each told")
        .arg(echo)?
        .arg(file)
}
