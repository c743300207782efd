//! `cukecheck`: reads Cucumber Messages or a feature file, and prints what it finds to standard output.
#![tactic(auto)]

use ck_commands::{ExitStatus, run_over};
use files::{OpenedFiles, SystemOpener};
use std::alloc::{AllocError, Global};
use std::hash::RandomState;
use std::process::ExitCode;
use std::{env, io};

/// What standard error says where the status is that of trouble.
const NOT_UTF8: &str = "cukecheck: an argument isn't UTF-8";

const NO_MEMORY: &str = "cukecheck: there is no memory for the arguments";

const NO_SEED: &str = "cukecheck: the system gives no random bytes for the seed of its maps";

const SAID: &str = "cukecheck: standard output says why, unless it couldn't be written";

/// The words of the command line, without the name of the program.
fn words_after_first(alloc: Global, given: &Vec<String>) -> Result<Vec<&str>, AllocError> {
    let mut words = Vec::new(alloc);
    for word in given.iter().skip(1) {
        words.push(word.as_str())?;
    }
    Ok(words)
}

/// The arguments of the program, or what keeps them from being read.
fn arguments(rt: &HostRuntime) -> Result<Vec<String>, &'static str> {
    match env::args(rt) {
        Ok(given) => given.collect(rt.alloc()).map_err(|_| NO_MEMORY),
        Err(error) => Err(if error.kind() == io::ErrorKind::InvalidData {
            NOT_UTF8
        } else {
            NO_MEMORY
        }),
    }
}

/// The status of a run, or what keeps its arguments from being read.
fn status_of(rt: &HostRuntime) -> Result<u8, &'static str> {
    let given = arguments(rt)?;
    let words = words_after_first(rt.alloc(), &given).map_err(|_| NO_MEMORY)?;
    let seed = RandomState::new(rt).map_err(|_| NO_SEED)?;
    let files = OpenedFiles::new(rt.alloc(), SystemOpener::new(*rt));
    let ended = run_over(
        rt.alloc(),
        seed,
        words.as_slice(),
        files,
        rt.stdin(),
        rt.stdout(),
    );
    Ok(ended.code)
}

/// Runs the command, and says on standard error where its status is that of trouble.
fn main(rt: HostRuntime) -> ExitCode {
    let (status, trouble) = match status_of(&rt) {
        Ok(status) => (status, SAID),
        Err(trouble) => (ExitStatus::Trouble.code(), trouble),
    };
    if status == ExitStatus::Trouble.code() {
        let _ = rt.eprintln(trouble).is_ok();
    }
    ExitCode::from(status)
}
