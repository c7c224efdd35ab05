//! The program `vata_check`.
#![tactic(auto)]

use std::env;
use std::process::ExitCode;
use vata_core::check_run;
use vata_outside::{RealErr, RealFiles, RealOut};

/// The status where the words of the command line can't be had.
const NO_WORDS: u8 = 9;

fn main(rt: HostRuntime) -> ExitCode {
    let Ok(words) = env::args(&rt) else {
        return ExitCode::from(NO_WORDS);
    };
    let Ok(words) = words.skip(1).collect::<Vec<String>>(rt.alloc()) else {
        return ExitCode::from(NO_WORDS);
    };
    let mut files = RealFiles::new(&rt);
    let mut out = RealOut::new(rt.stdout());
    let mut diag = RealErr::new(rt.stderr());
    let status = check_run(rt.alloc(), &words, &mut files, &mut out, &mut diag);
    ExitCode::from(status.number())
}
