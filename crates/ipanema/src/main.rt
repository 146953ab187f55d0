//! The program `ipanema`: it checks scheduling policies and explains what fails, plays traces of jobs under them,
//! judges and reports histories, makes traces, and tells what those come to.
#![tactic(auto)]

mod arguments;
mod process;

use process::{Ended, carry_out};
use sched_io::DiskFiles;
use std::process::ExitCode;
use std::{env, io};

fn main(rt: HostRuntime) -> ExitCode {
    let mut files = DiskFiles::new(&rt);
    let Ended { code, writer: _ } = carry_out(
        &rt,
        rt.alloc(),
        env::args(&rt),
        &mut files,
        io::writer(&rt),
    );
    code
}
