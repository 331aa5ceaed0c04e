// The program `load`: see crate `programs`.
#![tactic(auto)]

use std::process::ExitCode;

fn main(rt: HostRuntime) -> ExitCode {
    programs::lemontiller_load(&rt).into()
}
