// The program `shell`: see crate `programs`.
#![tactic(auto)]

use std::process::ExitCode;

fn main(rt: HostRuntime) -> ExitCode {
    programs::lemontiller_shell(&rt).into()
}
