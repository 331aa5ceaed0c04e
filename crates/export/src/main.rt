// The program `export`: see crate `programs`.
#![tactic(auto)]

use std::process::ExitCode;

fn main(rt: HostRuntime) -> ExitCode {
    programs::lemontiller_export(&rt).into()
}
