// framedump once more, run on the cases for raw blocks: the gate runs a program once, with one list of arguments.
#![tactic(auto)]

use report::cli::framedump;
use std::process::ExitCode;

fn main(rt: HostRuntime) -> anyhow::Result<ExitCode> {
    framedump(rt)
}
