// framedump: tells what each datagram of a capture says, or why it is none.
#![tactic(auto)]

use report::cli::framedump;
use std::process::ExitCode;

fn main(rt: HostRuntime) -> anyhow::Result<ExitCode> {
    framedump(rt)
}
