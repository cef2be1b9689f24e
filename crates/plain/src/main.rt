// The plain market, with every kind of message: plain DISC MESSAGES.
#![tactic(auto)]

use session::program;
use std::process::ExitCode;
use wire::Kinds;

fn main(rt: HostRuntime) -> ExitCode {
    program(&rt, "plain", Kinds::all())
}
