// The market, with the kinds of messages that are built so far: market DISC MESSAGES.
#![tactic(auto)]

use session::program;
use std::process::ExitCode;
use wire::Kinds;

// None is built yet, so each message is refused by its report.
fn main(rt: HostRuntime) -> ExitCode {
    program(&rt, "market", Kinds::none())
}
