// The bench's program over plate files.
#![tactic(auto)]

mod roll_command;

use anyhow::anyhow;
use roll_command::roll_command;
use std::env;

const USAGE: &str = "usage: plates roll FILE...

  roll   classify the channels of each plate, and print its channels, triplets and units, or why it is refused
";

fn run(rt: &HostRuntime) -> anyhow::Result<()> {
    let mut args = env::args(rt)?;
    let _program = args.next();
    let Some(command) = args.next() else {
        rt.print(USAGE)?;
        return Ok(());
    };
    match command.as_str() {
        "roll" => roll_command(rt, args),
        _ => {
            rt.eprint(USAGE)?;
            Err(anyhow!("there is no such command"))
        }
    }
}

fn main(rt: HostRuntime) -> anyhow::Result<()> {
    run(&rt)
}
