//! A program over `closed_loop`. It reads a capture from standard input, and writes the recording that its client and server would have made
//! under a scenario. Its arguments are the scenario's text and, if wanted, `in-turn`, `free-client` and `free-server`.
#![tactic(auto)]

use anyhow::{Context, Result, bail};
use closed_loop::{LoopFault, Manners, closed_loop};
use lists::Values;
use scenarios::{Hosts, read_scenario};
use std::env;
use std::io::{Read, Write};

const ROUNDS: u64 = 10_000;

fn main(rt: HostRuntime) -> Result<()> {
    let mut capture = Vec::new(rt.alloc());
    let _ = rt.stdin().read_to_end(&mut capture)?;
    let words = env::args(&rt)?;
    let mut manners = Manners {
        client_waits: true,
        server_waits: true,
        in_turn: false,
    };
    for word in words.skip(2) {
        match word.as_str() {
            "in-turn" => manners.in_turn = true,
            "free-client" => manners.client_waits = false,
            "free-server" => manners.server_waits = false,
            _ => bail!("an option is unknown: in-turn, free-client and free-server are known"),
        }
    }
    let text = env::args(&rt)?.nth(1).context("no scenario")?;
    let scenario = read_scenario(rt.alloc(), text.as_bytes(), &Hosts::new(rt.alloc()))?;
    let mut scenarios = Vec::new(rt.alloc());
    scenarios.push(scenario)?;
    match closed_loop(
        rt.alloc(),
        &capture,
        Values::of(scenarios),
        0,
        manners,
        ROUNDS,
    ) {
        Ok(found) => rt.stdout().write_all(&found.recording)?,
        Err(LoopFault::NotSettled) => bail!("not settled after {ROUNDS} rounds"),
        Err(LoopFault::Refused(fault)) => bail!("refused: {fault:?}"),
        Err(_) => bail!("no closed loop"),
    }
    Ok(())
}
