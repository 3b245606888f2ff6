//! A program over the library, as a user would write one. It rehearses a capture from standard input under one scenario without
//! proxies, and writes the output capture to standard output.
#![tactic(auto)]

use anyhow::{Context, Result};
use scenarios::{Hosts, read_scenario};
use std::io::{Read, Write};
use toxicap::{Plan, Through, rehearse};

fn main(rt: HostRuntime) -> Result<()> {
    let mut capture = Vec::new(rt.alloc());
    let _ = rt.stdin().read_to_end(&mut capture)?;
    let scenario = read_scenario(rt.alloc(), b"[]", &Hosts::new(rt.alloc()))?;
    let plan = Plan::new(1, 4096).context("no such plan")?;
    let outputs = rehearse(&rt, rt.alloc(), &capture, &[scenario], 0, plan, &Through)?;
    for output in outputs.as_slice() {
        // output.report is the text of the same scenario
        rt.stdout().write_all(output.capture.as_slice())?;
    }
    Ok(())
}
