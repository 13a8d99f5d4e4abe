// Replays calls on the counters of tables. Each line of standard input begins a new table or makes a call:
//   table BURST STEP BURST STEP BURST STEP BURST STEP   by number, 0 0 for a number without a staircase
//   ticks COUNT
//   sample            answered by 'accepted' or by 'refused' and the number of a staircase
//   bound HORIZON     answered by 'bound' and a count
#![tactic(auto)]

mod calls;
mod lines;

use anyhow::anyhow;
use calls::made;
use lines::{Line, line_of};
use staircase::Counters;
use std::io::{BufRead, BufReader};

fn run(rt: &HostRuntime) -> anyhow::Result<()> {
    let heap = rt.alloc();
    let mut lines = BufReader::new(heap, rt.stdin())?.lines(heap);
    // a `match` or `if let` would be no plainer: without input there is nothing more to do
    let Some(first) = lines.next() else {
        return Ok(());
    };
    let Line::Begin(table) = line_of(heap, first?.as_str())? else {
        return Err(anyhow!("the first line is no table"));
    };
    let mut counters = Counters::new(table);
    for line in lines {
        match line_of(heap, line?.as_str())? {
            Line::Begin(table) => counters = Counters::new(table),
            Line::Make(call) => {
                if let Some(answer) = made(&mut counters, call) {
                    println!(rt; "{answer}")?;
                }
            }
        }
    }
    Ok(())
}

fn main(rt: HostRuntime) -> anyhow::Result<()> {
    run(&rt)
}
