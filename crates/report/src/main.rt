// Reports on dumps: what opens is listed, and what does not open is told with its slip.
#![tactic(auto)]

mod dumps;

use anyhow::ensure;
use dumps::Outcome;
use std::{env, fmt};

const RULE: &str =
    "--------------------------------------------------------------------------------";

// How many dumps opened, were refused, and could not be read.
#[derive(Clone, Copy, Default, PartialEq, Eq)]
struct Tally {
    opened: usize,
    refused: usize,
    unread: usize,
}

impl Tally {
    fn add(&mut self, outcome: Outcome) {
        match outcome {
            Outcome::Opened => self.opened = self.opened.saturating_add(1),
            Outcome::Refused => self.refused = self.refused.saturating_add(1),
            Outcome::Unread => self.unread = self.unread.saturating_add(1),
        }
    }
}

impl fmt::Display for Tally {
    fn fmt<W: fmt::Write>(&self, f: &mut fmt::Formatter<W>) -> fmt::Result {
        let Tally {
            opened,
            refused,
            unread,
        } = *self;
        write!(
            f,
            "{opened} opened, {refused} refused, {unread} could not be read"
        )
    }
}

// The report on all that has this prefix.
fn report_on(rt: &HostRuntime, prefix: &str, tally: &mut Tally) -> anyhow::Result<()> {
    let tape = dumps::any_there(rt, prefix, &dumps::TAPE)?;
    if tape {
        println!(rt; "\nTAPE {prefix}\n{RULE}")?;
        tally.add(dumps::tape(rt, prefix)?);
    }
    let schema = dumps::any_there(rt, prefix, &dumps::SCHEMA)?;
    if schema {
        println!(rt; "\nSCHEMA {prefix}\n{RULE}")?;
        tally.add(dumps::schema(rt, prefix)?);
    }
    if !tape && !schema {
        println!(rt; "\nNOTHING {prefix}\n{RULE}")?;
        println!(rt; "  no file of a tape dump ({prefix}.elements, .texts, .offsets)")?;
        println!(rt; "  and none of a schema dump ({prefix}.records, .names)")?;
        tally.add(Outcome::Unread);
    }
    Ok(())
}

// The report on every prefix that was given.
fn run(rt: &HostRuntime) -> anyhow::Result<()> {
    let mut tally = Tally::default();
    println!(rt; "FRAME SHELF REPORT")?;
    for prefix in env::args(rt)?.skip(1) {
        report_on(rt, prefix.as_str(), &mut tally)?;
    }
    ensure!(
        tally != Tally::default(),
        "nothing to report on: give the prefix of a dump"
    );
    println!(rt; "\n{RULE}\n{tally}")?;
    ensure!(tally.unread == 0, "not every dump could be read");
    Ok(())
}

fn main(rt: HostRuntime) -> anyhow::Result<()> {
    run(&rt)
}
