// Runs a table of jobs, which it reads from standard input: each stands behind a line `NAME BYTES` and is
// followed by a line feed. It writes each job's name, then its answer, and for a card what going there and back gave.
#![tactic(auto)]

ghost use Rattle.std.specs.Prelude.{◌<◌, length, IfSome};

mod circuit;
mod rounds;

use job::answer::answer;
use rounds::round;
use std::io::{Read, Write};

// The most bytes of a table.
const MOST: u64 = 1 << 20;

struct Trial<'a> {
    name: &'a [u8],
    job: &'a [u8],
    rest: &'a [u8],
}

// The name in a heading, which is what stands before its last space, and the number after it.
fn heading(line: &[u8]) -> Option<(&[u8], usize)> {
    let space = line.iter().rposition(|b| *b == b' ')?;
    let mut size = 0usize;
    for b in &line[space + 1..] {
        if b.is_ascii_digit() {
            size = size
                .saturating_mul(10)
                .saturating_add(usize::from(*b - b'0'));
        }
    }
    Some((&line[..space], size))
}

// The first job of a table, and what follows it.
fn cut_trial(table: &[u8]) -> Option<Trial<'_>>
    ensures { IfSome result (λ t. length t.rest.now < length table.now) }
{
    let end = table.iter().position(|b| *b == b'\n')?;
    let (name, size) = heading(&table[..end])?;
    let (job, after) = table[end + 1..].split_at_checked(size)?;
    let (_, rest) = after.split_first()?;
    Some(Trial { name, job, rest })
}

fn run(rt: &HostRuntime, table: &[u8]) -> anyhow::Result<()> {
    let mut left = table;
    while let Some(Trial { name, job, rest }) = cut_trial(left) {
        rt.stdout().write_all(name)?;
        rt.println("")?;
        rt.println(answer(job))?;
        if let Ok(round) = round(job) {
            rt.println(round)?;
        }
        left = rest;
    }
    Ok(())
}

fn main(rt: HostRuntime) -> anyhow::Result<()> {
    let mut table = Vec::new(rt.alloc());
    rt.stdin().take(MOST).read_to_end(&mut table)?;
    run(&rt, &table)
}
