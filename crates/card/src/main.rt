// Reads one job from standard input, and writes its card or its refusal. With the argument `--steps`, what each
// step did goes to standard error.
#![tactic(auto)]

use field::Field;
use gates::bit_form;
use job::answer::answer;
use job::open::{Work, open};
use job::parts::LIMIT;
use std::env;
use std::io::Read;
use terms::nets::Nets;
use terms::{Kind, Term};

// The rows of the work table.
const ROWS: usize = 512;

// Says what opening the job and working it into bits did.
fn tell_steps(rt: &HostRuntime, work: &Work) -> anyhow::Result<()> {
    let Work { field, netlist } = work;
    let words = netlist.words();
    let width = field.width();
    let polynomial = field.modulus();
    let gates = netlist.nets() - netlist.inputs();
    eprintln!(rt;
        "read: {words} words of {width} bits, {gates} gates, field polynomial {polynomial}"
    )?;
    let mut rows = [Term {
        code: 0,
        mono: Nets.unit(),
    }; ROWS];
    if let Ok(terms) = bit_form(netlist, &mut rows) {
        eprintln!(rt; "gates to bits: {terms} bit terms")?;
    }
    Ok(())
}

// Whether the first argument is `--steps`.
fn wants_steps(rt: &HostRuntime) -> anyhow::Result<bool> {
    let word = env::args(rt)?.nth(1);
    Ok(word.is_some_and(|w| w.as_str() == "--steps"))
}

fn main(rt: HostRuntime) -> anyhow::Result<()> {
    let mut job = Vec::new(rt.alloc());
    rt.stdin().take(LIMIT as u64 + 1).read_to_end(&mut job)?;
    if wants_steps(&rt)?
        && let Ok(work) = open(&job)
    {
        tell_steps(&rt, &work)?;
    }
    rt.println(answer(&job))?;
    Ok(())
}
