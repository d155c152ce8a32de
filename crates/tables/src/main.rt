// Prints tables of the fields; `stdout` has them as they are published, or as tools/tables.py finds them by polynomials.
#![tactic(auto)]

use anyhow::anyhow;
use fault::Fault;
use field::Field;
use field::dual::{duals, trace};
use field::log::Log;
use field::normal::Normal;
use field::shift::Shift;
use field::tower::Tower;

fn heading(rt: &HostRuntime, name: &str) -> anyhow::Result<()> {
    println!(rt; "== {name}")?;
    Ok(())
}

// The products of all codes, a line for each.
fn products<F: Field>(rt: &HostRuntime, f: &F) -> anyhow::Result<()> {
    let q = f.order();
    for a in 0..q {
        for b in 0..q {
            let c = f.mul(a, b);
            print!(rt; " {c}")?;
        }
        rt.println("")?;
    }
    Ok(())
}

// One, the inverses of all codes (0 for none), the traces of all codes, and the duals of all bits.
fn elements<F: Field>(rt: &HostRuntime, f: &F) -> anyhow::Result<()> {
    let one = f.one();
    print!(rt; "one {one}\ninverses")?;
    for a in 0..f.order() {
        let b = f.inverse(a).unwrap_or(0);
        print!(rt; " {b}")?;
    }
    print!(rt; "\ntraces")?;
    for a in 0..f.order() {
        let t = trace(f, a);
        print!(rt; " {t}")?;
    }
    print!(rt; "\nduals")?;
    for d in duals(f) {
        print!(rt; " {d}")?;
    }
    rt.println("")?;
    Ok(())
}

// The field modulo p, where that is irreducible; a refusal ends the program.
fn modulo(p: u16) -> anyhow::Result<Shift> {
    Shift::new(p).map_err(|e| anyhow!("{e}"))
}

// What `print` writes of a field that is made, or why it is refused.
fn shown<F, P: FnOnce(F) -> anyhow::Result<()>>(
    rt: &HostRuntime,
    made: Result<F, Fault>,
    print: P,
) -> anyhow::Result<()>
    requires { P.IsAlwaysCallable print }
{
    match made {
        Ok(f) => print(f),
        Err(e) => {
            println!(rt; "{e}")?;
            Ok(())
        }
    }
}

fn shift(rt: &HostRuntime, p: u16) -> anyhow::Result<()> {
    shown(rt, Shift::new(p), |f| {
        println!(rt; "== polynomials modulo {p}")?;
        products(rt, &f)?;
        elements(rt, &f)
    })
}

// The multiplicative inverses modulo 283, as the AES standard's S-box uses them, and two of its worked products.
fn aes(rt: &HostRuntime) -> anyhow::Result<()> {
    let f = modulo(283)?;
    heading(rt, "AES")?;
    elements(rt, &f)?;
    let (a, b) = (f.mul(0x57, 0x83), f.mul(0x57, 0x13));
    println!(rt; "57·83 = {a:02x}, 57·13 = {b:02x}")?;
    Ok(())
}

// The powers of 2 modulo 285, as texts on Reed-Solomon codes print them, by both fields.
fn powers<F: Field>(rt: &HostRuntime, f: &F) -> anyhow::Result<()> {
    let mut x = f.one();
    for _ in 0..255 {
        print!(rt; " {x}")?;
        x = f.mul(x, 2);
    }
    println!(rt; " {x}")?;
    Ok(())
}

fn reed_solomon(rt: &HostRuntime) -> anyhow::Result<()> {
    heading(rt, "powers of 2 modulo 285")?;
    powers(rt, &Log)?;
    let f = modulo(285)?;
    powers(rt, &f)?;
    elements(rt, &Log)
}

// A tower, and a tower over it where `upper` is a constant of it.
fn tower<B: Field>(rt: &HostRuntime, b: &B, nu: u16, upper: u16) -> anyhow::Result<()> {
    println!(rt; "== tower with constant {nu}")?;
    shown(rt, Tower::over(b, nu), |t| {
        products(rt, &t)?;
        elements(rt, &t)?;
        println!(rt; "== tower over that with constant {upper}")?;
        shown(rt, Tower::over(&t, upper), |u| elements(rt, &u))
    })
}

fn towers(rt: &HostRuntime) -> anyhow::Result<()> {
    let f = modulo(7)?;
    for nu in 0..5 {
        tower(rt, &f, nu, 8)?;
    }
    heading(rt, "towers over the normal basis")?;
    tower(rt, &Normal, 1, 4)?;
    heading(rt, "towers over the log field")?;
    tower(rt, &Log, 2, 2)
}

fn main(rt: HostRuntime) -> anyhow::Result<()> {
    for p in [3, 4, 5, 6, 7, 11, 13, 19, 25, 511, 512] {
        shift(&rt, p)?;
    }
    heading(&rt, "normal basis")?;
    products(&rt, &Normal)?;
    elements(&rt, &Normal)?;
    towers(&rt)?;
    aes(&rt)?;
    reed_solomon(&rt)
}
