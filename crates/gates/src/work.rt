// The working from gates to bits, on a term table.
// Netlist and table are passed side by side: of a table within another struct a caller does not learn what it leaves in the rows.
ghost use Rattle.std.specs.Prelude.{◌≡◌, List, []};
ghost use Rattle.terms.specs.Nets.{net_model};
ghost use Rattle.terms.specs.Lent.{live, capacity, Sound, Kept};
ghost use Rattle.terms.specs.Additions.{adding};
ghost use Rattle.terms.specs.declared.Term.{Term};
ghost use Rattle.terms.specs.declared.nets.NetSet.{NetSet};
ghost use Rattle.netlist.specs.Netlists.{circuit};
ghost use Rattle.gates.specs.Reductions.{OutTerms, Reduces, Worked};
ghost use Rattle.gates.specs.Forms.{TermsOf};
ghost use Rattle.gates.specs.Tails.{each, ended};
ghost use Rattle.gates.specs.Turns.{NextGate};
ghost use Rattle.gates.specs.Answers.{Answered, Reached};

use crate::tail::tail_of;
use fault::Fault;
use netlist::circuit::Netlist;
use netlist::gate::Gate;
use terms::nets::{NetSet, Nets};
use terms::{Full, Term, TermTable};

// Adds `code` with each of the sets, in order.
fn add_each(table: &mut TermTable<NetSet>, code: u16, sets: &[NetSet]) -> Result<(), Full>
    requires { Sound net_model table.old }
    ensures kept { Kept net_model table.old table.new }
    ensures sum { adding net_model (capacity table.old) (each code sets.now) (live table.old) ≡ ended result (live table.new) }
{
    for set in sets {
        table.add(&Nets, code, *set)?;
    }
    Ok(())
}

// Adds code 2^i with the set of output net i, for each bit i of the output.
fn add_outs(net: &Netlist, table: &mut TermTable<NetSet>) -> Result<(), Full>
    requires { Sound net_model table.old }
    ensures kept { Kept net_model table.old table.new }
    ensures sum { (outs : List (Term NetSet)) → OutTerms 0 (circuit net.now).outs outs → adding net_model (capacity table.old) outs (live table.old) ≡ ended result (live table.new) }
{
    for i in 0..usize::from(net.width()) {
        let out = net.output(i);
        table.add(&Nets, 1 << i, NetSet::of_net(out.0))?;
    }
    Ok(())
}

// The leading term, the greatest net of its set and the gate that drives this net, where there is one.
fn next_gate(net: &Netlist, table: &TermTable<NetSet>) -> Option<(Term<NetSet>, u8, Gate)>
    requires sound { Sound net_model table.now }
    requires terms { TermsOf (circuit net.now) (live table.now) }
    ensures { NextGate (circuit net.now) (live table.now) result }
{
    let lead = table.lead()?;
    let g = lead.mono.greatest()?;
    let gate = net.driver(usize::from(g))?;
    Some((lead, g, gate))
}

// While the leading term holds a gate's net, replaces it by the tail of the gate of its greatest net.
fn replace_gates(net: &Netlist, table: &mut TermTable<NetSet>) -> Result<(), Full>
    requires sound { Sound net_model table.old }
    requires terms { TermsOf (circuit net.now) (live table.old) }
    ensures kept { Kept net_model table.old table.new }
    ensures end { Reduces (circuit net.now) (capacity table.old) (live table.old) (ended result (live table.new)) }
{
    while let Some((lead, g, gate)) = next_gate(net, table) {
        let tail = tail_of(gate, lead.mono.without(g));
        let _ = table.take_lead(&Nets);
        add_each(table, lead.code, tail.as_slice())?;
    }
    Ok(())
}

// The whole working, from the empty table: the output terms, then gate after gate.
fn reduce(net: &Netlist, table: &mut TermTable<NetSet>) -> Result<(), Full>
    requires sound { Sound net_model table.old }
    requires empty { live table.old ≡ [] }
    ensures kept { Kept net_model table.old table.new }
    ensures worked { Worked (circuit net.now) (capacity table.old) (ended result (live table.new)) }
{
    add_outs(net, table)?;
    replace_gates(net, table)
}

// The most terms of a bit form.
const MAX_TERMS: usize = 256;

// Works on the table, which is empty, and answers how many terms its bit form has.
fn count_terms(net: &Netlist, table: &mut TermTable<NetSet>) -> Result<usize, Fault>
    requires sound { Sound net_model table.old }
    requires empty { live table.old ≡ [] }
    ensures kept { Kept net_model table.old table.new }
    ensures reached { Reached (circuit net.now) (capacity table.old) result (live table.new) }
{
    reduce(net, table).map_err(|_| Fault::BitTableFull)?;
    let count = table.len();
    if count > MAX_TERMS {
        return Err(Fault::TooManyBitTerms);
    }
    Ok(count)
}

// The same, and leaves nothing in the table where there is no bit form to answer.
pub(crate) fn find_form(net: &Netlist, table: &mut TermTable<NetSet>) -> Result<usize, Fault>
    requires sound { Sound net_model table.old }
    requires empty { live table.old ≡ [] }
    ensures same { table.new.rows.ghost_name ≡ table.old.rows.ghost_name }
    ensures answer { Answered (circuit net.now) (capacity table.old) result table.new.rows.now }
{
    let count = count_terms(net, table);
    if count.is_err() {
        table.clear(&Nets);
    }
    count
}
