// From gates to bits: the algebraic normal form of a netlist's output word.

#![tactic(auto)]

mod tail;
mod work;

ghost use Rattle.std.specs.Prelude.{length};
ghost use Rattle.netlist.specs.Netlists.{circuit};
ghost use Rattle.gates.specs.Answers.{Answered};
ghost use Rattle.gates.specs.Forms.{ValuesKept, StepsKeep, ValueAtWords, OnlyForm, OneEnd, MoreRows, EnoughRows, AlwaysEnds};

use fault::Fault;
use netlist::circuit::Netlist;
use terms::nets::{NetSet, Nets};
use terms::{Term, TermTable};
use work::find_form;

// Makes the lent rows the bit form of the netlist, that is its output word in algebraic normal form, and then zero rows;
// answers the number of terms. Where an addition finds no free row, or the form has more than 256 terms, all rows are zero rows.
pub fn bit_form(net: &Netlist, rows: &mut [Term<NetSet>]) -> Result<usize, Fault>
    ensures { Answered (circuit net.now) (length rows.old) result rows.new }
{
    form_in(net, rows)
}

// The same. It is apart, so that what stands in a table on the rows is known of part of them too: a table made on a part tells its maker nothing of the rows.
fn form_in(net: &Netlist, rows: &mut [Term<NetSet>]) -> Result<usize, Fault>
    ensures { Answered (circuit net.now) (length rows.old) result rows.new }
{
    let mut table = TermTable::new(&Nets, rows);
    find_form(net, &mut table)
}

// What the working from gates to bits means.
pub fn working_stands()
    ensures keeps { StepsKeep }
    ensures values { ValuesKept }
    ensures words { ValueAtWords }
    ensures sole { OnlyForm }
    ensures one { OneEnd }
    ensures more { MoreRows }
    ensures enough { EnoughRows }
    ensures ends { AlwaysEnds }
{}
