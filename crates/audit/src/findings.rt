// What an audit finds.
use fault::Fault;
use ledger::Compared;

#[derive(Clone, Copy)]
pub struct Findings {
    // the first entry that was refused, counted from 0, with its refusal
    pub refused: Option<(usize, Fault)>,
    // how the two drawers compare
    pub compared: Result<Compared, Fault>,
    // the value of the first drawer at the input
    pub value: Result<u16, Fault>,
    // the numbers of terms of the two cards
    pub left: Result<usize, Fault>,
    pub right: Result<usize, Fault>,
}
