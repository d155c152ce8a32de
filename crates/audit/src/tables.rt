// The tables that are lent to a list of calls, and to the last calls after it.
use terms::Term;
use terms::nets::NetSet;

#[derive(Drop)]
pub struct LentTables<'a> {
    // the work table of netlists, and the result table of card rows
    pub work: &'a mut [Term<NetSet>],
    // the product tables of card rows
    pub bits_first: &'a mut [Term<NetSet>],
    pub bits_second: &'a mut [Term<NetSet>],
    // the product tables of cards
    pub first: &'a mut [Term<[u16; 3]>],
    pub second: &'a mut [Term<[u16; 3]>],
    // the card table of the list's cards and of the first drawer, and that of the second
    pub left: &'a mut [Term<[u16; 3]>],
    pub right: &'a mut [Term<[u16; 3]>],
}
