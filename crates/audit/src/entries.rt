// A call as a value, for lists of calls. A table is named by how many of its rows are lent to the call.
use terms::Term;

#[derive(Clone, Copy)]
pub enum Entry<'a> {
    File {
        drawer: usize,
        text: &'a [u8],
        work: usize,
    },
    FileCard {
        drawer: usize,
        rows: &'a [Term<[u16; 3]>],
        first: usize,
        second: usize,
        result: usize,
    },
    Withdraw {
        drawer: usize,
    },
    Compare {
        left: usize,
        right: usize,
    },
    Value {
        drawer: usize,
        words: [u16; 3],
    },
    Card {
        drawer: usize,
        first: usize,
        second: usize,
        card: usize,
    },
}
