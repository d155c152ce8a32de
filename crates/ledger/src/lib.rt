// What stands filed, and what each call on a shelf has to answer: definitions and their laws, and the answer of compare.
#![tactic(auto)]

// What compare answers: the two drawers have the same output at every input, or the three words of an input where they
// differ, with the output of the first drawer there and that of the second. A rule of the project fixes this form.
#[derive(Clone, Copy, PartialEq, Eq, Debug)]
pub enum Compared {
    Same,
    Differ((u16, u16, u16, u16, u16)),
}
