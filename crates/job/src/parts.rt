// The parts of a job: the field polynomial that it names, if it does, and the text of its netlist.
ghost use Rattle.std.specs.Prelude.{◌≡◌, ℕ, ◌≤◌, List, [], ◌∷◌, length, MatchOption, MatchResult};
ghost use Rattle.lines.specs.Text.{Line};
ghost use Rattle.lines.specs.declared.Head.TheVariants.{Words};
ghost use Rattle.job.specs.Jobs.{Parts, BadJob, default_polynomial, NoDefault};

use fault::Fault;
use lines::{cut_sizes, cut_tail};

// The most bytes that a job has.
pub const LIMIT: usize = 16384;

#[derive(Clone, Copy)]
pub struct Job<'a> {
    pub polynomial: Option<u16>,
    pub netlist: &'a [u8],
}

// Takes the field line off, if there is one.
pub fn take_apart(job: &[u8]) -> Result<Job<'_>, Fault>
    ensures { MatchResult result (λ j. (length job.now ≤ 16384) × Parts job.now j.polynomial j.netlist.now) (BadJob job.now) }
{
    if job.len() > LIMIT {
        return Err(Fault::JobTooLong);
    }
    let Some(tail) = job.strip_prefix(b"field") else {
        return Ok(Job {
            polynomial: None,
            netlist: job,
        });
    };
    let (numbers, netlist) = cut_tail(tail, 1).ok_or(Fault::WrongForm(1))?;
    Ok(Job {
        polynomial: Some(numbers.as_slice()[0]),
        netlist,
    })
}

// The numbers of words and of bits that the words line gives, if the netlist begins with one.
pub fn sizes(netlist: &[u8]) -> Option<(u16, u16)>
    ensures { MatchOption result ((n k : ℕ) (rest : List ℕ) → Line 0 netlist.now Words (n ∷ (k ∷ [])) rest → ⊥) (λ x. (rest : List ℕ) × Line 0 netlist.now Words (x.0 ∷ (x.1 ∷ [])) rest) }
{
    let (words, width, _) = cut_sizes(netlist)?;
    Some((words, width))
}

// The field polynomial for words of `k` bits where a job names none.
pub fn default_for(k: u16) -> Option<u16>
    ensures { MatchOption result (NoDefault k) (λ p. (2 ≤ k) × (k ≤ 8) × (p ≡ default_polynomial k)) }
{
    match k {
        2 => Some(7),
        3 => Some(11),
        4 => Some(25),
        5 => Some(37),
        6 => Some(67),
        7 => Some(131),
        8 => Some(283),
        _ => None,
    }
}
