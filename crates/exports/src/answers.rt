// Answers as numbers.
ghost use Rattle.std.specs.Prelude.{◌≡◌, List, ℕ, [], ◌∷◌};
ghost use Rattle.exports.specs.Answers.{filled};
ghost use Rattle.pack.specs.Load.{in_numbers, index_values};
ghost use Rattle.walk.specs.WalkCall.{ending_number, yes_number};

use pack::load::{Index, Refusal};
use rules::check::Reported;
use walk::walk::{End, Ended};

// What a call answers that is not refused, as N numbers.
pub trait Values<const N: usize> {
    ghost values: { Self → List ℕ };

    fn values(self) -> [u64; N]
        ensures { result ≡ filled N (values self) };
}

impl Values<11> for Index {
    ghost values = { index_values };

    fn values(self) -> [u64; 11] {
        [
            self.records as u64,
            self.types.count as u64,
            self.types.place as u64,
            self.lookups.count as u64,
            self.lookups.place as u64,
            self.nmea2000.count as u64,
            self.nmea2000.place as u64,
            self.j1939.count as u64,
            self.j1939.place as u64,
            self.quick.count as u64,
            self.quick.place as u64,
        ]
    }
}

impl Values<2> for Reported {
    ghost values = { λ r. r.findings ∷ r.errors ∷ [] };

    fn values(self) -> [u64; 2] {
        [self.findings as u64, self.errors as u64]
    }
}

// How long a text is.
impl Values<1> for usize {
    ghost values = { λ n. n ∷ [] };

    fn values(self) -> [u64; 1] {
        [self as u64]
    }
}

// Its number for the C interface.
fn end_number(e: End) -> u64
    ensures { result ≡ ending_number e }
{
    match e {
        End::Whole => 0,
        End::Stop(stop) => stop as u64,
        End::UsedUp => 10,
    }
}

impl Values<2> for Ended {
    ghost values = { λ e. ending_number e.end ∷ e.visits ∷ [] };

    fn values(self) -> [u64; 2] {
        [end_number(self.end), self.visits as u64]
    }
}

// Whether a PGN is held.
impl Values<1> for bool {
    ghost values = { λ b. yes_number b ∷ [] };

    fn values(self) -> [u64; 1] {
        [u64::from(self)]
    }
}

// A refusal's detail, and zeros behind it.
fn refused<const N: usize>(detail: u64) -> [u64; N]
    ensures { result ≡ filled N (detail ∷ []) }
{
    let mut numbers = [0; N];
    if let Some(first) = numbers.first_mut() {
        *first = detail;
    }
    numbers
}

// The refusal's number, 0 where there is none; and the numbers of the answer.
pub fn tell<T: Values<N>, const N: usize>(r: Result<T, Refusal>, answer: &mut [u64; N]) -> u32
    ensures number { result ≡ (in_numbers T.values r).number }
    ensures numbers { answer.new ≡ filled N (in_numbers T.values r).values }
{
    match r {
        Err(refusal) => {
            *answer = refused(refusal.detail() as u64);
            refusal.number()
        }
        Ok(value) => {
            *answer = value.values();
            0
        }
    }
}
