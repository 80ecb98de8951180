// A pair of contributions, and the contributions of each term, as C structs.

ghost use Rattle.std.specs.Prelude.{◌≡◌};
ghost use Rattle.exports.specs.Point.{pair_answer, broken_down, breakdown_answer};

use limits::MAX_TERMS;
use model::Breakdown;
use observation::Pair;
use refusal::Refusal;

// 0 and a pair, or the number of the question that refused and zeros.
#[repr(C)]
#[derive(Clone, Copy)]
pub struct PairAnswer {
    pub refusal: u8,
    pub dh: f64,
    pub dd: f64,
}

impl From<Result<Pair, Refusal>> for PairAnswer {
    ghost from_gives = { λ r a. a ≡ pair_answer r };

    fn from(answer: Result<Pair, Refusal>) -> PairAnswer
        ensures { result ≡ pair_answer answer }
    {
        match answer {
            Ok(p) => PairAnswer {
                refusal: 0,
                dh: p.dh,
                dd: p.dd,
            },
            Err(why) => PairAnswer {
                refusal: why.number(),
                dh: 0.0,
                dd: 0.0,
            },
        }
    }
}

// 0 and a pair and a flag for each term with zeros and false behind them, or the number of the question that refused, zeros and false.
#[repr(C)]
#[derive(Clone, Copy)]
pub struct BreakdownAnswer {
    pub refusal: u8,
    pub dh: [f64; MAX_TERMS],
    pub dd: [f64; MAX_TERMS],
    pub pier_sensitive: [bool; MAX_TERMS],
}

fn broken_down(refusal: u8, parts: Breakdown) -> BreakdownAnswer
    ensures { result ≡ broken_down refusal parts }
{
    let dh = parts.dh;
    let dd = parts.dd;
    let pier_sensitive = parts.pier_sensitive;
    BreakdownAnswer {
        refusal,
        dh,
        dd,
        pier_sensitive,
    }
}

impl From<Result<Breakdown, Refusal>> for BreakdownAnswer {
    ghost from_gives = { λ r a. a ≡ breakdown_answer r };

    fn from(answer: Result<Breakdown, Refusal>) -> BreakdownAnswer
        ensures { result ≡ breakdown_answer answer }
    {
        match answer {
            Ok(parts) => broken_down(0, parts),
            Err(why) => broken_down(why.number(), Breakdown::empty()),
        }
    }
}
