// Numbers past 64 bits, exactly: two digits in base 10^12, so that a digit times a count up to 10^6 fits 64 bits. No u128:
// T-06 asks that nothing wider than 64 bits is assumed.
ghost use Rattle.std.specs.Prelude.{◌≡◌, ◌-◌, ◌*◌, ◌≤◌, ◌<◌, leb};
ghost use Rattle.spread.specs.Wide.{base, value, Digits, Holds};

const BASE: u64 = 1_000_000_000_000;

const HALF: u64 = 1_000_000; // HALF * HALF is BASE

// hi * BASE + lo. The order is that of the digits, hi before lo, which is that of the numbers.
#[derive(Clone, Copy, PartialEq, Eq, PartialOrd, Ord)]
pub(crate) struct Wide {
    hi: u64,
    lo: u64,
}

impl Wide {
    pub(crate) fn of(x: u64) -> Wide
        ensures { Holds result x }
    {
        Wide {
            hi: x / BASE,
            lo: x % BASE,
        }
    }

    // a * b. By the halves of b, since a * b itself does not fit.
    pub(crate) fn product(a: u64, b: u64) -> Wide
        requires { (a < base) × (b < base) }
        ensures { Holds result (a * b) }
    {
        let high = a * (b / HALF);
        let low = high % HALF * HALF + a * (b % HALF);
        Wide {
            hi: high / HALF + low / BASE,
            lo: low % BASE,
        }
    }

    // self * k
    pub(crate) fn by(self, k: u64) -> Wide
        requires { Digits self × (value self ≤ base * base) × (k ≤ 1000000) }
        ensures { Holds result (value self * k) }
    {
        let low = self.lo * k;
        Wide {
            hi: self.hi * k + low / BASE,
            lo: low % BASE,
        }
    }

    // self - b, borrowing where the low digit is too small
    pub(crate) fn less(self, b: Wide) -> Wide
        requires { Digits self × Digits b × (value b ≤ value self) }
        ensures { Holds result (value self - value b) }
    {
        if self.lo < b.lo {
            return Wide {
                hi: self.hi - b.hi - 1,
                lo: self.lo + BASE - b.lo,
            };
        }
        Wide {
            hi: self.hi - b.hi,
            lo: self.lo - b.lo,
        }
    }

    // self <= b
    pub(crate) fn at_most(self, b: Wide) -> bool
        requires { Digits self × Digits b }
        ensures { result ≡ leb (value self) (value b) }
    {
        self <= b
    }
}
