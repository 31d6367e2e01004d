// Numbers of 128 bits as two halves of 64, by value. An IPv4 address is one whose upper half is 0.
// No operation wraps: a sum stops at the largest number and a difference at 0.
// The derived `==` and `<` are those of the values, as `equal_means` and `less_means` of proofs/Claims.antt say.
#![tactic(auto)]

ghost use Rattle.std.specs.Prelude.{◌≡◌, ◌+◌, ◌-◌, ◌*◌, ◌%◌, ◌^◌, min, ◌==◌};
ghost use Rattle.std.specs.Int.Count.{count_trailing_zeros};
ghost use Rattle.wide.specs.Value.{value};

// The largest half.
const MOST: u64 = 0xffff_ffff_ffff_ffff;

#[derive(Clone, Copy, PartialEq, Eq, PartialOrd, Ord)]
pub struct Wide {
    pub hi: u64,
    pub lo: u64,
}

impl From<u64> for Wide {
    ghost from_gives = { λ n w. value w ≡ n };

    fn from(n: u64) -> Wide {
        Wide { hi: 0, lo: n }
    }
}

impl Wide {
    // A constructor: two numbers in a pair, as `From` would take, do not say which is the upper half.
    pub fn from_halves(hi: u64, lo: u64) -> Wide
        ensures { value result ≡ hi * 2 ^ 64 + lo }
    {
        Wide { hi, lo }
    }

    // The sum, or the largest number of 128 bits where the sum has more.
    pub fn saturating_add(self, other: Wide) -> Wide
        ensures { value result ≡ min (value self + value other) (2 ^ 128 - 1) }
    {
        let ah = self.hi;
        let al = self.lo;
        let bh = other.hi;
        let bl = other.lo;
        let lo = std::num::wrapping_add_u64(al, bl);
        let room = MOST - ah;
        if lo < al {
            if room <= bh {
                return Wide { hi: MOST, lo: MOST };
            }
            return Wide {
                hi: ah + bh + 1,
                lo,
            };
        }
        if room < bh {
            return Wide { hi: MOST, lo: MOST };
        }
        Wide { hi: ah + bh, lo }
    }

    // The difference, or 0 where `other` is larger. `-` in the contract is the natural numbers', which stops at 0 too.
    pub fn saturating_sub(self, other: Wide) -> Wide
        ensures { value result ≡ value self - value other }
    {
        let ah = self.hi;
        let al = self.lo;
        let bh = other.hi;
        let bl = other.lo;
        if ah < bh {
            return Wide { hi: 0, lo: 0 };
        }
        if bl <= al {
            return Wide {
                hi: ah - bh,
                lo: al - bl,
            };
        }
        if ah == bh {
            return Wide { hi: 0, lo: 0 };
        }
        Wide {
            hi: ah - bh - 1,
            lo: MOST - bl + al + 1,
        }
    }

    // The zero bits below the lowest one bit; 128 for 0.
    pub fn trailing_zeros(self) -> u32
        ensures { result ≡ count_trailing_zeros 128 (value self) }
    {
        let hi = self.hi;
        let lo = self.lo;
        if lo == 0 {
            64 + u64::trailing_zeros(hi)
        } else {
            u64::trailing_zeros(lo)
        }
    }

    // Whether the k lowest bits are zero.
    pub fn ends_in_zeros(self, k: u32) -> bool
        ensures { result ≡ (value self % 2 ^ k == 0) }
    {
        let hi = self.hi;
        let lo = self.lo;
        if k <= self.trailing_zeros() {
            return true;
        }
        if hi == 0 { lo == 0 } else { false }
    }

    // The number whose k lowest bits are one; all 128 of them where k is larger.
    pub fn ones(k: u32) -> Wide
        ensures { value result ≡ 2 ^ min k 128 - 1 }
    {
        if k < 64 {
            return Wide {
                hi: 0,
                lo: (1u64 << k) - 1,
            };
        }
        if k < 128 {
            return Wide {
                hi: (1u64 << (k - 64)) - 1,
                lo: MOST,
            };
        }
        Wide { hi: MOST, lo: MOST }
    }
}
