// A bound: a load over a speed, compared exactly by cross products.
#![tactic(auto)]

ghost use Rattle.std.specs.Prelude.{◌<◌, ◌*◌, ◌+◌, ◌^◌, ◌≡◌};
ghost use Rattle.bound.specs.Order.{nought, le, greater, lesser, middle, rounded_up};

#[derive(Clone, Copy, Debug, PartialEq, Eq)]
pub struct Bound {
    pub load: u64,
    pub speed: u64,
}

impl Bound {
    // Nought, 0/1.
    pub const ZERO: Bound = Bound { load: 0, speed: 1 };

    // 1/0, above every bound with a speed.
    pub const INFINITE: Bound = Bound { load: 1, speed: 0 };

    // Whether it is at most the other. Inner: the two products fit 64 bits.
    pub fn at_most(self, other: Bound) -> bool
        requires { (self.load * other.speed < 2 ^ 64) × (other.load * self.speed < 2 ^ 64) }
        ensures { result ≡ le self other }
    {
        self.load * other.speed <= other.load * self.speed
    }

    // Whether it is nought, as a bound. Inner.
    pub fn is_nought(self) -> bool
        ensures { result ≡ le self nought }
    {
        self.at_most(Bound::ZERO)
    }

    // The greater of the two, itself among equals. Inner: the two products fit 64 bits.
    pub fn greater(self, other: Bound) -> Bound
        requires { (other.load * self.speed < 2 ^ 64) × (self.load * other.speed < 2 ^ 64) }
        ensures { result ≡ greater self other }
    {
        if other.at_most(self) { self } else { other }
    }

    // The lesser of the two, itself among equals. Inner: the two products fit 64 bits.
    pub fn lesser(self, other: Bound) -> Bound
        requires { (other.load * self.speed < 2 ^ 64) × (self.load * other.speed < 2 ^ 64) }
        ensures { result ≡ lesser self other }
    {
        if self.at_most(other) { self } else { other }
    }

    // Half the sum of the two. Inner: its load and its speed fit 64 bits.
    pub fn midpoint(self, other: Bound) -> Bound
        requires load_fits { self.load * other.speed + other.load * self.speed < 2 ^ 64 }
        requires speed_fits { 2 * (self.speed * other.speed) < 2 ^ 64 }
        ensures { result ≡ middle self other }
    {
        Bound {
            load: self.load * other.speed + other.load * self.speed,
            speed: 2 * (self.speed * other.speed),
        }
    }

    // Rounded up to a whole number. Inner: it has a speed, and load and speed together fit 64 bits.
    pub fn rounded_up(self) -> u64
        requires { (0 < self.speed) × (self.load + self.speed < 2 ^ 64) }
        ensures { result ≡ rounded_up self }
    {
        self.load.div_ceil(self.speed)
    }
}
