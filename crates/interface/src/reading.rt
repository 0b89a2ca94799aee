// A reading: all limits of a shape at once, as a rule is judged on them.
ghost use Rattle.std.specs.Prelude.{◌≡◌};
ghost use Rattle.interface.specs.Readings.{limit_at, low_in, high_in};

// The limit at nodes p and q stands at 16 p + q; all 256 are there whatever n is.
#[derive(Clone, Copy, PartialEq, Eq)]
pub struct Reading {
    pub n: u8,
    pub limits: [i32; 256],
}

impl Reading {
    // The limit at two nodes, 0 where one is above 15.
    pub fn limit(&self, p: u16, q: u16) -> i32
        ensures { result ≡ limit_at self.now p q }
    {
        if p < 16 && q < 16 {
            self.limits[16 * p as usize + q as usize]
        } else {
            0
        }
    }

    // The least value of a setting within the reading.
    pub fn low(&self, k: u8) -> i32
        ensures { result ≡ low_in self.now k }
    {
        let odd = 2 * k as u16 + 1;
        -self.limit(odd, odd).div_euclid(2)
    }

    // The greatest value of a setting within the reading.
    pub fn high(&self, k: u8) -> i32
        ensures { result ≡ high_in self.now k }
    {
        let even = 2 * k as u16;
        self.limit(even, even).div_euclid(2)
    }
}
