// A point: a whole number for each setting.
ghost use Rattle.std.specs.Prelude.{◌≡◌, ◌^◌, ◌≤◌, length, pos, slice_index_or, unsigned_abs};
ghost use Rattle.interface.specs.Nodes.{value};
ghost use Rattle.interface.specs.Points.{values_of};

// The first `n` values count; what lies past them is ignored. An array and a count, since points are copied into lent
// slices and an ArrayVec is not Copy.
#[derive(Clone, Copy)]
pub struct Point {
    pub n: u8,
    pub values: [i32; 8],
}

impl Point {
    // How many values count: at most the eight that there are.
    pub fn settings(&self) -> u8
        ensures { result ≡ length (values_of self.now) }
    {
        self.n.min(8)
    }

    // The value of a setting, 0 for one that is not on the line.
    pub fn setting(&self, k: u8) -> i32
        ensures { result ≡ slice_index_or (values_of self.now) k (pos 0) }
    {
        if k < self.n && k < 8 {
            self.values[k as usize]
        } else {
            0
        }
    }

    // The value at a node, 0 for one that is not on the line.
    pub fn at(&self, node: u8) -> i64
        ensures value { result ≡ value (values_of self.now) node }
        ensures bound { unsigned_abs result ≤ 2 ^ 31 }
    {
        let v = self.setting(node / 2) as i64;
        if node % 2 == 0 { v } else { -v }
    }
}
