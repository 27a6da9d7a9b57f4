//! Whole samples, clamped to the picture.
ghost use Rattle.std.specs.Prelude.{◌≡◌, ◌<◌, ◌≤◌};
ghost use Rattle.picture.specs.Planes.{nearest, grid_of};

use crate::planes::Plane;

/// `z`, or the nearest number from 0 to `size - 1`.
fn clamped(z: i32, size: usize) -> usize
    requires { (1 ≤ size) × (size ≤ 1920) }
    ensures value { result ≡ nearest size z }
    ensures below { result < size }
{
    z.clamp(0, size as i32 - 1) as usize
}

impl Plane<'_> {
    /// The whole sample of column `x`, row `y`; outside, the nearest one inside, each coordinate by itself.
    #[tactic(auto, unfolding(crate::specs::Planes::grid))]
    pub fn whole(&self, x: i32, y: i32) -> u8
        ensures { result ≡ grid_of self.now x y }
    {
        let column = clamped(x, self.size.width);
        let row = clamped(y, self.size.height);
        self.samples[row * self.size.width + column]
    }
}
