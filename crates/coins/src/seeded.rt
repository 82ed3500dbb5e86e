// Coins that are computed from a seed.
ghost use Rattle.coins.specs.Draws.{seeded_draw};

use super::draws::Draws;
use terms::word::Side;

#[derive(Clone, Copy, Debug, PartialEq, Eq)]
pub struct Seeded {
    pub seed: u64,
}

impl Draws for Seeded {
    ghost drawn = { λ coins d. seeded_draw coins.seed d };

    // One exactly if (seed + (d + 1) × 9E3779B97F4A7C15 hexadecimal) mod 2^64 has an odd number of ones.
    fn draw(&self, d: u16) -> Side {
        let z = self
            .seed
            .wrapping_add((d as u64 + 1).wrapping_mul(0x9E37_79B9_7F4A_7C15));
        Side::from(z.count_ones() % 2 == 1)
    }
}
