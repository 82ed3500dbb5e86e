// Coins that the host lists bit by bit.
ghost use Rattle.coins.specs.Draws.{listed_draw};

use super::draws::Draws;
use terms::word::Side;

#[derive(Debug, Drop)]
pub struct BitList {
    pub bytes: [u8; 64],
}

impl Draws for BitList {
    ghost drawn = { λ coins d. listed_draw coins.bytes d };

    // Bit d mod 8, lowest first, of byte d div 8; Zero past the last byte.
    fn draw(&self, d: u16) -> Side {
        let byte = self.bytes.get(d as usize / 8).copied().unwrap_or(0);
        Side::from((byte >> (d % 8)) % 2 == 1)
    }
}
