// The coins: two tables that never change, a group for each controller and selector, and a common coin for each
// selector and round.
#![tactic(auto)]

ghost use Rattle.std.specs.Prelude.{◌≡◌, ℕ};
ghost use Rattle.terms.specs.declared.word.Side.{Side};
ghost use Rattle.coins.specs.Draws.{group_draw_number, coin_draw_number};

use draws::{Draws, coin_draw, group_draw};
use terms::word::Side;

pub mod bit_list;
pub mod draws;
pub mod seeded;

pub trait Coins {
    // The group of a controller in a selector.
    ghost group: { Self → ℕ → ℕ → Side };

    // The common coin of a selector in a round.
    ghost common: { Self → ℕ → ℕ → Side };

    fn draw_group(&self, p: u8, k: u8) -> Side
        ensures { result ≡ group self.now p k };

    fn draw_coin(&self, k: u8, r: u8) -> Side
        ensures { result ≡ common self.now k r };
}

// Whatever is drawn by number has both tables.
impl<D: Draws> Coins for D {
    ghost group = { λ coins p k. D.drawn coins (group_draw_number p k) };

    ghost common = { λ coins k r. D.drawn coins (coin_draw_number k r) };

    fn draw_group(&self, p: u8, k: u8) -> Side {
        self.draw(group_draw(p, k))
    }

    fn draw_coin(&self, k: u8, r: u8) -> Side {
        self.draw(coin_draw(k, r))
    }
}
