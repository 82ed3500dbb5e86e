// The numbers of the draws. Selectors, controllers and rounds count from 1; a 0 is taken for a 1.
ghost use Rattle.std.specs.Prelude.{◌≡◌, ℕ, ◌+◌, ◌-◌, ◌*◌};
ghost use Rattle.coins.specs.Draws.{group_draw_number, coin_draw_number};
ghost use Rattle.terms.specs.declared.word.Side.{Side};

use terms::word::Side;

// Sides that are drawn by number, and never change.
pub trait Draws {
    ghost drawn: { Self → ℕ → Side };

    fn draw(&self, d: u16) -> Side
        ensures { result ≡ drawn self.now d };
}

pub fn group_draw(p: u8, k: u8) -> u16
    ensures { result ≡ group_draw_number p k }
{
    in_selector(k, p)
}

pub fn coin_draw(k: u8, r: u8) -> u16
    ensures { result ≡ coin_draw_number k r }
{
    256 + in_selector(k, r)
}

// Sixteen numbers for each selector, one for each controller or round.
fn in_selector(k: u8, i: u8) -> u16
    ensures { result ≡ (k - 1) * 16 + (i - 1) }
{
    k.saturating_sub(1) as u16 * 16 + i.saturating_sub(1) as u16
}
