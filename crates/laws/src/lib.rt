// The laws of the controllers' algorithm: each function's contract is one law, over all lawful pages.
#![tactic(auto)]

ghost use Rattle.laws.specs.Statements.{AtMostOneYes, CoinOpposed, SomebodyWins};

// No two controllers have the answer yes.
pub fn at_most_one_yes_on_lawful_pages()
    ensures { AtMostOneYes }
{}

// Where a round r + 2 is opened, r at least 2, a word of phase 2 of round r has the group that the coin of round r is not.
pub fn a_word_opposes_the_coin_on_lawful_pages()
    ensures { CoinOpposed }
{}

// Where there is a caller, and every caller has the answer yes or no, one has yes.
pub fn somebody_wins_on_lawful_pages()
    ensures { SomebodyWins }
{}
