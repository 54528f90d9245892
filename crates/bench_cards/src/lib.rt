// Cards from the bench, proved.
#![tactic(auto)]

ghost use Rattle.std.specs.Prelude.{◌≡◌};
ghost use Rattle.bench_cards.specs.Cards.{Cards};

// How many cards are proved here: each is a fact about the definitions that the contracts cite.
pub fn cards_stand() -> u8
    ensures stand { Cards }
    ensures count { result ≡ 2 }
{
    2
}
