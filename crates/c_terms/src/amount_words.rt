// An amount from its five words, and its words again: a sign (0 is plus, anything else minus), then four limbs, the least first.
ghost use Rattle.std.specs.Prelude.{◌≡◌};
ghost use Rattle.c_terms.specs.AmountWords.{amount_of_words, amount_words};

use amount::Amount;

pub fn amount_of(words: &[u32; 5]) -> Amount
    ensures { result ≡ amount_of_words words.now }
{
    Amount {
        negative: words[0] != 0,
        limbs: [words[1], words[2], words[3], words[4]],
    }
}

pub fn words_of(a: Amount) -> [u32; 5]
    ensures { result ≡ amount_words a }
{
    let [first, second, third, fourth] = a.limbs;
    [a.negative as u32, first, second, third, fourth]
}
