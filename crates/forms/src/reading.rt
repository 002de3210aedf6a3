// How far a text goes on with a word, or with a number.
// That a place is within the text stands in each contract: a type of its own could not say of which text.
ghost use Rattle.std.specs.Prelude.{◌≡◌, ◌≤◌, length, take, ◌==◌, slice_index};
ghost use Rattle.std.specs.Str.Parse.{digits_value, AllDigits};
ghost use Rattle.forms.specs.Form.{common, digits_at, numeral_at};

// How many bytes two texts have in common at the front.
pub(crate) fn front(word: &[u8], text: &[u8]) -> usize
    ensures value { result ≡ common word.now text.now }
    ensures small { result ≤ length word.now }
    ensures within { result ≤ length text.now }
{
    word.iter().zip(text).take_while(|(w, b)| w == b).count()
}

// How many digits stand at the front, of at most so many. A pattern names the first byte and the tail, as the project asks.
fn digits_at(most: usize, text: &[u8]) -> usize
    ensures value { result ≡ digits_at most text.now }
    ensures few { result ≤ most }
    ensures within { result ≤ length text.now }
{
    match text {
        [first, tail @ ..] if most > 0 && first.is_ascii_digit() => 1 + digits_at(most - 1, tail),
        _ => 0,
    }
}

fn leads_with_zero(text: &[u8]) -> bool
    ensures { result ≡ (slice_index text.now 0 == 48) }
{
    match text {
        [first, ..] => *first == b'0',
        [] => false,
    }
}

// How many bytes of a number stand at the front: no digit follows a leading 0.
pub(crate) fn numeral_at(text: &[u8]) -> usize
    ensures value { result ≡ numeral_at text.now }
    ensures few { result ≤ 9 }
    ensures within { result ≤ length text.now }
    ensures digits { AllDigits 10 (take result text.now) }
{
    let most = if leads_with_zero(text) { 1 } else { 9 };
    digits_at(most, text)
}

// The number that the digits write: so few fit.
#[tactic(auto, using(crate::proofs::Fronts::few_digits, crate::proofs::Fronts::digit_value, std::proofs::lemmas::Int::Digits::digits_value_more))]
pub(crate) fn value_of(digits: &[u8]) -> u32
    requires few { length digits.now ≤ 9 }
    requires digits { AllDigits 10 digits.now }
    ensures { result ≡ digits_value 10 digits.now }
{
    // A loop: a closure of `fold` would not know how large the value is so far.
    let mut value = 0u32;
    for digit in digits {
        value = value * 10 + u32::from(*digit - b'0');
    }
    value
}
