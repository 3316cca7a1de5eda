ghost use Rattle.std.specs.Prelude.{◌≡◌, ◌++◌, ◌-◌, ◌≤◌, ◌^◌, drop, OnOk, OnErr};
ghost use Rattle.eris_words.specs.Decimal.{decimal, digits_up_to, read_decimal};

use eris_base::{NoMemory, Row};

/// Adds the number in decimal digits, without a leading zero. After [`NoMemory`] the row is as before.
pub fn append_decimal(out: &mut Row<u8>, number: u64) -> Result<(), NoMemory>
    ensures ok { OnOk result (out.new ≡ out.old ++ decimal number) }
    ensures err { OnErr result (out.new ≡ out.old) }
{
    let mut cells = [b'0'; 20];
    let start = fill_digits(&mut cells, number);
    out.append(&cells[start..])
}

// The digits stand at the end of the cells, from the index that it answers.
#[tactic(auto, using(crate::proofs::DigitLemmas::digit_steps))]
fn fill_digits(cells: &mut [u8; 20], number: u64) -> usize
    ensures digits { drop result cells.new ≡ decimal number }
    ensures start { result ≤ 20 }
{
    let mut start = 20;
    let mut rest = number;
    while rest >= 10 {
        start -= 1;
        cells[start] = b'0' + (rest % 10) as u8;
        rest /= 10;
    }
    start -= 1;
    cells[start] = b'0' + rest as u8;
    start
}

/// The number, 0 to `limit`, that a word writes in decimal digits. None exactly where the word is empty,
/// has a byte that is no digit, has a leading zero before further digits, or writes a greater number.
pub fn read_number(word: &[u8], limit: u64) -> Option<u64>
    ensures { result ≡ read_decimal limit word.now }
{
    match word {
        [] | [b'0', _, ..] => None,
        _ => number_up_to(word, limit),
    }
}

fn number_up_to(digits: &[u8], limit: u64) -> Option<u64>
    ensures { result ≡ digits_up_to limit digits.now }
{
    let number = number_of(digits)?;
    if number <= limit { Some(number) } else { None }
}

#[tactic(auto, using(crate::proofs::ReadLemmas::reading))]
fn number_of(digits: &[u8]) -> Option<u64>
    ensures { result ≡ digits_up_to (2 ^ 64 - 1) digits.now }
{
    let mut number: u64 = 0;
    for byte in digits {
        let digit = char::from(*byte).to_digit(10)?;
        number = number.checked_mul(10)?.checked_add(u64::from(digit))?;
    }
    Some(number)
}
