// The rule that a call names.
ghost use Rattle.std.specs.Prelude.{◌≡◌, ◌==◌, true, false, codes, IfNone, IfSome};
ghost use Rattle.std.specs.List.{list_all, list_any};
ghost use Rattle.core_top.specs.Orders.{is_order, rule_of};

use core_margin::Order;

/// Whether a word has each of the six letters.
fn has_letters(word: &[u8]) -> bool
    ensures { result
        ≡ list_all (λ letter. list_any (λ x. x == letter) word.now) (codes "CFBLPS") }
{
    b"CFBLPS".iter().all(|letter| word.contains(letter))
}

/// The letters of a word that has each of the six once.
fn kinds_of(word: &[u8]) -> Option<[u8; 6]>
    ensures none { IfNone result (is_order word.now ≡ false) }
    ensures some { IfSome result (λ letters. (is_order word.now ≡ true) × (letters ≡ word.now)) }
{
    let letters = <[u8; 6]>::try_from(word).ok()?;
    has_letters(word).then_some(letters)
}

/// The rule of a word: `0` least variable, `1` least value, `2` last row, or each of the letters C, F, B, L, P and S
/// once, in the order in which their kinds leave. None for any other word.
pub(crate) fn order_of(word: &str) -> Option<Order>
    ensures { result ≡ rule_of word.now }
{
    match word {
        "0" => Some(Order::LeastVariable),
        "1" => Some(Order::LeastValue),
        "2" => Some(Order::LastRow),
        _ => kinds_of(word.as_bytes()).map(Order::Kinds),
    }
}
