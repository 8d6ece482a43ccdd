// `margin CASE`, `margin CASE BUDGET`, `margin CASE BUDGET RULE`: the certificate of the margin of a case.
ghost use Rattle.std.specs.Prelude.{◌≡◌, None, Some, IfNone, IfSome};
ghost use Rattle.core_io.specs.States.{KeepsBytes, KeepsCounts};
ghost use Rattle.core_margin.specs.Laws.{MarginIsValid};
ghost use Rattle.core_top.specs.Words.{words_of};
ghost use Rattle.core_top.specs.Answers.{ComesTo};
ghost use Rattle.core_top.specs.Around.{Between};
ghost use Rattle.core_top.specs.Margin.{budget_of, limits_of, margin_words, margin_words_view, MarginDue, MarginOf, IsNeverSpent};

use crate::answers::{Answer, Reply, cert_status};
use crate::files::case_under;
use crate::orders::order_of;
use crate::stop::Stop;
use core_case::Case;
use core_cert::write_cert;
use core_io::Shelf;
use core_margin::{MarginFault, Order, margin_by, order_laws, run_reaches, valid_margins};
use core_rows::whole;
use core_run::least_variable_laws;
use std::alloc::Global;

/// The greatest count of pivots where the words say none.
pub(crate) const BUDGET: u64 = 100_000;

/// The name of the case, which is not empty, the greatest count of pivots and the rule.
#[derive(Clone, Copy, Debug)]
pub(crate) struct Words<'a> {
    case: &'a str,
    budget: u64,
    order: Order,
}

/// The budget that a word says: a whole number, not negative and at most 2^63 - 1.
fn budget_of(word: &str) -> Option<u64>
    ensures { result ≡ budget_of word.now }
{
    let number = whole(word.as_bytes())?;
    u64::try_from(number).ok()
}

/// The budget and the rule that the words after the case's name say.
fn limits_of(words: &[String]) -> Option<(u64, Order)>
    ensures none { IfNone result (limits_of (words_of words.now) ≡ None) }
    ensures some { IfSome result (λ limits. limits_of (words_of words.now)
        ≡ Some limits) }
{
    match words {
        [] => Some((BUDGET, Order::LeastVariable)),
        [budget] => Some((budget_of(budget.as_str())?, Order::LeastVariable)),
        [budget, rule] => Some((budget_of(budget.as_str())?, order_of(rule.as_str())?)),
        _ => None,
    }
}

/// The words as those of `margin`, none where they are not.
pub(crate) fn words_of<'a>(words: &'a [String]) -> Option<Words<'a>>
    ensures none { IfNone result (margin_words (words_of words.now) ≡ None) }
    ensures some { IfSome result (λ asked. margin_words (words_of words.now)
        ≡ Some (margin_words_view asked)) }
{
    match words {
        [verb, case, rest @ ..] if verb.as_str() == "margin" && !case.is_empty() => {
            let (budget, order) = limits_of(rest)?;
            Some(Words {
                case: case.as_str(),
                budget,
                order,
            })
        }
        _ => None,
    }
}

/// The answer to a case: the text of its certificate, or why it has none.
fn margin_of(alloc: Global, case: &Case, asked: &Words) -> Result<Answer, Stop>
    ensures { ComesTo (MarginOf (margin_words_view asked.now) case.now) result }
{
    match margin_by(alloc, case, asked.order, asked.budget) {
        Ok(cert) => {
            let text = write_cert(alloc, case, &cert)?;
            Ok(Answer::Printed {
                status: cert_status(&cert),
                text,
            })
        }
        Err(MarginFault::Pivot { pivot }) => Ok(Answer::Said(Reply::WidePivot { pivot })),
        Err(MarginFault::Common) => Ok(Answer::Said(Reply::WideCommon)),
        Err(MarginFault::Spent { .. }) => {
            let budget = asked.budget;
            Ok(Answer::Said(Reply::Spent { budget }))
        }
        Err(MarginFault::NoMemory) => Err(Stop::NoMemory),
    }
}

/// Reads the case and answers its margin.
pub(crate) fn answer<S: Shelf>(alloc: Global, shelf: &mut S, asked: &Words) -> Result<Answer, Stop>
    ensures due { ComesTo (Between (S.state shelf.old) (S.state shelf.new)
        (MarginDue (margin_words_view asked.now))) result }
    ensures kept { KeepsBytes (S.state shelf.old) (S.state shelf.new) }
    ensures counts { KeepsCounts (S.state shelf.old) (S.state shelf.new) }
{
    let case = case_under(alloc, shelf, asked.case)?;
    margin_of(alloc, &case, asked)
}

/// A certificate that a case comes to shows what it states and holds at every place of the check; and a budget of as
/// many pivots as there are sets of the programme's variables is never spent where the least variable leaves.
pub(crate) fn margin_laws()
    ensures valid { MarginIsValid }
    ensures never_spent { IsNeverSpent }
{
    valid_margins();
    run_reaches();
    least_variable_laws();
    order_laws();
}
