// `demo N`: the margin of the demo case of N futures.
ghost use Rattle.std.specs.Prelude.{◌≡◌, ◌≤◌, ◌≤ℤ◌, None, Some, pos, IfNone, IfSome, IfOk, IfErr};
ghost use Rattle.core_model.specs.Fits.{IsWithin128};
ghost use Rattle.core_gen.specs.Closed.{demo_view};
ghost use Rattle.core_top.specs.declared.stop.Stop.TheVariants.{NoMemory};
ghost use Rattle.core_top.specs.Words.{words_of};
ghost use Rattle.core_top.specs.Answers.{ComesTo};
ghost use Rattle.core_top.specs.Demo.{count_of, demo_answer, demo_words_view, demo_words, margin_ratio, DemoDue};

use crate::answers::{Answer, Reply, one};
use crate::margin::BUDGET;
use crate::stop::Stop;
use core_case::{Case, read_case};
use core_gen::{demo_case, demo_case_law};
use core_margin::{MarginFault, Order, margin_by};
use core_model::Cert;
use core_rows::{put_row, whole};
use exact_frac::{Exact, Frac128};
use std::alloc::{AllocError, Global};

/// How many futures the case has, 1 to 32.
#[derive(Clone, Copy, Debug)]
pub(crate) struct Words {
    count: u8,
}

/// The count that a word says: a whole number from 1 to 32.
fn count_of(word: &str) -> Option<u8>
    ensures none { IfNone result (count_of word.now ≡ None) }
    ensures some { IfSome result (λ n. count_of word.now ≡ Some n) }
    ensures least { IfSome result (λ n. 1 ≤ n) }
    ensures most { IfSome result (λ n. n ≤ 32) }
{
    let number = whole(word.as_bytes())?;
    let count = u8::try_from(number).ok()?;
    (1 <= count && count <= 32).then_some(count)
}

/// The words as those of `demo`, none where they are not.
pub(crate) fn words_of(words: &[String]) -> Option<Words>
    ensures none { IfNone result (demo_words (words_of words.now) ≡ None) }
    ensures some { IfSome result (λ asked. demo_words (words_of words.now)
        ≡ Some (demo_words_view asked)) }
    ensures least { IfSome result (λ asked. 1 ≤ asked.count) }
    ensures most { IfSome result (λ asked. asked.count ≤ 32) }
{
    match words {
        [verb, count] if verb.as_str() == "demo" => {
            let count = count_of(count.as_str())?;
            Some(Words { count })
        }
        _ => None,
    }
}

/// The demo case.
fn case_of(alloc: Global, asked: &Words) -> Result<Case, Stop>
    requires least { 1 ≤ asked.now.count }
    requires most { asked.now.count ≤ 32 }
    ensures is { IfOk result (λ case. case ≡ demo_view asked.now.count) }
    ensures ends { IfErr result (λ stop. stop ≡ NoMemory) }
{
    demo_case_law();
    let text = demo_case(alloc, asked.count)?;
    Ok(read_case(alloc, &text)?)
}

/// The line of a margin: the loss, floored at nought, over its denominator in lowest terms.
fn text_of(alloc: Global, count: u8, loss: i128, den: i128) -> Result<Vec<u8>, AllocError>
    requires loss { IsWithin128 loss }
    requires den { pos 1 ≤ℤ den }
    ensures { IfOk result (λ text. text.items ≡ demo_answer count (margin_ratio loss den)) }
{
    let margin = Frac128::of(loss.max(0), den);
    let mut fields = one(alloc, b"demo")?;
    fields.push_number(i128::from(count))?;
    fields.push_number(margin.num())?;
    fields.push_number(margin.den())?;
    let mut text = Vec::new(alloc);
    put_row(alloc, &mut text, &fields)?;
    Ok(text)
}

/// The answer to the demo case: its margin, or why it has none.
fn margin_of(alloc: Global, case: &Case, asked: &Words) -> Result<Answer, Stop>
    requires { case.now ≡ demo_view asked.now.count }
    ensures { ComesTo (DemoDue (demo_words_view asked.now)) result }
{
    demo_case_law();
    match margin_by(alloc, case, Order::LeastVariable, BUDGET) {
        Ok(Cert::Closes { calendar, loss, .. }) => {
            let text = text_of(alloc, asked.count, loss, calendar.den)?;
            Ok(Answer::Printed { status: 0, text })
        }
        Ok(Cert::Cannot { .. }) => unreachable!(),
        Err(MarginFault::Pivot { pivot }) => Ok(Answer::Said(Reply::WidePivot { pivot })),
        Err(MarginFault::Common) => Ok(Answer::Said(Reply::WideCommon)),
        Err(MarginFault::Spent { .. }) => Ok(Answer::Said(Reply::Spent { budget: BUDGET })),
        Err(MarginFault::NoMemory) => Err(Stop::NoMemory),
    }
}

/// Makes the demo case and answers its margin.
pub(crate) fn answer(alloc: Global, asked: &Words) -> Result<Answer, Stop>
    requires least { 1 ≤ asked.now.count }
    requires most { asked.now.count ≤ 32 }
    ensures { ComesTo (DemoDue (demo_words_view asked.now)) result }
{
    let case = case_of(alloc, asked)?;
    margin_of(alloc, &case, asked)
}
