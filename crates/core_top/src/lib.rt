//! The top call: all that the program does, over a shelf and a sink.
#![tactic(auto)]

ghost use Rattle.std.specs.Prelude.{◌≡◌, [], IfOk};
ghost use Rattle.core_io.specs.States.{KeepsBytes, KeepsCounts};
ghost use Rattle.core_top.specs.Words.{words_of};
ghost use Rattle.core_top.specs.Answers.{ComesTo};
ghost use Rattle.core_top.specs.Around.{Between, around};
ghost use Rattle.core_top.specs.Commands.{command_of, names_read, IsDue};
ghost use Rattle.core_top.specs.Headline.{OneAnswerIsDue, HouseOrderIsDue, Guarantees};

use answers::{Answer, Due, Reply};
use core_io::{Failed, Shelf, Sink, write_all};
use core_margin::{order_laws, outcome_law};
use core_report::report_law;
use std::alloc::{AllocError, Global};
use stop::Stop;

mod answers;
mod check;
mod demo;
mod files;
mod judged;
mod margin;
mod orders;
mod report;
mod stop;

/// The answer of the command that the words are.
fn answer<S: Shelf>(alloc: Global, words: &[String], shelf: &mut S) -> Result<Answer, Stop>
    ensures due { ComesTo (Between (S.state shelf.old) (S.state shelf.new)
        (IsDue (command_of (words_of words.now)))) result }
    ensures kept { KeepsBytes (S.state shelf.old) (S.state shelf.new) }
    ensures counts { KeepsCounts (S.state shelf.old) (S.state shelf.new) }
    ensures untouched { names_read (command_of (words_of words.now)) ≡ []
        → S.state shelf.new ≡ S.state shelf.old }
{
    if let Some(asked) = margin::words_of(words) {
        margin::answer(alloc, shelf, &asked)
    } else if let Some(asked) = judged::words_of("check", words) {
        check::answer(alloc, shelf, &asked)
    } else if let Some(asked) = judged::words_of("report", words) {
        report::answer(alloc, shelf, &asked)
    } else if let Some(asked) = demo::words_of(words) {
        demo::answer(alloc, &asked)
    } else {
        Ok(Answer::Said(Reply::Usage))
    }
}

/// The status and the text that are due to the words.
fn due<S: Shelf>(alloc: Global, words: &[String], shelf: &mut S) -> Result<Due, AllocError>
    ensures due { IfOk result (λ due. Between (S.state shelf.old) (S.state shelf.new)
        (IsDue (command_of (words_of words.now))) due.status due.text.items) }
    ensures kept { KeepsBytes (S.state shelf.old) (S.state shelf.new) }
    ensures counts { KeepsCounts (S.state shelf.old) (S.state shelf.new) }
    ensures untouched { names_read (command_of (words_of words.now)) ≡ []
        → S.state shelf.new ≡ S.state shelf.old }
{
    match answer(alloc, words, shelf) {
        Ok(answer) => answers::output(alloc, answer),
        Err(Stop::Said(reply)) => answers::said(alloc, reply),
        Err(Stop::NoMemory) => Err(AllocError),
    }
}

/// Does what the words say, and answers the status.
///
/// The words are those after the program's name. CASE and CERT are the names of files on the shelf, and may be one name.
///
/// - `margin CASE`, `margin CASE BUDGET` and `margin CASE BUDGET RULE` print the certificate of the case's margin: 0
///   with a calendar, 1 with weights that refuse. It comes of a run of at most BUDGET pivots, 0 to 2^63 - 1, or
///   100000 where no BUDGET is said; where they do not end it, 5 with `spent,BUDGET`. RULE says which of the rows
///   that may leave does: `0` that of the least variable, as where no RULE is said, `1` that of the least value, `2`
///   the last, or the letters C, F, B, L, P and S in the order of their kinds. 4 with `wide,pivot,PIVOT` where that
///   pivot, counted from 1, leaves 128 bits, and with `wide,common` where a number of the certificate does.
/// - `check CASE CERT` judges the certificate for any case: 0 with `accepted,closes` or `accepted,cannot`, 10 with
///   `refused,CONDITION,PLACE` where it does not hold, 4 with `wide,check,CONDITION,PLACE` where a number of the check
///   leaves 128 bits.
/// - `report CASE CERT` judges the certificate as `check` does, with its 10 and its 4, and prints the report of one that
///   is accepted: 0; or 4 with `wide,report,SCENARIO,DAY`, by the scenario's name and the house day, where the replay of
///   a calendar first leaves 128 bits.
/// - `demo N` makes the demo case of N futures, 1 to 32, and prints its margin: 0 with `demo,N,NUM,DEN`, NUM over DEN
///   in lowest terms. It reads no file; 4 and 5 are as of `margin` with the budget 100000.
///
/// Any other words are answered with 2. The case is read and judged first (6 and 3), then the certificate (6 and 9), and
/// then the work is done. The output is built first and then written to the sink (7). Where memory runs out the answer
/// is 8, and the sink is as it was.
///
/// What it guarantees is a record with a field for each sentence. `margin`: for every case that is read, under every rule,
/// an admissible calendar whose worst loss no admissible calendar undercuts, with its loss and weights that show it,
/// or weights showing that no calendar is admissible; the text is read as this certificate, and no place of its check
/// fails; or why there is none. `serves`: under the rule of the least variable (Bland 1977) a budget of at least 2 to
/// the power of the programme's rows and columns together is never answered with 5. `check`: for every case, what an
/// accepted certificate states is so, whoever made it. `report`: the same, and the text is that certificate's report; of
/// a calendar its loss is the worst loss in lowest terms, and its ledger the cash of the first worst scenario. `demo`: an
/// admissible calendar of the demo case whose worst loss no admissible calendar undercuts, and this loss, floored at
/// nought, in lowest terms; or why there is none, and never 1 or 3. `exact`: each answer is one that is due. `complete`:
/// where nothing failed it is due by the words and the bytes alone. `causes`: what a status says by itself. `untouched`:
/// where the words name no file, the shelf is as it was, its counts too. `kept`, `shelf_counts`, `sink_count`: no bytes
/// on the shelf change, and no count falls.
pub fn core_call<S: Shelf, K: Sink>(
    alloc: Global,
    words: &Vec<String>,
    shelf: &mut S,
    sink: &mut K,
) -> u8
    ensures { Guarantees (around (S.state shelf.old) (S.state shelf.new) (K.state sink.old)
        (K.state sink.new)) (words_of words.now.items) result }
{
    margin::margin_laws();
    match due(alloc, words, shelf) {
        Err(AllocError) => 8,
        Ok(due) => match write_all(sink, &due.text) {
            Ok(()) => due.status,
            Err(Failed) => 7,
        },
    }
}

/// The law of what is due: to given words and told bytes, where no count rose, one status and one text alone are.
pub fn one_answer_law()
    ensures { OneAnswerIsDue }
{
    outcome_law();
    report_law();
}

/// The law of the order of the kinds in which the variables are numbered: under it exactly that is due which is due
/// under the rule of the least variable.
pub fn house_order_law()
    ensures { HouseOrderIsDue }
{
    order_laws();
}
