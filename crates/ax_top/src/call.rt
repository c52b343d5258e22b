//! The top call.
ghost use Rattle.std.specs.Prelude.{map, string_bytes};
ghost use Rattle.ax_rank_coverage.specs.Handed.{handed};
ghost use Rattle.ax_top.specs.Causes.{Does, Keeps, OrderStopped, WordsRefused};
ghost use Rattle.ax_top.specs.Complete.{Complete, CompleteReports};
ghost use Rattle.ax_top.specs.Headline.{Headline};
ghost use Rattle.ax_top.specs.Proving.{Proving};

use crate::delivery::give;
use crate::files::Stop;
use crate::orders::result_of;
use crate::proving::prove;
use crate::report::{print_refusal, status_of, stop_text};
use ax_outside::Shelf;
use ax_rank::Ranker;
use ax_rank_coverage::one_candidate_order;
use ax_top_texts::words_text;
use ax_words::{Order, WordFault, read_words};
use std::alloc::Global;

fn refuse_words<S: Shelf>(alloc: Global, fault: &WordFault, shelf: &mut S) -> u8
    ensures { WordsRefused (S.seen shelf.old) (S.seen shelf.new) fault.now result }
{
    if matches!(fault, WordFault::Memory) {
        return 10;
    }
    match words_text(alloc, fault) {
        Ok(text) => {
            print_refusal(shelf, text.as_str());
            2
        }
        Err(_) => 10,
    }
}

fn refuse_order<S: Shelf>(alloc: Global, order: &Order, stop: Stop, shelf: &mut S) -> u8
    ensures { OrderStopped (S.seen shelf.old) (S.seen shelf.new) order.now stop result }
{
    if stop == Stop::Memory {
        return 10;
    }
    match stop_text(alloc, order, stop) {
        Ok(text) => {
            print_refusal(shelf, text.as_str());
            status_of(stop)
        }
        Err(_) => 10,
    }
}

/// Does all that the program does, and answers the status with which it is to end.
///
/// | Status | Comes |
/// |---|---|
/// | 0 | a least repair was written under OUT and reported, or a proof that clauses have no model under PROOF, or every test passes, or the candidates were ranked |
/// | 1 | there is no repair, or the clauses have a model, or a test doesn't pass |
/// | 2 | the words are no order, no handed-in ranker has the name that it needs, or a picked number is no candidate's |
/// | 3 | the source spells no program within the limits: the report names its first fault, and its place |
/// | 4 | the tests are no suite |
/// | 5 | a file has more bytes than it may have: 268,435,456 for a certificate or a clause file, 1,048,576 for the others |
/// | 6 | a file couldn't be read |
/// | 7 | OUT or PROOF couldn't be put, or the report of 0 or 1 couldn't be printed |
/// | 9 | as many lines as the budget were written under PROOF, also where the report couldn't be printed |
/// | 10 | memory was wanting |
/// | 11 | the order isn't built yet |
/// | 13 | CNF is no clause file |
///
/// The first of these comes in the order words, ranker, source, tests, picked numbers or certificate, as far as the
/// command has them; 0, 1 or 7 comes where none of the others does. The report is printed after all else, but at 10, and
/// at 7 after a put that failed, nothing is. No name of the shelf but OUT or PROOF
/// changes, OUT at 0 and 7 alone, and PROOF at 0, 7 and 9.
///
/// An order to repair is built where it takes `cmp` alone and chooses one candidate whose nodes are atoms, numbers and at
/// most three binary operators. Where it picks none, it chooses the first ones in the order of suspicion, by the first
/// ranker of the name that it needs. That ranker sees the run of each test, and no other ranker sees a run. All rankers are
/// dropped before the call answers.
pub fn angelix<S: Shelf>(
    alloc: Global,
    words: Vec<String>,
    shelf: &mut S,
    mut rankers: Vec<Box<dyn Ranker>>,
) -> u8
    ensures does { Does (S.seen shelf.old) (S.seen shelf.new) (map (λ r. handed (title r) (runs r) (formula r)) rankers.items) (map string_bytes words.items) result }
    ensures headline { Headline (S.seen shelf.old) (S.seen shelf.new) (map (λ r. handed (title r) (runs r) (formula r)) rankers.items) (map string_bytes words.items) result }
    ensures complete { Complete (S.seen shelf.old) (S.seen shelf.new) (map (λ r. handed (title r) (runs r) (formula r)) rankers.items) (map string_bytes words.items) result }
    ensures reporting { CompleteReports (S.seen shelf.old) (S.seen shelf.new) (map (λ r. handed (title r) (runs r) (formula r)) rankers.items) (map string_bytes words.items) result }
    ensures proving { Proving (S.seen shelf.old) (S.seen shelf.new) (map string_bytes words.items) result }
    ensures keeps { Keeps (S.seen shelf.old) (S.seen shelf.new) (map string_bytes words.items) }
{
    // a suite has one order of suspicion
    one_candidate_order();
    match read_words(alloc, &words) {
        Err(fault) => refuse_words(alloc, &fault, shelf),
        Ok(Order::Prove { cnf, proof, budget }) => {
            prove(alloc, cnf.as_str(), proof.as_str(), budget, shelf)
        }
        Ok(order) => match result_of(alloc, &order, rankers.as_mut_slice(), shelf) {
            Err(stop) => refuse_order(alloc, &order, stop, shelf),
            Ok(answer) => give(&order, &answer, shelf),
        },
    }
}
