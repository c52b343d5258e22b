//! What is put and printed for an answer.
ghost use Rattle.std.specs.Prelude.{◌≡◌};
ghost use Rattle.ax_top.specs.Delivery.{Delivers, Gives, Prints, Reports, out_of, unprinted};

use crate::answer::Answer;
use ax_outside::{Failed, Shelf};
use ax_words::Order;

// Prints a report, and answers its own status, or the other one where the print failed.
fn print<S: Shelf>(shelf: &mut S, text: &[u8], own: u8, failed: u8) -> u8
    ensures { Prints (S.seen shelf.old) (S.seen shelf.new) text.now own failed result }
{
    match shelf.print(text) {
        Ok(()) => own,
        Err(Failed) => failed,
    }
}

/// Prints the report of a result that has this status.
pub fn report<S: Shelf>(shelf: &mut S, text: &[u8], own: u8) -> u8
    ensures { Reports (S.seen shelf.old) (S.seen shelf.new) text.now own result }
{
    print(shelf, text, own, 7)
}

// The status of a text that was put, where its report couldn't be printed.
fn unprinted(own: u8) -> u8
    ensures { result ≡ unprinted own }
{
    if own == 9 { 9 } else { 7 }
}

/// Puts a text, and then prints the report of a result that has this status. The status 9 stays where only the print
/// fails, as the text is put.
pub fn deliver<S: Shelf>(shelf: &mut S, out: &str, text: &[u8], lines: &[u8], own: u8) -> u8
    ensures { Delivers (S.seen shelf.old) (S.seen shelf.new) out.now text.now lines.now own result }
{
    match shelf.put(out, text) {
        Ok(()) => print(shelf, lines, own, unprinted(own)),
        Err(Failed) => 7,
    }
}

fn out_in(order: &Order) -> &str
    ensures { result.now ≡ out_of order.now }
{
    match order {
        Order::Repair(order) => order.out.as_str(),
        _ => "",
    }
}

/// Gives the answer to an order, and answers the status.
pub fn give<S: Shelf>(order: &Order, answer: &Answer, shelf: &mut S) -> u8
    ensures { Gives (S.seen shelf.old) (S.seen shelf.new) (out_of order.now) answer.now result }
{
    match answer {
        Answer::Repaired {
            text,
            report: lines,
        } => deliver(shelf, out_in(order), text.as_slice(), lines.as_slice(), 0),
        Answer::NoRepair => report(shelf, b"no repair\n", 1),
        Answer::Reported(told) => report(shelf, told.report.as_slice(), told.status),
    }
}
