//! The texts of the reports, and their print.
ghost use Rattle.std.specs.Prelude.{◌≡◌, ◌++◌, IfOk, codes, string_bytes};
ghost use Rattle.std.specs.Fmt.{decimal};
ghost use Rattle.ax_top.specs.Reports.{Finishes, candidate_report, file_report, name_of, one_of, stop_report, stop_status};

use crate::files::{File, Stop};
use ax_outside::Shelf;
use ax_top_texts::{source_text, suite_text};
use ax_words::Order;
use std::alloc::{AllocError, Global};

/// What is wrong with a file, and its name.
pub fn of_file(alloc: Global, what: &str, name: &str) -> Result<String, AllocError>
    ensures { IfOk result (λ s. string_bytes s ≡ file_report what.now name.now) }
{
    format!(in alloc; "{what}{name}\n")
}

fn of_candidate(alloc: Global, picked: u32, count: usize) -> Result<String, AllocError>
    ensures { IfOk result (λ s. string_bytes s ≡ candidate_report picked count) }
{
    format!(in alloc; "no candidate {picked} of {count}\n")
}

// One of the three names, by the file.
fn pick<'a>(file: File, source: &'a str, tests: &'a str, cert: &'a str) -> &'a str
    ensures { result.now ≡ one_of file source.entry.now tests.entry.now cert.entry.now }
{
    match file {
        File::Source => source,
        File::Tests => tests,
        File::Cert => cert,
    }
}

fn name_in(order: &Order, file: File) -> &str
    ensures { result.now ≡ name_of order.now file }
{
    match order {
        Order::Repair(order) => pick(
            file,
            order.source.as_str(),
            order.tests.as_str(),
            order.cert.as_str(),
        ),
        Order::Check {
            source,
            tests,
            cert,
            ..
        } => pick(file, source.as_str(), tests.as_str(), cert.as_str()),
        Order::Run { source, tests, .. } => pick(file, source.as_str(), tests.as_str(), ""),
        Order::Rank { source, tests, .. } => pick(file, source.as_str(), tests.as_str(), ""),
        Order::Gen { .. } => "",
        Order::Prove { .. } => "",
    }
}

/// Why an order comes to no result.
pub fn stop_text(alloc: Global, order: &Order, stop: Stop) -> Result<String, AllocError>
    ensures { IfOk result (λ s. string_bytes s ≡ stop_report order.now stop) }
{
    match stop {
        Stop::Memory => Ok(String::new(alloc)),
        Stop::NoRanker => String::from_str(alloc, "no ranker\n"),
        Stop::ReadFailed(file) => of_file(alloc, "read failed: ", name_in(order, file)),
        Stop::TooLong(file) => of_file(alloc, "file too long: ", name_in(order, file)),
        Stop::Source(fault) => source_text(alloc, fault),
        Stop::Suite(fault) => suite_text(alloc, fault),
        Stop::NoCandidate { picked, count } => of_candidate(alloc, picked, count),
        Stop::NotBuilt => String::from_str(alloc, "not built\n"),
    }
}

/// The status of an order that comes to no result.
pub fn status_of(stop: Stop) -> u8
    ensures { result ≡ stop_status stop }
{
    match stop {
        Stop::NoRanker => 2,
        Stop::NoCandidate { .. } => 2,
        Stop::Source(_) => 3,
        Stop::Suite(_) => 4,
        Stop::TooLong(_) => 5,
        Stop::ReadFailed(_) => 6,
        Stop::Memory => 10,
        Stop::NotBuilt => 11,
    }
}

/// Prints a refusal. A print that fails changes no status.
pub fn print_refusal<S: Shelf>(shelf: &mut S, text: &str)
    ensures { Finishes (S.seen shelf.old) (S.seen shelf.new) text.now }
{
    let _printed = shelf.print(text.as_bytes());
}
