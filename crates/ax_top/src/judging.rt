//! What is wrong with the source and the tests of an order, each judged before the next is read.
ghost use Rattle.std.specs.Prelude.{◌≡◌, ◌≤◌, ◌<◌, ◌^◌, length};
ghost use Rattle.ax_outside.specs.Seen.{NoLess, Same};
ghost use Rattle.ax_top.specs.Judging.{FilesJudged, SourceFileJudged, SourceJudged, SuiteJudged, TestsFileJudged};

use crate::files::{File, Stop, read_file};
use ax_front::{SourceFault, read_source};
use ax_outside::Shelf;
use ax_prog::{Program, Suite};
use ax_suite::{SuiteFault, read_suite};
use std::alloc::Global;

/// A source: its bytes, and the program that they spell.
#[derive(Drop)]
pub struct Source {
    pub bytes: Vec<u8>,
    pub program: Program,
}

/// The source and the tests of an order, where nothing is wrong with them.
#[derive(Drop)]
pub struct Judged {
    pub source: Source,
    pub suite: Suite,
}

// The program that the bytes spell.
fn judge_source(alloc: Global, source: &[u8]) -> Result<Program, Stop>
    requires { length source.now < 2 ^ 32 }
    ensures { SourceJudged source.now result }
{
    match read_source(alloc, source) {
        Ok(program) => Ok(program),
        Err(SourceFault::Memory) => Err(Stop::Memory),
        Err(fault) => Err(Stop::Source(fault)),
    }
}

// The suite that the bytes spell.
fn judge_suite(alloc: Global, tests: &[u8]) -> Result<Suite, Stop>
    ensures { SuiteJudged tests.now result }
{
    match read_suite(alloc, tests) {
        Ok(suite) => Ok(suite),
        Err(SuiteFault::Memory) => Err(Stop::Memory),
        Err(fault) => Err(Stop::Suite(fault)),
    }
}

fn judge_source_file<S: Shelf>(alloc: Global, name: &str, shelf: &mut S) -> Result<Source, Stop>
    ensures judged { SourceFileJudged (S.seen shelf.old) (S.seen shelf.new) name.now result }
    ensures same { Same (S.seen shelf.old) (S.seen shelf.new) }
    ensures counts { NoLess (S.seen shelf.old) (S.seen shelf.new) }
{
    let bytes = read_file(alloc, shelf, name, File::Source)?;
    let program = judge_source(alloc, bytes.as_slice())?;
    Ok(Source { bytes, program })
}

fn judge_tests_file<S: Shelf>(alloc: Global, name: &str, shelf: &mut S) -> Result<Suite, Stop>
    ensures judged { TestsFileJudged (S.seen shelf.old) (S.seen shelf.new) name.now result }
    ensures same { Same (S.seen shelf.old) (S.seen shelf.new) }
    ensures counts { NoLess (S.seen shelf.old) (S.seen shelf.new) }
{
    let bytes = read_file(alloc, shelf, name, File::Tests)?;
    judge_suite(alloc, bytes.as_slice())
}

/// The source and the tests of an order, or what stops it there.
pub fn judge_files<S: Shelf>(
    alloc: Global,
    source: &str,
    tests: &str,
    shelf: &mut S,
) -> Result<Judged, Stop>
    ensures judged { FilesJudged (S.seen shelf.old) (S.seen shelf.new) source.now tests.now result }
    ensures same { Same (S.seen shelf.old) (S.seen shelf.new) }
    ensures counts { NoLess (S.seen shelf.old) (S.seen shelf.new) }
{
    let source = judge_source_file(alloc, source, shelf)?;
    let suite = judge_tests_file(alloc, tests, shelf)?;
    Ok(Judged { source, suite })
}
