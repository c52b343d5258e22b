//! Unit propagation that looks only at clauses of which a watched literal became false.

ghost use Rattle.std.specs.Prelude.{◌≡◌, ◌↔◌, ◌+◌, ◌-◌, ◌*◌, ◌/◌, ◌%◌, ◌<◌, ◌≤◌, ◌++◌, ◌∷◌, [], All, Contains, IsSome, IfSome, IfNone, IfOk, OnOk, Some, ◌≢◌, length, vec_len};
ghost use Rattle.std.specs.Vec.{vec_capacity};
ghost use Rattle.ax_proof.specs.Clause.{IsClause};
ghost use Rattle.ax_proof.specs.Literal.{literal, negation, code_of, IsBelow};
ghost use Rattle.ax_proof.specs.Propagation.{Conflicts};
ghost use Rattle.ax_proof.specs.Trail.{IsConsistent, IsSettled, IsSatisfied};
ghost use Rattle.ax_proof.specs.Runs.{GoesOn};
ghost use Rattle.ax_watch.specs.Lists.{list_in, list_count, cell_count, IsIdle, Puts, IsAsLarge};
ghost use Rattle.ax_watch.specs.Watch.{WatchSays, clause_of};
ghost use Rattle.ax_watch.specs.Watched.{twin, clause_in, watched_in, IsCell, IsNotFalse, IsFalseElse, AreWatched, AreListed, IsWatching, Reaches, KeepsMarks, Visits, Finds, Walks, IsMark, IsHead, IsShort, AreShort, AreKept, KeepsReach};

use crate::lists::Lists;
use crate::pairs::{Pair, pick};
use crate::reach::Marks;
use crate::scan::apply;
use crate::store::Store;
use ax_proof::literal::Lit;
use ax_proof::trail::{Trail, Truth};
use std::alloc::AllocError;

/// What becomes of a cell whose literal is false.
#[derive(Clone, Copy, Debug)]
enum Finding {
    /// The other watched literal is true.
    Satisfied,
    /// This literal isn't false, and is to be watched instead.
    Moves(Lit),
    /// All literals but the other watched one, which is open, are false.
    Unit,
    /// All literals are false.
    Falsified,
}

/// A literal of the clause that isn't false, and isn't this one.
fn replacement(trail: &Trail, clause: &[Lit], other: Lit) -> Option<Lit>
    ensures some { IfSome result (λ lit. Finds trail.now.lits clause.now other (Finding.Moves lit)) }
    ensures none { IfNone result (IsFalseElse trail.now.lits clause.now other) }
{
    for lit in clause {
        if *lit != other {
            match trail.truth(*lit) {
                Truth::True => return Some(*lit),
                Truth::Open => return Some(*lit),
                Truth::False => {}
            }
        }
    }
    None
}

/// What becomes of a cell of the clause whose literal is false, where this is the other watched literal.
fn inspect(trail: &Trail, clause: &[Lit], other: Lit) -> Finding
    ensures { Finds trail.now.lits clause.now other result }
{
    match trail.truth(other) {
        Truth::True => Finding::Satisfied,
        Truth::Open => match replacement(trail, clause, other) {
            Some(lit) => Finding::Moves(lit),
            None => Finding::Unit,
        },
        Truth::False => match replacement(trail, clause, other) {
            Some(lit) => Finding::Moves(lit),
            None => Finding::Falsified,
        },
    }
}

/// The other cell of the same clause.
fn twin_of(cell: usize) -> usize
    requires { cell < usize.MAX }
    ensures { result ≡ twin cell }
{
    if cell % 2 == 0 { cell + 1 } else { cell - 1 }
}

/// Puts an idle cell into the list of its literal.
fn link(lists: &mut Lists, watched: &[Lit], cell: usize)
    requires cell { cell < length watched.now }
    requires cells { cell_count lists.old ≡ length watched.now }
    requires enough { code_of (watched_in watched.now cell) < list_count lists.old }
    requires idle { IsIdle lists.old cell }
    ensures { Puts (code_of (watched_in watched.now cell)) cell lists.old lists.new }
{
    let lit = watched[cell];
    lists.push(lit.code() as usize, cell);
}

/// Looks at the clause of an idle cell whose literal is false, and puts the cell into a list; `false` where the clause is
/// false.
fn visit(
    lists: &mut Lists,
    watched: &mut [Lit],
    trail: &mut Trail,
    store: &Store,
    cell: usize,
) -> bool
    requires cell { IsCell store.now.clauses cell }
    requires two { AreWatched store.now.clauses watched.old }
    requires below { All (IsBelow trail.old.size) store.now.clauses }
    requires paired { length trail.old.reasons ≡ length trail.old.lits }
    requires cells { cell_count lists.old ≡ length watched.old }
    requires enough { 2 * trail.old.size ≤ list_count lists.old }
    requires idle { IsIdle lists.old cell }
    ensures visits { Visits store.now.clauses cell trail.old watched.old trail.new watched.new result }
    ensures puts { Puts (code_of (watched_in watched.new cell)) cell lists.old lists.new }
{
    let other = watched[twin_of(cell)];
    match inspect(trail, store.get(cell / 2), other) {
        Finding::Satisfied => {
            link(lists, watched, cell);
            true
        }
        Finding::Moves(lit) => {
            let _var = lit.var();
            watched[cell] = lit;
            link(lists, watched, cell);
            true
        }
        Finding::Unit => {
            link(lists, watched, cell);
            trail.push(other, cell / 2 + 1);
            true
        }
        Finding::Falsified => {
            link(lists, watched, cell);
            false
        }
    }
}

/// Visits the clauses that watch the negation of the literal at `head`. It stops at a false clause, and gives its place.
fn walk(
    lists: &mut Lists,
    watched: &mut [Lit],
    trail: &mut Trail,
    store: &Store,
    head: usize,
) -> Option<usize>
    requires head { head < length trail.old.lits }
    requires below { All (IsBelow trail.old.size) store.now.clauses }
    requires paired { length trail.old.reasons ≡ length trail.old.lits }
    requires watching { IsWatching store.now.clauses trail.old.size watched.old lists.old }
    requires reached { Reaches store.now.clauses watched.old trail.old.lits head }
    ensures walks { Walks store.now.clauses trail.old watched.old lists.old trail.new watched.new lists.new }
    ensures reached { IfNone result (Reaches store.now.clauses watched.new trail.new.lits (head + 1)) }
    ensures conflict { IfSome result (λ place. WatchSays store.now.clauses trail.new.lits (Some place)) }
{
    let lit = trail.lits()[head].negate();
    lists.move_all(lit.code() as usize, 0);
    'cells: loop {
        match lists.pop(0) {
            None => return None,
            Some(cell) => {
                if !visit(lists, watched, trail, store, cell) {
                    lists.pour(0, lit.code() as usize);
                    return Some(cell / 2);
                }
            }
        }
    }
}

/// Visits the clauses that watch the negations of the literals from `from` on.
fn run(
    lists: &mut Lists,
    watched: &mut [Lit],
    trail: &mut Trail,
    store: &Store,
    from: usize,
) -> Option<usize>
    requires from { from ≤ length trail.old.lits }
    requires below { All (IsBelow trail.old.size) store.now.clauses }
    requires paired { length trail.old.reasons ≡ length trail.old.lits }
    requires watching { IsWatching store.now.clauses trail.old.size watched.old lists.old }
    requires reached { Reaches store.now.clauses watched.old trail.old.lits from }
    ensures walks { Walks store.now.clauses trail.old watched.old lists.old trail.new watched.new lists.new }
    ensures reached { IfNone result (Reaches store.now.clauses watched.new trail.new.lits (length trail.new.lits)) }
    ensures conflict { IfSome result (λ place. WatchSays store.now.clauses trail.new.lits (Some place)) }
{
    let mut head = from;
    'heads: while head < trail.lits().len() {
        match walk(lists, watched, trail, store, head) {
            Some(place) => return Some(place),
            None => {}
        }
        head += 1;
    }
    None
}

/// Makes true what the short clauses force. It stops at a false clause, and gives its place.
fn settle(trail: &mut Trail, store: &Store, short: &[usize]) -> Option<usize>
    requires below { All (IsBelow trail.old.size) store.now.clauses }
    requires paired { length trail.old.reasons ≡ length trail.old.lits }
    requires short { All (IsShort store.now.clauses) short.now }
    ensures goes_on { GoesOn store.now.clauses trail.old trail.new }
    ensures settled { IfNone result (All (λ place. IsSatisfied trail.new.lits (clause_of store.now.clauses place)) short.now) }
    ensures conflict { IfSome result (λ place. WatchSays store.now.clauses trail.new.lits (Some place)) }
{
    let _count = store.len();
    for place in short {
        if !apply(trail, store.get(*place), *place + 1) {
            return Some(*place);
        }
    }
    None
}

/// Unit propagation, from as many literals of the trail as it reached before, or from the trail's start.
pub(crate) fn resume(
    lists: &mut Lists,
    watched: &mut [Lit],
    trail: &mut Trail,
    store: &Store,
    short: &[usize],
    from: Option<usize>,
) -> Option<usize>
    requires below { All (IsBelow trail.old.size) store.now.clauses }
    requires paired { length trail.old.reasons ≡ length trail.old.lits }
    requires watching { IsWatching store.now.clauses trail.old.size watched.old lists.old }
    requires short { AreShort store.now.clauses short.now }
    requires from { IfSome from (λ len. IsHead store.now.clauses watched.old trail.old.lits len) }
    ensures walks { Walks store.now.clauses trail.old watched.old lists.old trail.new watched.new lists.new }
    ensures says { WatchSays store.now.clauses trail.new.lits result }
    ensures mark { IfNone result (IsMark store.now.clauses watched.new trail.new.lits (length trail.new.lits)) }
{
    match from {
        Some(len) => run(lists, watched, trail, store, len),
        None => match settle(trail, store, short) {
            Some(place) => Some(place),
            None => run(lists, watched, trail, store, 0),
        },
    }
}

/// Begins to watch two literals of a clause, which is to come behind the others.
fn begin(lists: &mut Lists, watched: &mut Vec<Lit>, store: &Store, clause: &[Lit], pair: Pair)
    requires long { 1 < length clause.now }
    requires first { Contains clause.now pair.first }
    requires second { Contains clause.now pair.second }
    requires differ { pair.first ≢ pair.second }
    requires codes { (l : _) → Contains clause.now l → code_of l < list_count lists.old }
    requires cells { cell_count lists.old ≡ 2 * length store.now.clauses }
    requires sized { length watched.old.items ≡ 2 * length store.now.clauses }
    requires lists_room { 2 ≤ lists.old.room }
    requires room { vec_len watched.old + 2 ≤ vec_capacity watched.old }
    ensures watching { (size : _) → IsWatching store.now.clauses size watched.old.items lists.old → IsWatching (store.now.clauses ++ clause.now ∷ []) size watched.new.items lists.new }
    ensures kept { (size part whole : _) → IsWatching store.now.clauses size watched.old.items lists.old → IsNotFalse part pair.first → IsNotFalse part pair.second → AreKept store.now.clauses watched.old.items part whole → AreKept (store.now.clauses ++ clause.now ∷ []) watched.new.items part whole }
    ensures lists_room { lists.new.room ≡ lists.old.room - 2 }
    ensures len { vec_len watched.new ≡ vec_len watched.old + 2 }
    ensures capacity { vec_capacity watched.new ≡ vec_capacity watched.old }
{
    let cell = watched.len();
    let _first = pair.first.var();
    let _second = pair.second.var();
    lists.grow();
    lists.grow();
    watched.push_reserved(pair.first);
    watched.push_reserved(pair.second);
    link(lists, watched.as_slice(), cell);
    link(lists, watched.as_slice(), cell + 1);
}

/// Makes the cells of a clause of one literal or none, which is to come behind the others. They stay idle.
fn begin_short(lists: &mut Lists, watched: &mut Vec<Lit>, store: &Store, clause: &[Lit])
    requires short { length clause.now ≤ 1 }
    requires cells { cell_count lists.old ≡ 2 * length store.now.clauses }
    requires sized { length watched.old.items ≡ 2 * length store.now.clauses }
    requires lists_room { 2 ≤ lists.old.room }
    requires room { vec_len watched.old + 2 ≤ vec_capacity watched.old }
    ensures watching { (size : _) → IsWatching store.now.clauses size watched.old.items lists.old → IsWatching (store.now.clauses ++ clause.now ∷ []) size watched.new.items lists.new }
    ensures lists_room { lists.new.room ≡ lists.old.room - 2 }
    ensures len { vec_len watched.new ≡ vec_len watched.old + 2 }
    ensures capacity { vec_capacity watched.new ≡ vec_capacity watched.old }
{
    lists.grow();
    lists.grow();
    watched.push_reserved(Lit::default());
    watched.push_reserved(Lit::default());
}

/// Begins to watch a clause that is to come behind the others, in the room that was made for it. It gives as many
/// literals of the trail as what was reached of the others by the first of them is reached of all, or none where nothing
/// is.
pub(crate) fn enter(
    lists: &mut Lists,
    watched: &mut Vec<Lit>,
    short: &mut Vec<usize>,
    store: &Store,
    clause: &[Lit],
    trail: &Trail,
    places: &[usize],
) -> Option<usize>
    requires rising { IsClause clause.now }
    requires codes { (l : _) → Contains clause.now l → code_of l < list_count lists.old }
    requires cells { cell_count lists.old ≡ 2 * length store.now.clauses }
    requires sized { length watched.old.items ≡ 2 * length store.now.clauses }
    requires lists_room { 2 ≤ lists.old.room }
    requires room { vec_len watched.old + 2 ≤ vec_capacity watched.old }
    requires short_room { vec_len short.old + 1 ≤ vec_capacity short.old }
    ensures watching { (size : _) → IsWatching store.now.clauses size watched.old.items lists.old → IsWatching (store.now.clauses ++ clause.now ∷ []) size watched.new.items lists.new }
    ensures short { AreShort store.now.clauses short.old.items → AreShort (store.now.clauses ++ clause.now ∷ []) short.new.items }
    ensures long { IfSome result (λ _. 1 < length clause.now) }
    ensures kept { IfSome result (λ until. (size : _) → IsWatching store.now.clauses size watched.old.items lists.old → KeepsReach store.now.clauses clause.now watched.old.items watched.new.items trail.now.lits until) }
    ensures lists_room { lists.new.room ≡ lists.old.room - 2 }
    ensures len { vec_len watched.new ≡ vec_len watched.old + 2 }
    ensures capacity { vec_capacity watched.new ≡ vec_capacity watched.old }
    ensures short_len { vec_len short.new ≤ vec_len short.old + 1 }
    ensures short_capacity { vec_capacity short.new ≡ vec_capacity short.old }
{
    if clause.len() < 2 {
        begin_short(lists, watched, store, clause);
        short.push_reserved(store.len());
        return None;
    }
    let pair = pick(trail, places, clause);
    let until = pair.until;
    begin(lists, watched, store, clause, pair);
    Some(until)
}

/// Twice the number.
pub(crate) fn doubled(number: usize) -> Result<usize, AllocError>
    ensures { IfOk result (λ double. double ≡ 2 * number) }
{
    number.checked_mul(2).ok_or(AllocError)
}

/// Makes the tables large enough for the variables below `size`.
pub(crate) fn make_tables(
    lists: &mut Lists,
    places: &mut Vec<usize>,
    marks: &mut Marks,
    size: usize,
) -> Result<(), AllocError>
    ensures kept { (l : _) → list_in lists.new l ≡ list_in lists.old l }
    ensures done { OnOk result (2 * size ≤ list_count lists.new) }
    ensures more { list_count lists.old ≤ list_count lists.new }
    ensures cells { cell_count lists.new ≡ cell_count lists.old }
    ensures room { lists.new.room ≡ lists.old.room }
    ensures marks { marks.new ≡ marks.old }
{
    let codes = doubled(size)?;
    lists.widen(codes)?;
    places.resize(size, 0)?;
    marks.reserve(size)
}

/// Makes room for at least so many clauses.
pub(crate) fn make_room(
    lists: &mut Lists,
    watched: &mut Vec<Lit>,
    short: &mut Vec<usize>,
    clauses: usize,
) -> Result<(), AllocError>
    ensures kept { (l : _) → list_in lists.new l ≡ list_in lists.old l }
    ensures lists { list_count lists.new ≡ list_count lists.old }
    ensures cells { cell_count lists.new ≡ cell_count lists.old }
    ensures lists_room { OnOk result (2 * clauses ≤ lists.new.room) }
    ensures lists_more { lists.old.room ≤ lists.new.room }
    ensures watched { watched.new.items ≡ watched.old.items }
    ensures len { vec_len watched.new ≡ vec_len watched.old }
    ensures room { OnOk result (vec_len watched.new + 2 * clauses ≤ vec_capacity watched.new) }
    ensures more { vec_capacity watched.old ≤ vec_capacity watched.new }
    ensures short { short.new.items ≡ short.old.items }
    ensures short_len { vec_len short.new ≡ vec_len short.old }
    ensures short_room { OnOk result (vec_len short.new + clauses ≤ vec_capacity short.new) }
    ensures short_more { vec_capacity short.old ≤ vec_capacity short.new }
{
    let cells = doubled(clauses)?;
    lists.reserve(cells)?;
    watched.reserve(cells)?;
    short.reserve(clauses)?;
    Ok(())
}
