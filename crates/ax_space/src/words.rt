//! The words of a space's positions, by length and then by digits.
ghost use Rattle.std.specs.Prelude.{◌≡◌, ◌++◌, ◌∷◌, [], ◌≤◌, ◌+◌, Some, IfOk, filter, map};
ghost use Rattle.std.specs.Option.{option_copied};
ghost use Rattle.ax_prog.specs.Nodes.{nodes};
ghost use Rattle.ax_space_trees.specs.Positions.{operand, at_position};
ghost use Rattle.ax_space_trees.specs.Region.{fresh};
ghost use Rattle.ax_space.specs.Walks.{is_in, stays, has_word, with_letter, next_level, shorter};

use ax_prog::Expr;
use ax_prog::nodes::node_count;
use sqlite_items::Items;
use std::alloc::{AllocError, Global};

/// The numbers of operands.
const LETTERS: [u8; 3] = [1, 2, 3];

/// The words of all positions of the space around an old tree, by length and then by digits.
pub fn position_words(alloc: Global, old: &Expr, grow: u32) -> Result<Items<Items<u8>>, AllocError>
    requires small { nodes old.now ≤ 31 }
    requires grown { grow ≤ 20 }
    ensures { IfOk result (λ it. it ≡ shorter grow old.now (nodes old.now + grow)) }
{
    let mut all = Items::new(alloc);
    let mut level = empty_word(alloc)?;
    let longest = node_count(old) + grow;
    for length in 0..longest {
        let next = next_words(alloc, old, grow, level.as_slice())?;
        all.append(level)?;
        level = next;
    }
    Ok(all)
}

// The root's word alone.
fn empty_word(alloc: Global) -> Result<Items<Items<u8>>, AllocError>
    ensures { IfOk result (λ it. it ≡ [] ∷ []) }
{
    let mut all = Items::new(alloc);
    all.push(Items::new(alloc))?;
    Ok(all)
}

// The words of positions one letter longer than these.
#[tactic(auto, using(crate::proofs::Kept::flats))]
fn next_words(
    alloc: Global,
    old: &Expr,
    grow: u32,
    words: &[Items<u8>],
) -> Result<Items<Items<u8>>, AllocError>
    ensures { IfOk result (λ it. it ≡ next_level grow old.now words.now) }
{
    let mut all = Items::new(alloc);
    for word in words {
        let more = longer(alloc, old, grow, word.as_slice(), &LETTERS)?;
        all.append(more)?;
    }
    Ok(all)
}

// Of a word with each of these letters behind it, those that are words of positions.
#[tactic(auto, using(crate::proofs::Kept::steps))]
fn longer(
    alloc: Global,
    old: &Expr,
    grow: u32,
    word: &[u8],
    letters: &[u8],
) -> Result<Items<Items<u8>>, AllocError>
    ensures { IfOk result (λ it. it ≡ filter (has_word grow old.now) (map (with_letter word.now) letters.now)) }
{
    let mut all = Items::new(alloc);
    for letter in letters {
        let next = longer_word(alloc, word, *letter)?;
        if is_position(old, grow, next.as_slice()) {
            all.push(next)?;
        }
    }
    Ok(all)
}

/// The word with a letter behind it.
pub fn longer_word(alloc: Global, word: &[u8], letter: u8) -> Result<Items<u8>, AllocError>
    ensures { IfOk result (λ it. it ≡ word.now ++ letter ∷ []) }
{
    let mut all = Items::from_slice(alloc, word)?;
    all.push(letter)?;
    Ok(all)
}

/// Whether a word is that of a position: one of the old tree's, and behind it at most `grow` letters among 1 and 2.
pub fn is_position(old: &Expr, grow: u32, word: &[u8]) -> bool
    ensures { result ≡ has_word grow old.now word.now }
{
    is_within(Some(old), grow, grow, word)
}

fn is_within(old: Option<&Expr>, room: u32, grow: u32, word: &[u8]) -> bool
    ensures { result ≡ stays grow (option_copied old.entry) room word.now }
{
    match word {
        [] => true,
        [letter, rest @ ..] => {
            let below = operand_at(old, *letter);
            let fits = is_new_letter(room, *letter);
            match below {
                Some(tree) => is_within(Some(tree), grow, grow, rest),
                None => {
                    if fits {
                        is_within(None, room - 1, grow, rest)
                    } else {
                        false
                    }
                }
            }
        }
    }
}

// Whether a word may go on by this letter where the old tree has no node and so many letters are left.
fn is_new_letter(room: u32, letter: u8) -> bool
    ensures { result ≡ is_in (fresh room letter) }
{
    room > 0 && letter > 0 && letter < 3
}

/// The part of the old tree at a word, if it has one.
pub fn part_at<'a>(old: Option<&'a Expr>, word: &[u8]) -> Option<&'a Expr>
    ensures { option_copied result ≡ at_position word.now (option_copied old.entry) }
{
    match word {
        [] => old,
        [letter, rest @ ..] => part_at(operand_at(old, *letter), rest),
    }
}

fn operand_at(tree: Option<&Expr>, at: u8) -> Option<&Expr>
    ensures { option_copied result ≡ operand (option_copied tree.entry) at }
{
    match tree {
        None => None,
        Some(tree) => operand_of(tree, at),
    }
}

fn operand_of(tree: &Expr, at: u8) -> Option<&Expr>
    ensures { option_copied result ≡ operand (Some tree.now) at }
{
    if at == 1 {
        return first(tree);
    }
    if at == 2 {
        return second(tree);
    }
    if at == 3 {
        return third(tree);
    }
    None
}

#[tactic(auto, using(ax_prog::proofs::Trees::operand_layers))]
fn first(tree: &Expr) -> Option<&Expr>
    ensures { option_copied result ≡ operand (Some tree.now) 1 }
{
    match tree {
        Expr::Num(_) | Expr::Atom(_) => None,
        Expr::Un(_, a) => Some(a.get()),
        Expr::Bin(_, a, _) => Some(a.get()),
        Expr::Cond(f, _, _) => Some(f.get()),
    }
}

#[tactic(auto, using(ax_prog::proofs::Trees::operand_layers))]
fn second(tree: &Expr) -> Option<&Expr>
    ensures { option_copied result ≡ operand (Some tree.now) 2 }
{
    match tree {
        Expr::Num(_) | Expr::Atom(_) => None,
        Expr::Un(_, _) => None,
        Expr::Bin(_, _, b) => Some(b.get()),
        Expr::Cond(_, a, _) => Some(a.get()),
    }
}

#[tactic(auto, using(ax_prog::proofs::Trees::operand_layers))]
fn third(tree: &Expr) -> Option<&Expr>
    ensures { option_copied result ≡ operand (Some tree.now) 3 }
{
    match tree {
        Expr::Num(_) | Expr::Atom(_) => None,
        Expr::Un(_, _) => None,
        Expr::Bin(_, _, _) => None,
        Expr::Cond(_, _, b) => Some(b.get()),
    }
}
