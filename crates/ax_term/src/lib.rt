//! Terms of 32-bit words and flags, as the symbolic machine, the formula and the clauses speak of them.
//!
//! A `Bank` makes each term, folds it once and keeps one term for each tree, so equal trees share one
//! number and a term that is used often is stored once.
#![tactic(auto)]

ghost use Rattle.std.specs.Prelude.{◌≡◌, ◌<◌, ℕ, ℤ, Bool, true, false, not, ◌&&◌, if◌then◌else◌, IfOk, OnErr, length, slice_get, Some, None, [], ◌∷◌, ◌++◌, option_copied, option_to_list};
ghost use Rattle.ax_term.specs.Tree.{word, word_sym, flag, flag_sym, make, compare, no, all, pick, is_word};
ghost use Rattle.ax_term.specs.Numbered.{Numbered, number_of, tree};
ghost use Rattle.ax_term.specs.NumberedOf.{numbered_of};
ghost use Rattle.ax_term.specs.Values.{Interpretation, unsigned_quot, unsigned_left, op_value, test_value, word_under, flag_under};
ghost use Rattle.ax_term.specs.Folding.{constant_of, truth_of, same_tree, drops_right_zero, drops_left_zero, at_same, all_by, pick_by, make_word, make_test, make_no, make_all, make_pick};
ghost use Rattle.ax_term.specs.Bank.{Among, HasWord, HasFlag, ChildrenBefore, IsBank, Stay, GainsAtMost, key_of};

mod walk;

pub use walk::order;

mod valuation;

use indexmap::IndexMap;
use std::alloc::{AllocError, Global};
use std::marker::Model;
use std::rc::Rc;
pub use valuation::{Valuation, value};

/// An operator at two words, which gives a word.
#[derive(Clone, Copy, PartialEq, Eq, Hash, Debug)]
pub enum WordOp {
    /// The sum, wrapped.
    Add,
    /// The difference, wrapped.
    Sub,
    /// The product, wrapped.
    Mul,
    /// The upper 32 bits of the product with sign.
    High,
    /// The quotient without sign; by 0 all ones.
    Quot,
    /// What is left of the dividend without sign; by 0 the dividend.
    Left,
    /// The shift to the left by the low five bits of the count.
    Shl,
    /// The arithmetic shift to the right by the low five bits of the count.
    Shr,
    And,
    Or,
    Xor,
}

/// A test of two words, which gives a flag.
#[derive(Clone, Copy, PartialEq, Eq, Hash, Debug)]
pub enum TestOp {
    Eq,
    /// Whether the first is less, with sign.
    Lt,
}

impl WordOp {
    /// The operator's value.
    pub fn apply(self, a: i32, b: i32) -> i32
        ensures { result ≡ op_value self a b }
    {
        match self {
            WordOp::Add => a.wrapping_add(b),
            WordOp::Sub => a.wrapping_sub(b),
            WordOp::Mul => a.wrapping_mul(b),
            WordOp::High => high(a, b),
            WordOp::Quot => unsigned_quot(a.cast_unsigned(), b.cast_unsigned()).cast_signed(),
            WordOp::Left => unsigned_left(a.cast_unsigned(), b.cast_unsigned()).cast_signed(),
            WordOp::Shl => a.wrapping_shl(b.cast_unsigned()),
            WordOp::Shr => a.wrapping_shr(b.cast_unsigned()),
            WordOp::And => a & b,
            WordOp::Or => a | b,
            WordOp::Xor => a ^ b,
        }
    }

    fn drops_right_zero(self) -> bool
        ensures { result ≡ drops_right_zero self }
    {
        matches!(self, WordOp::Add | WordOp::Sub)
    }

    fn drops_left_zero(self) -> bool
        ensures { result ≡ drops_left_zero self }
    {
        matches!(self, WordOp::Add)
    }
}

fn high(a: i32, b: i32) -> i32
    ensures { result ≡ op_value WordOp.High a b }
{
    ((i64::from(a) * i64::from(b)) >> 32) as i32
}

fn unsigned_quot(a: u32, b: u32) -> u32
    ensures { result ≡ unsigned_quot a b }
{
    if b == 0 { u32::MAX } else { a / b }
}

fn unsigned_left(a: u32, b: u32) -> u32
    ensures { result ≡ unsigned_left a b }
{
    if b == 0 { a } else { a % b }
}

impl TestOp {
    /// The test's value.
    pub fn apply(self, a: i32, b: i32) -> bool
        ensures { result ≡ test_value self a b }
    {
        match self {
            TestOp::Eq => a == b,
            TestOp::Lt => a < b,
        }
    }

    fn at_same(self) -> bool
        ensures { result ≡ at_same self }
    {
        matches!(self, TestOp::Eq)
    }
}

/// A term: an operator with its children, under the number that its bank gave it.
///
/// A clone is the same term and takes no new memory. A term that outlives its bank stays whole.
#[cycle(term)]
#[derive(Drop)]
pub struct Term {
    entry: Rc<Entry>,
}

impl Model for Term {
    ghost use Rattle.ax_term.specs.Numbered.{Numbered, height};
    ghost use Rattle.ax_term.specs.NumberedCode.{numbered_code};
    ghost use Rattle.std.proofs.Common.{arith};

    ghost Value = { Numbered };

    ghost coded = { numbered_code };

    ghost use Rattle.ax_term.specs.NumberedOf.{numbered_of};

    ghost view = { λ t. numbered_of t.entry.value.number t.entry.value.node };

    ghost size = { height };

    ghost size_decreases = { λ a h. Prim.grind arith };
}

#[cycle(term)]
#[derive(Drop)]
struct Entry {
    number: usize,
    node: Node,
}

/// An operator with its children. Word symbols and flag symbols are numbered each by themselves.
#[cycle(term)]
#[derive(Drop)]
pub enum Node {
    Word(i32),
    WordSym(u32),
    Flag(bool),
    FlagSym(u32),
    Make(WordOp, Term, Term),
    Compare(TestOp, Term, Term),
    /// The negation.
    No(Term),
    /// The conjunction.
    All(Term, Term),
    /// The second child where the first is true, else the third.
    Pick(Term, Term, Term),
}

impl Term {
    /// The place in the bank, from 0. Children have lower numbers.
    pub fn number(&self) -> usize
        ensures { result ≡ number_of self.now }
    {
        self.entry.number
    }

    pub fn node(&self) -> &Node
        ensures { numbered_of (number_of self.now) result.now ≡ self.now }
    {
        &self.entry.node
    }

    /// Whether the term is a word. It is a flag otherwise.
    pub fn is_word(&self) -> bool
        ensures { result ≡ is_word (tree self.now) }
    {
        match self.node() {
            Node::Word(_) | Node::WordSym(_) | Node::Make(..) | Node::Pick(..) => true,
            Node::Flag(_) | Node::FlagSym(_) | Node::Compare(..) | Node::No(_) | Node::All(..) =>
                false,
        }
    }

    /// The value of a constant word.
    pub fn constant(&self) -> Option<i32>
        ensures { result ≡ constant_of (tree self.now) }
    {
        match self.node() {
            Node::Word(value) => Some(*value),
            _ => None,
        }
    }

    /// The value of a constant flag.
    pub fn truth(&self) -> Option<bool>
        ensures { result ≡ truth_of (tree self.now) }
    {
        match self.node() {
            Node::Flag(value) => Some(*value),
            _ => None,
        }
    }
}

impl Clone for Term {
    ghost is_clone = { λ t copy. copy ≡ t };

    fn clone(&self) -> Result<Term, AllocError> {
        Ok(Term {
            entry: Rc::clone(&self.entry)?,
        })
    }
}

/// A node with the numbers of its children in their place.
#[derive(Clone, Copy, PartialEq, Eq, Hash)]
enum Key {
    WordKey(i32),
    WordSymKey(u32),
    FlagKey(bool),
    FlagSymKey(u32),
    MakeKey(WordOp, usize, usize),
    CompareKey(TestOp, usize, usize),
    NoKey(usize),
    AllKey(usize, usize),
    PickKey(usize, usize, usize),
}

impl Node {
    fn key(&self) -> Key
        ensures { result ≡ key_of (numbered_of 0 self.now) }
    {
        match self {
            Node::Word(value) => Key::WordKey(*value),
            Node::WordSym(k) => Key::WordSymKey(*k),
            Node::Flag(value) => Key::FlagKey(*value),
            Node::FlagSym(k) => Key::FlagSymKey(*k),
            Node::Make(op, a, b) => Key::MakeKey(*op, a.number(), b.number()),
            Node::Compare(op, a, b) => Key::CompareKey(*op, a.number(), b.number()),
            Node::No(f) => Key::NoKey(f.number()),
            Node::All(f, g) => Key::AllKey(f.number(), g.number()),
            Node::Pick(f, a, b) => Key::PickKey(f.number(), a.number(), b.number()),
        }
    }
}

/// Terms by number, one for each tree: a call that makes a term gives the earlier one where there is one.
///
/// Each such call adds at most one term, and earlier terms stay. It refuses for want of memory alone, and
/// then the bank is as it was.
///
/// Dropping a bank gives up its newest term first, so that a long chain of terms ends link by link. A struct
/// that holds terms of a bank has to drop them before the bank.
pub struct Bank {
    alloc: Global,
    table: IndexMap<Key, Term>,
}

impl Model for Bank {
    ghost use Rattle.std.specs.Prelude.{List};
    ghost use Rattle.std.specs.Coded.{coded_list};
    ghost use Rattle.ax_term.specs.Numbered.{Numbered};
    ghost use Rattle.ax_term.specs.NumberedCode.{numbered_code};

    ghost Value = { List Numbered };

    ghost coded = { coded_list numbered_code };

    ghost use Rattle.ax_term.specs.Bank.{terms_of, IsTable};

    ghost view = { λ b. terms_of b.table.entries };

    ghost invariant = { λ b. IsTable b.table.entries };
}

impl Bank {
    /// A bank without terms, which takes no memory yet.
    pub fn new(alloc: Global) -> Bank
        ensures { result ≡ [] }
    {
        Bank {
            alloc,
            table: IndexMap::new(alloc),
        }
    }

    /// The number of terms.
    pub fn len(&self) -> usize
        ensures len { result ≡ length self.now }
        ensures sound { IsBank self.now }
    {
        self.table.len()
    }

    /// The term of that number.
    pub fn get(&self, number: usize) -> Option<&Term>
        ensures { option_copied result ≡ slice_get self.now number }
    {
        match self.table.get_index(number) {
            Some((_, term)) => Some(term),
            None => None,
        }
    }

    /// The term of a node, made where there is none yet.
    fn intern(&mut self, node: Node) -> Result<Term, AllocError>
        requires children { ChildrenBefore self.old (length self.old) (numbered_of 0 node) }
        ensures made { IfOk result (λ t. t ≡ numbered_of (number_of t) node) }
        ensures among { IfOk result (λ t. Among self.new t) }
        ensures grows { IfOk result (λ t. GainsAtMost self.old self.new t) }
        ensures unchanged { OnErr result (self.new ≡ self.old) }
        ensures stay { Stay self.old self.new }
    {
        let key = node.key();
        if let Some(term) = self.table.get(&key) {
            return term.clone();
        }
        let number = self.table.len();
        let term = Term {
            entry: Rc::new(self.alloc, Entry { number, node })?,
        };
        let kept = term.clone()?;
        self.table.insert(key, kept)?;
        Ok(term)
    }

    /// The constant word.
    pub fn word(&mut self, value: i32) -> Result<Term, AllocError>
        ensures made { IfOk result (λ t. tree t ≡ word value) }
        ensures has { IfOk result (λ t. HasWord self.new t) }
        ensures grows { IfOk result (λ t. GainsAtMost self.old self.new t) }
        ensures unchanged { OnErr result (self.new ≡ self.old) }
        ensures stay { Stay self.old self.new }
    {
        self.intern(Node::Word(value))
    }

    /// The word symbol of that number.
    pub fn word_sym(&mut self, k: u32) -> Result<Term, AllocError>
        ensures made { IfOk result (λ t. tree t ≡ word_sym k) }
        ensures has { IfOk result (λ t. HasWord self.new t) }
        ensures grows { IfOk result (λ t. GainsAtMost self.old self.new t) }
        ensures unchanged { OnErr result (self.new ≡ self.old) }
        ensures stay { Stay self.old self.new }
    {
        self.intern(Node::WordSym(k))
    }

    /// The constant flag.
    pub fn flag(&mut self, value: bool) -> Result<Term, AllocError>
        ensures made { IfOk result (λ t. tree t ≡ flag value) }
        ensures has { IfOk result (λ t. HasFlag self.new t) }
        ensures grows { IfOk result (λ t. GainsAtMost self.old self.new t) }
        ensures unchanged { OnErr result (self.new ≡ self.old) }
        ensures stay { Stay self.old self.new }
    {
        self.intern(Node::Flag(value))
    }

    /// The flag symbol of that number.
    pub fn flag_sym(&mut self, k: u32) -> Result<Term, AllocError>
        ensures made { IfOk result (λ t. tree t ≡ flag_sym k) }
        ensures has { IfOk result (λ t. HasFlag self.new t) }
        ensures grows { IfOk result (λ t. GainsAtMost self.old self.new t) }
        ensures unchanged { OnErr result (self.new ≡ self.old) }
        ensures stay { Stay self.old self.new }
    {
        self.intern(Node::FlagSym(k))
    }

    /// The operator's term, folded.
    #[tactic(auto, using(crate::proofs::FoldLemmas::folded_values), unfolding(crate::specs::Folding::make_word))]
    pub fn make_word(&mut self, op: WordOp, a: &Term, b: &Term) -> Result<Term, AllocError>
        requires first { HasWord self.old a.now }
        requires second { HasWord self.old b.now }
        ensures made { IfOk result (λ t. tree t ≡ make_word op (tree a.now) (tree b.now)) }
        ensures value { (i : Interpretation) → word_under i (make_word op (tree a.now) (tree b.now)) ≡ op_value op (word_under i (tree a.now)) (word_under i (tree b.now)) }
        ensures has { IfOk result (λ t. HasWord self.new t) }
        ensures grows { IfOk result (λ t. GainsAtMost self.old self.new t) }
        ensures unchanged { OnErr result (self.new ≡ self.old) }
        ensures stay { Stay self.old self.new }
    {
        match (a.constant(), b.constant()) {
            (Some(x), Some(y)) => self.word(op.apply(x, y)),
            (Some(x), None) => {
                if op.drops_left_zero() && x == 0 {
                    b.clone()
                } else {
                    self.join(op, a, b)
                }
            }
            (None, Some(y)) => {
                if op.drops_right_zero() && y == 0 {
                    a.clone()
                } else {
                    self.join(op, a, b)
                }
            }
            (None, None) => self.join(op, a, b),
        }
    }

    /// The operator's term as it stands.
    fn join(&mut self, op: WordOp, a: &Term, b: &Term) -> Result<Term, AllocError>
        requires first { HasWord self.old a.now }
        requires second { HasWord self.old b.now }
        ensures made { IfOk result (λ t. tree t ≡ make op (tree a.now) (tree b.now)) }
        ensures has { IfOk result (λ t. HasWord self.new t) }
        ensures grows { IfOk result (λ t. GainsAtMost self.old self.new t) }
        ensures unchanged { OnErr result (self.new ≡ self.old) }
        ensures stay { Stay self.old self.new }
    {
        self.intern(Node::Make(op, a.clone()?, b.clone()?))
    }

    /// The test's term, folded.
    #[tactic(auto, using(crate::proofs::FoldLemmas::folded_values), unfolding(crate::specs::Folding::make_test))]
    pub fn make_test(&mut self, op: TestOp, a: &Term, b: &Term) -> Result<Term, AllocError>
        requires first { HasWord self.old a.now }
        requires second { HasWord self.old b.now }
        ensures made { IfOk result (λ t. tree t ≡ make_test op (tree a.now) (tree b.now)) }
        ensures value { (i : Interpretation) → flag_under i (make_test op (tree a.now) (tree b.now)) ≡ test_value op (word_under i (tree a.now)) (word_under i (tree b.now)) }
        ensures has { IfOk result (λ t. HasFlag self.new t) }
        ensures grows { IfOk result (λ t. GainsAtMost self.old self.new t) }
        ensures unchanged { OnErr result (self.new ≡ self.old) }
        ensures stay { Stay self.old self.new }
    {
        match (a.constant(), b.constant()) {
            (Some(x), Some(y)) => self.flag(op.apply(x, y)),
            (Some(_), None) => self.join_test(op, a, b),
            (None, _) => self.join_test(op, a, b),
        }
    }

    /// The test's term, where its words aren't both constant.
    fn join_test(&mut self, op: TestOp, a: &Term, b: &Term) -> Result<Term, AllocError>
        requires first { HasWord self.old a.now }
        requires second { HasWord self.old b.now }
        ensures made { IfOk result (λ t. tree t ≡ (if same_tree (tree a.now) (tree b.now) then flag (at_same op) else compare op (tree a.now) (tree b.now))) }
        ensures has { IfOk result (λ t. HasFlag self.new t) }
        ensures grows { IfOk result (λ t. GainsAtMost self.old self.new t) }
        ensures unchanged { OnErr result (self.new ≡ self.old) }
        ensures stay { Stay self.old self.new }
    {
        if self.same(a, b) {
            self.flag(op.at_same())
        } else {
            self.intern(Node::Compare(op, a.clone()?, b.clone()?))
        }
    }

    /// The negation of a flag, folded.
    #[tactic(auto, using(crate::proofs::FoldLemmas::folded_values), unfolding(crate::specs::Folding::make_no))]
    pub fn make_no(&mut self, f: &Term) -> Result<Term, AllocError>
        requires has_flag { HasFlag self.old f.now }
        ensures made { IfOk result (λ t. tree t ≡ make_no (tree f.now)) }
        ensures value { (i : Interpretation) → flag_under i (make_no (tree f.now)) ≡ not (flag_under i (tree f.now)) }
        ensures has { IfOk result (λ t. HasFlag self.new t) }
        ensures grows { IfOk result (λ t. GainsAtMost self.old self.new t) }
        ensures unchanged { OnErr result (self.new ≡ self.old) }
        ensures stay { Stay self.old self.new }
    {
        let _ = &self.alloc;
        match f.node() {
            Node::Flag(value) => self.flag(!*value),
            Node::No(child) => child.clone(),
            _ => self.intern(Node::No(f.clone()?)),
        }
    }

    /// The conjunction of two flags, folded.
    #[tactic(auto, using(crate::proofs::FoldLemmas::folded_values), unfolding(crate::specs::Folding::make_all))]
    pub fn make_all(&mut self, f: &Term, g: &Term) -> Result<Term, AllocError>
        requires first { HasFlag self.old f.now }
        requires second { HasFlag self.old g.now }
        ensures made { IfOk result (λ t. tree t ≡ make_all (tree f.now) (tree g.now)) }
        ensures value { (i : Interpretation) → flag_under i (make_all (tree f.now) (tree g.now)) ≡ (flag_under i (tree f.now) && flag_under i (tree g.now)) }
        ensures has { IfOk result (λ t. HasFlag self.new t) }
        ensures grows { IfOk result (λ t. GainsAtMost self.old self.new t) }
        ensures unchanged { OnErr result (self.new ≡ self.old) }
        ensures stay { Stay self.old self.new }
    {
        match (f.truth(), g.truth()) {
            (Some(true), _) => g.clone(),
            (Some(false), _) => self.flag(false),
            (None, Some(true)) => f.clone(),
            (None, Some(false)) => self.flag(false),
            (None, None) => self.join_all(f, g),
        }
    }

    /// The conjunction of two flags that aren't constant.
    fn join_all(&mut self, f: &Term, g: &Term) -> Result<Term, AllocError>
        requires first { HasFlag self.old f.now }
        requires second { HasFlag self.old g.now }
        ensures made { IfOk result (λ t. tree t ≡ all_by None None (tree f.now) (tree g.now)) }
        ensures has { IfOk result (λ t. HasFlag self.new t) }
        ensures grows { IfOk result (λ t. GainsAtMost self.old self.new t) }
        ensures unchanged { OnErr result (self.new ≡ self.old) }
        ensures stay { Stay self.old self.new }
    {
        if self.same(f, g) {
            f.clone()
        } else if self.denies(g, f) || self.denies(f, g) {
            self.flag(false)
        } else {
            self.intern(Node::All(f.clone()?, g.clone()?))
        }
    }

    /// The choice of `a` where `f` is true and of `b` elsewhere, folded.
    #[tactic(auto, using(crate::proofs::FoldLemmas::folded_values), unfolding(crate::specs::Folding::make_pick))]
    pub fn make_pick(&mut self, f: &Term, a: &Term, b: &Term) -> Result<Term, AllocError>
        requires guard { HasFlag self.old f.now }
        requires first { HasWord self.old a.now }
        requires second { HasWord self.old b.now }
        ensures made { IfOk result (λ t. tree t ≡ make_pick (tree f.now) (tree a.now) (tree b.now)) }
        ensures value { (i : Interpretation) → word_under i (make_pick (tree f.now) (tree a.now) (tree b.now)) ≡ (if flag_under i (tree f.now) then word_under i (tree a.now) else word_under i (tree b.now)) }
        ensures has { IfOk result (λ t. HasWord self.new t) }
        ensures grows { IfOk result (λ t. GainsAtMost self.old self.new t) }
        ensures unchanged { OnErr result (self.new ≡ self.old) }
        ensures stay { Stay self.old self.new }
    {
        match f.truth() {
            Some(true) => a.clone(),
            Some(false) => b.clone(),
            None => self.join_pick(f, a, b),
        }
    }

    /// The choice by a flag that isn't constant.
    fn join_pick(&mut self, f: &Term, a: &Term, b: &Term) -> Result<Term, AllocError>
        requires guard { HasFlag self.old f.now }
        requires first { HasWord self.old a.now }
        requires second { HasWord self.old b.now }
        ensures made { IfOk result (λ t. tree t ≡ pick_by None (tree f.now) (tree a.now) (tree b.now)) }
        ensures has { IfOk result (λ t. HasWord self.new t) }
        ensures grows { IfOk result (λ t. GainsAtMost self.old self.new t) }
        ensures unchanged { OnErr result (self.new ≡ self.old) }
        ensures stay { Stay self.old self.new }
    {
        if self.same(a, b) {
            a.clone()
        } else {
            self.intern(Node::Pick(f.clone()?, a.clone()?, b.clone()?))
        }
    }

    /// Whether two terms of the bank have one tree.
    fn same(&self, a: &Term, b: &Term) -> bool
        requires first { Among self.now a.now }
        requires second { Among self.now b.now }
        ensures { result ≡ same_tree (tree a.now) (tree b.now) }
    {
        let _ = &self.alloc;
        a.number() == b.number()
    }

    /// Whether `f` is the negation of `g`.
    fn denies(&self, f: &Term, g: &Term) -> bool
        requires first { Among self.now f.now }
        requires second { Among self.now g.now }
        ensures { result ≡ same_tree (tree f.now) (no (tree g.now)) }
    {
        let _ = &self.alloc;
        match f.node() {
            Node::No(child) => self.same(child, g),
            _ => false,
        }
    }

    /// Gives up the newest term.
    fn pop_newest(&mut self) -> Option<Term>
        ensures newest { self.old ≡ self.new ++ option_to_list result }
        ensures sound { IsBank self.new }
    {
        match self.table.pop() {
            Some((_, term)) => Some(term),
            None => None,
        }
    }
}

impl Drop for Bank {
    fn drop(mut self) {
        while let Some(_) = self.pop_newest() {}
        let Bank { alloc: _, table: _ } = self;
    }
}
